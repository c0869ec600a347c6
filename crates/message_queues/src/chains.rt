// Doubly linked chains of buffers.
ghost use Rattle.std.specs.Prelude.{◌≡◌, ℕ, ◌+◌, ◌<◌, ◌≤◌, ◌^◌, Some, None, slice_get, length};
ghost use Rattle.slab.specs.Slab.{get, slab_len, ContainsKey, HasRoomFor};
ghost use Rattle.message_queues.specs.declared.chains.Neighbours.{Neighbours};
ghost use Rattle.message_queues.specs.Queues.{is_from_port, withdrawn_of};
ghost use Rattle.message_queues.specs.inside.Buffers.{message_in, buffer_at};
ghost use Rattle.message_queues.specs.inside.Chains.{queue_at, IsChain};
ghost use Rattle.message_queues.specs.inside.Moves.{Sets, followed_by, preceded_by, Linked, Freed, Withdrawn};

use arrayvec::ArrayVec;
use board_terms::{Message, Ticket};
use slab::Slab;

/// The neighbours of a queued message. The message itself is at the same key in a list, so that
/// linking and unlinking move no message.
#[derive(Drop)]
pub(crate) struct Neighbours {
    /// The key of the next buffer towards the front. `link` and `unlink` maintain it.
    pub(crate) before: Option<usize>,
    /// The key of the next buffer towards the end. `link` and `unlink` maintain it.
    pub(crate) behind: Option<usize>,
}

/// A queue.
#[derive(Drop)]
pub(crate) struct Chain {
    /// The key of its first buffer, which has none before it.
    pub(crate) first: Option<usize>,
    /// The key of its last buffer, which has none after it.
    pub(crate) last: Option<usize>,
    /// The number of its buffers. `link` increments it, `unlink` decrements it.
    pub(crate) len: u16,
}

/// Sets the successor of a key, if there is a key.
#[inline]
fn set_behind(neighbours: &mut Slab<Neighbours>, at: Option<usize>, to: Option<usize>)
    ensures sets { Sets (get neighbours.old) (get neighbours.new) at (followed_by to) }
    ensures len { slab_len neighbours.new ≡ slab_len neighbours.old }
    ensures capacity { neighbours.new.capacity ≡ neighbours.old.capacity }
{
    if let Some(at) = at {
        if let Some(here) = neighbours.get_mut(at) {
            here.behind = to;
        }
    }
}

/// Sets the predecessor of a key, if there is a key.
#[inline]
fn set_before(neighbours: &mut Slab<Neighbours>, at: Option<usize>, to: Option<usize>)
    ensures sets { Sets (get neighbours.old) (get neighbours.new) at (preceded_by to) }
    ensures len { slab_len neighbours.new ≡ slab_len neighbours.old }
    ensures capacity { neighbours.new.capacity ≡ neighbours.old.capacity }
{
    if let Some(at) = at {
        if let Some(here) = neighbours.get_mut(at) {
            here.before = to;
        }
    }
}

/// Links a free key to the end of a chain, and returns it.
#[inline]
pub(crate) fn link(neighbours: &mut Slab<Neighbours>, chain: &mut Chain) -> usize
    requires room { HasRoomFor neighbours.old 1 }
    requires bound { chain.old.len + 1 < 2 ^ 16 }
    ensures linked { Linked (get neighbours.old) (get neighbours.new) chain.old chain.new result }
    ensures len { slab_len neighbours.new ≡ slab_len neighbours.old + 1 }
    ensures capacity { neighbours.new.capacity ≡ neighbours.old.capacity }
    ensures range { result < neighbours.old.capacity }
{
    let last = chain.last;
    let key = neighbours.insert_reserved(Neighbours {
        before: last,
        behind: None,
    });
    set_behind(neighbours, last, Some(key));
    if last.is_none() {
        chain.first = Some(key);
    }
    chain.last = Some(key);
    chain.len += 1;
    key
}

/// Removes a key from its chain. Its neighbours are linked to each other, or become the chain's
/// ends.
#[inline]
pub(crate) fn unlink(neighbours: &mut Slab<Neighbours>, chain: &mut Chain, key: usize)
    requires there { ContainsKey neighbours.old key }
    requires some { 1 ≤ chain.old.len }
    ensures unlinked { (n : Neighbours) × Freed (get neighbours.old) (get neighbours.new) chain.old chain.new key n }
    ensures len { slab_len neighbours.new + 1 ≡ slab_len neighbours.old }
    ensures capacity { neighbours.new.capacity ≡ neighbours.old.capacity }
{
    let Neighbours { before, behind } = neighbours.remove(key);
    set_behind(neighbours, before, behind);
    set_before(neighbours, behind, before);
    if before.is_none() {
        chain.first = behind;
    }
    if behind.is_none() {
        chain.last = before;
    }
    chain.len -= 1;
}

/// Removes the first key of a chain, as `unlink` does. Nothing is before it.
#[inline(always)]
pub(crate) fn drop_first(neighbours: &mut Slab<Neighbours>, chain: &mut Chain, key: usize)
    requires there { ContainsKey neighbours.old key }
    requires first { (n : Neighbours) → get neighbours.old key ≡ Some n → n.before ≡ None }
    requires some { 1 ≤ chain.old.len }
    ensures unlinked { (n : Neighbours) × Freed (get neighbours.old) (get neighbours.new) chain.old chain.new key n }
    ensures len { slab_len neighbours.new + 1 ≡ slab_len neighbours.old }
    ensures capacity { neighbours.new.capacity ≡ neighbours.old.capacity }
{
    let Neighbours { before: _, behind } = neighbours.remove(key);
    set_before(neighbours, behind, None);
    chain.first = behind;
    if behind.is_none() {
        chain.last = None;
    }
    chain.len -= 1;
}

/// The message at a key that is in use.
#[inline]
pub(crate) fn message_in<'a>(
    neighbours: &Slab<Neighbours>,
    messages: &'a [Message],
    key: usize,
) -> &'a Message
    requires there { ContainsKey neighbours.now key }
    requires size { length messages.now ≡ neighbours.now.capacity }
    ensures { result.now ≡ message_in messages.now key }
{
    // A key in use is below the capacity, by the contract of this call.
    let _capacity = neighbours.capacity();
    &messages[key]
}

/// Whether a message is from a port.
#[inline]
fn is_from_port(message: &Message, port: u8) -> bool
    ensures { result ≡ is_from_port port message.now }
{
    match message {
        Message::FromPort { port: from, .. } => *from == port,
        Message::FromTimer { .. } => false,
    }
}

/// Removes the messages of a port from a chain, and returns their tickets, front first. Other
/// messages stay in order.
pub(crate) fn withdraw(
    neighbours: &mut Slab<Neighbours>,
    messages: &[Message],
    chain: &mut Chain,
    port: u8,
) -> ArrayVec<Ticket, 16>
    requires linked { (owner : ℕ → ℕ) × (rank : ℕ → ℕ) × (queue : ℕ)
        × IsChain (buffer_at neighbours.old messages.now) owner rank queue chain.old }
    requires bound { length (withdrawn_of port (queue_at (buffer_at neighbours.old messages.now) chain.old)) ≤ 16 }
    requires size { length messages.now ≡ neighbours.old.capacity }
    ensures withdrawn { (owner rank : ℕ → ℕ) (queue : ℕ)
        → IsChain (buffer_at neighbours.old messages.now) owner rank queue chain.old
        → Withdrawn (buffer_at neighbours.old messages.now)
        (buffer_at neighbours.new messages.now) owner rank queue chain.old chain.new port result.items }
    ensures len { slab_len neighbours.new + length result.items ≡ slab_len neighbours.old }
    ensures capacity { neighbours.new.capacity ≡ neighbours.old.capacity }
{
    let mut tickets = ArrayVec::new();
    let mut next = chain.first;
    for _ in 0..chain.len {
        let key = next.unwrap();
        next = neighbours[key].behind;
        let message = message_in(neighbours, messages, key);
        if is_from_port(message, port) {
            tickets.push(message.ticket());
            unlink(neighbours, chain, key);
        }
    }
    tickets
}

/// The message at an index of a chain, counted from the front.
pub(crate) fn message_at<'a>(
    neighbours: &Slab<Neighbours>,
    messages: &'a [Message],
    chain: &Chain,
    index: u16,
) -> &'a Message
    requires linked { (owner : ℕ → ℕ) × (rank : ℕ → ℕ) × (queue : ℕ)
        × IsChain (buffer_at neighbours.now messages.now) owner rank queue chain.now }
    requires inside { index < chain.now.len }
    requires size { length messages.now ≡ neighbours.now.capacity }
    ensures { slice_get (queue_at (buffer_at neighbours.now messages.now) chain.now) index ≡ Some result.now }
{
    let mut key = chain.first.unwrap();
    for _ in 0..index {
        key = neighbours[key].behind.unwrap();
    }
    message_in(neighbours, messages, key)
}
