// Guest loads and stores, and the messages that a store consumes.
ghost use Rattle.std.specs.Prelude.{◌≡◌, ◌<◌, ◌≤◌, ◌+◌, [], length, IfSome};
ghost use Rattle.synic_board.specs.State.{processors};
ghost use Rattle.synic_board.specs.inside.Effected.{preceded};
ghost use Rattle.synic_board.specs.Stores.{stored_bytes, read_bytes, consumed, consumed_in};
ghost use Rattle.synic_board.specs.inside.Steps.{IsOn};
ghost use Rattle.synic_board.specs.Sound.{IsSound};
ghost use Rattle.synic_board.specs.inside.Unless.{unless_refused};
ghost use Rattle.synic_board.specs.inside.Touches.{touched, OthersFree};

use crate::event::Reply;
use crate::machine::Machine;
use board_terms::{Notice, Notices, Owner, Refusal, Sint, Vp, source_number};

/// The number of bytes of a page.
const PAGE_SIZE: u64 = 4096;

/// The size of a message slot in bytes, and of the type at its front (TLFS, "SynIC Message").
const SLOT_SIZE: usize = 256;

const TYPE_SIZE: usize = 4;

impl Machine {
    /// Loads bytes from the page that the guest sees at the address.
    #[inline(always)]
    pub(crate) fn load(&self, address: u64, length: u8) -> Reply
        ensures { result ≡ read_bytes self.now.state address length }
    {
        match self.space.load(address, length) {
            Ok(bytes) => Reply::Bytes(bytes),
            Err(refusal) => Reply::Refused(refusal),
        }
    }

    /// Stores bytes in the page that the guest sees at the address. Invariant: a slot that is empty
    /// holds no ticket. So only the slot whose type was written can violate it.
    #[inline(always)]
    pub(crate) fn store(&mut self, address: u64, bytes: &[u8], notices: &mut Notices) -> Reply
        requires none { notices.old ≡ [] }
        requires sound { IsSound self.old.state }
        ensures step { (self.new.state, result, notices.new) ≡ stored_bytes self.old.state address bytes.now }
        ensures writes { self.new.writes ≡ self.old.writes }
    {
        match self.try_store(address, bytes, notices) {
            None => Reply::Done,
            Some(refusal) => Reply::Refused(refusal),
        }
    }

    /// Stores bytes and returns why the store is refused, if it is. Out of line, with a result in
    /// registers. Four or eight bytes, the usual sizes, are known where they are stored, so they are
    /// one word each, and their path has no call for which registers are saved.
    #[inline(never)]
    fn try_store(&mut self, address: u64, bytes: &[u8], notices: &mut Notices) -> Option<Refusal>
        requires none { notices.old ≡ [] }
        requires sound { IsSound self.old.state }
        ensures step { (self.new.state, unless_refused Reply.Done result, notices.new)
            ≡ stored_bytes self.old.state address bytes.now }
        ensures writes { self.new.writes ≡ self.old.writes }
    {
        if let Some(bytes) = bytes.as_array::<4>() {
            return self.store_bytes(address, bytes, notices);
        }
        if let Some(bytes) = bytes.as_array::<8>() {
            return self.store_bytes(address, bytes, notices);
        }
        self.store_few(address, bytes, notices)
    }

    /// The same for any number of bytes.
    #[inline(never)]
    fn store_few(&mut self, address: u64, bytes: &[u8], notices: &mut Notices) -> Option<Refusal>
        requires none { notices.old ≡ [] }
        requires sound { IsSound self.old.state }
        ensures step { (self.new.state, unless_refused Reply.Done result, notices.new)
            ≡ stored_bytes self.old.state address bytes.now }
        ensures writes { self.new.writes ≡ self.old.writes }
    {
        self.store_bytes(address, bytes, notices)
    }

    #[inline(always)]
    fn store_bytes(&mut self, address: u64, bytes: &[u8], notices: &mut Notices) -> Option<Refusal>
        requires none { notices.old ≡ [] }
        requires sound { IsSound self.old.state }
        ensures step { (self.new.state, unless_refused Reply.Done result, notices.new)
            ≡ stored_bytes self.old.state address bytes.now }
        ensures writes { self.new.writes ≡ self.old.writes }
    {
        let owner = match self.space.store_slice(address, bytes) {
            Ok(owner) => owner,
            Err(refusal) => return Some(refusal),
        };
        let slot = touched((address % PAGE_SIZE) as usize, bytes.len());
        self.consume_in(owner, slot, notices);
        None
    }

    /// If the page is a message page and the slot is now empty, the message of the slot is
    /// consumed.
    #[inline(always)]
    fn consume_in(&mut self, owner: Owner, slot: Option<Sint>, notices: &mut Notices)
        requires on { IsOn self.old.state owner }
        requires others { OthersFree self.old.state owner slot }
        requires range { IfSome slot (λ sint. sint < 16) }
        requires room { length notices.old < 320 }
        ensures effect { (self.new.state, notices.new) ≡ preceded notices.old (consumed_in self.old.state owner) }
        ensures writes { self.new.writes ≡ self.old.writes }
    {
        match owner {
            Owner::Sim(vp) => {
                let Some(sint) = slot else {
                    return;
                };
                self.consume(vp, sint, notices);
            }
            Owner::Guest | Owner::Sief(_) | Owner::Nothing => {}
        }
    }

    /// Removes the ticket of an empty slot.
    #[tactic(auto, using(crate::proofs::Rules::lists), unfolding(crate::specs::Stores::consumed))]
    fn consume(&mut self, vp: Vp, sint: Sint, notices: &mut Notices)
        requires on { vp < processors self.old.state }
        requires room { length notices.old < 320 }
        ensures effect { (self.new.state, notices.new) ≡ preceded notices.old (consumed self.old.state vp sint) }
        ensures writes { self.new.writes ≡ self.old.writes }
        ensures emitted { length notices.new ≤ length notices.old + 1 }
        ensures same { processors self.new.state ≡ processors self.old.state }
    {
        let at = source_number(vp, sint);
        let Some(ticket) = self.slots[at] else {
            return;
        };
        if !self.is_slot_empty(vp, sint) {
            return;
        }
        self.slots[at] = None;
        notices.push(Notice::Consumed { ticket, vp, sint });
    }
}

/// The source whose slot a store may have emptied: the last slot that its bytes reach, if they
/// begin no later than the slot's type. At most 8 bytes reach the type of only one slot.
fn touched(at: usize, count: usize) -> Option<Sint>
    requires some { 0 < count }
    requires inside { at + count ≤ 4096 }
    ensures value { result ≡ touched at count }
    ensures range { IfSome result (λ sint. sint < 16) }
{
    let slot = (at + count - 1) / SLOT_SIZE;
    if at < SLOT_SIZE * slot + TYPE_SIZE {
        // A page has 16 slots, so the remainder is the slot, and `new` tests nothing.
        Sint::new((slot % 16) as u8)
    } else {
        None
    }
}
