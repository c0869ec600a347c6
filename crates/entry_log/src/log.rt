// The log of entries.
ghost use Rattle.std.specs.Prelude.{◌≡◌, ◌+◌, ◌≤◌, true, [], ◌∷◌, ◌++◌, IfOk, OnOk, IsOk, length, vec_len, vec_capacity};
ghost use Rattle.entry_log.specs.Log.{entry};

use crate::compact::{CompactEntry, CompactEvent, CompactReply, bytes_of_event, bytes_of_reply};
use std::alloc::{AllocError, Global};
use std::marker::Model;
use std::mem::size_of;
use synic_board::{Entry, Event, Reply};

/// The greatest number of bytes of an entry: 240 of its event, and 8 of its reply.
const MOST_BYTES: usize = 248;

/// A compact list of entries. Its contract shows the entries, and whether there is capacity for one
/// more, of any kind.
#[derive(Drop)]
pub struct EntryLog {
    compact: Vec<CompactEntry>,
    bytes: Vec<u8>,
}

impl Model for EntryLog {
    ghost use Rattle.entry_log.specs.Log.{Log};

    ghost Value = { Log };

    ghost use Rattle.entry_log.specs.inside.View.{log_of, LogInvariant};

    ghost view = { log_of };

    ghost invariant = { LogInvariant };
}

impl EntryLog {
    /// The size of the numbers of an entry, in bytes.
    pub const NUMBERS_SIZE: usize = size_of::<CompactEntry>();

    /// An empty log. Does not allocate.
    pub fn new(alloc: Global) -> EntryLog
        ensures { result.entries ≡ [] }
    {
        EntryLog {
            compact: Vec::new(alloc),
            bytes: Vec::new(alloc),
        }
    }

    /// The number of entries.
    pub fn len(&self) -> usize
        ensures { result ≡ length self.now.entries }
    {
        self.compact.len()
    }

    /// Ensures capacity for one more entry, of any kind. Does not allocate if there is capacity
    /// already; otherwise the capacity doubles. Changes nothing on an error.
    pub fn reserve(&mut self) -> Result<(), AllocError>
        ensures entries { self.new.entries ≡ self.old.entries }
        ensures room { OnOk result (self.new.has_room ≡ true) }
        ensures succeeds { self.old.has_room ≡ true → IsOk result }
    {
        self.compact.reserve(1)?;
        self.bytes.reserve(MOST_BYTES)
    }

    /// Appends an event, its reply, and the number of the actor that performed it. Never allocates.
    /// Requires capacity, which `reserve` ensures.
    pub fn push(&mut self, actor: u8, event: &Event, reply: &Reply)
        requires { self.old.has_room ≡ true }
        ensures { self.new.entries ≡ self.old.entries ++ entry actor event.now reply.now ∷ [] }
    {
        append(&mut self.bytes, bytes_of_event(event));
        append(&mut self.bytes, bytes_of_reply(reply));
        self.compact.push_reserved(CompactEntry {
            actor,
            event: CompactEvent::of(event),
            reply: CompactReply::of(reply),
        });
    }

    /// A copy of the entries, each with its own bytes.
    pub fn to_entries(&self, alloc: Global) -> Result<Vec<Entry>, AllocError>
        ensures { IfOk result (λ v. v.items ≡ self.now.entries) }
    {
        let mut entries = Vec::with_capacity(alloc, self.compact.len())?;
        let mut bytes = self.bytes.as_slice();
        for compact in &self.compact {
            entries.push(compact.entry(bytes))?;
            bytes = &bytes[compact.size()..];
        }
        Ok(entries)
    }
}

/// Appends bytes within the capacity.
fn append(to: &mut Vec<u8>, bytes: &[u8])
    requires { vec_len to.old + length bytes.now ≤ vec_capacity to.old }
    ensures items { to.new.items ≡ to.old.items ++ bytes.now }
    ensures capacity { vec_capacity to.old ≤ vec_capacity to.new }
{
    if !bytes.is_empty() {
        let _ = to.extend_from_slice(bytes);
    }
}
