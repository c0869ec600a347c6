// Trace entries of plain events and replies.
ghost use Rattle.std.specs.Prelude.{◌≡◌, ◌≢◌, ◌↔◌, Some, None, IfOk, IsErrOf};
ghost use Rattle.c_terms.specs.Events.{event_from_c};
ghost use Rattle.c_terms.specs.Replies.{reply_from_c};
ghost use Rattle.c_terms.specs.Entries.{entry_text};

use crate::{CEvent, CReply, event_of, reply_of};
use std::alloc::Global;
use synic_board::Entry;
use text_history::put_entry;
use thiserror::Error;

/// Why no entry was formatted.
#[derive(Clone, Copy, PartialEq, Eq, Debug, Drop, Error)]
pub enum EntryFault {
    #[error("the numbers decode to no event")]
    NoEvent = 1,
    #[error("the numbers decode to no reply")]
    NoReply = 2,
    #[error("out of memory")]
    Memory = 3,
}

/// The two lines of a trace entry for an actor's event and its reply. The faults are checked in
/// this order: `NoEvent` if `event` encodes no event, `NoReply` if `reply` encodes no reply of a
/// board, `Memory`.
pub fn lines_of(
    alloc: Global,
    actor: u8,
    event: &CEvent,
    reply: &CReply,
) -> Result<Vec<u8>, EntryFault>
    ensures emitted { IfOk result
        (λ v. entry_text actor (event_from_c event.now) (reply_from_c reply.now) ≡ Some v.items) }
    ensures event { IsErrOf result EntryFault.NoEvent ↔ (event_from_c event.now ≡ None) }
    ensures reply { IsErrOf result EntryFault.NoReply ↔
        ((event_from_c event.now ≢ None) × (reply_from_c reply.now ≡ None)) }
{
    let Some(event) = event_of(event) else {
        return Err(EntryFault::NoEvent);
    };
    let Some(reply) = reply_of(reply) else {
        return Err(EntryFault::NoReply);
    };
    let mut lines = Vec::new(alloc);
    let entry = Entry {
        actor,
        event,
        reply,
    };
    match put_entry(&mut lines, &entry) {
        Ok(()) => Ok(lines),
        Err(_) => Err(EntryFault::Memory),
    }
}
