// Notices: what an event did, in addition to its reply.
ghost use Rattle.std.specs.Prelude.{◌≡◌, ◌<◌, ◌≤◌, [], ◌∷◌, ◌++◌, length, IfOk};

use crate::sint::Sint;
use crate::vector::Vector;
use crate::vp::Vp;
use crate::{Moment, Ticket};
use std::alloc::{AllocError, Global};
use std::marker::Model;

/// The capacity of a list of notices. A reset emits at most 276: 16 for slots, 256 for buffers of
/// ports and 4 for those of timers. Any other event emits at most 192. The rest is for events to come.
pub const MOST_NOTICES: usize = 320;

/// Something that an event did, in addition to its reply.
#[derive(Clone, Copy, PartialEq, Eq, Debug)]
pub enum Notice {
    /// A message was appended to its queue.
    Accepted { vp: Vp, sint: Sint, ticket: Ticket },
    /// The head of a queue was written into its slot.
    Placed { vp: Vp, sint: Sint, ticket: Ticket },
    /// A message was placed with MessagePending set, or a clear MessagePending was set in an
    /// occupied slot.
    Pending { vp: Vp, sint: Sint },
    /// A clear request bit of the local APIC was set.
    Requested { vp: Vp, vector: Vector },
    /// A clear event flag was set. `flag` is the base of the port plus the number signalled.
    FlagSet { vp: Vp, sint: Sint, flag: u16 },
    /// A guest store emptied a slot that held a ticket.
    Consumed { vp: Vp, sint: Sint, ticket: Ticket },
    /// A queued message of a closed port, or a queued or placed one of a reset processor, was
    /// withdrawn.
    Withdrawn { vp: Vp, sint: Sint, ticket: Ticket },
    /// A timer that was due at `due` expired.
    Expired { vp: Vp, index: u8, due: Moment },
    /// A timer skipped `count` of its deadlines, at least one.
    Skipped { vp: Vp, index: u8, count: u64 },
}

/// The notices of one event, in order. `open` allocates the list once.
#[derive(Drop)]
pub struct Notices {
    items: Vec<Notice>,
}

impl Model for Notices {
    ghost use Rattle.std.specs.Prelude.{List, ◌≤◌, vec_len, vec_capacity};
    ghost use Rattle.board_terms.specs.declared.notices.Notice.{Notice};

    ghost Value = { List Notice };

    ghost view = { λ a. a.items.items };

    ghost invariant = { λ a. (320 ≤ vec_capacity a.items) × (vec_len a.items ≤ 320) };
}

impl Notices {
    /// An empty list with capacity for 320. The only call here that allocates.
    pub fn open(alloc: Global) -> Result<Notices, AllocError>
        ensures { IfOk result (λ n. n ≡ []) }
    {
        let items = Vec::with_capacity(alloc, MOST_NOTICES)?;
        Ok(Notices { items })
    }

    /// Appends a notice. Never allocates. Requires fewer than 320 notices in the list.
    pub fn push(&mut self, notice: Notice)
        requires { length self.old < 320 }
        ensures { self.new ≡ self.old ++ notice ∷ [] }
    {
        self.items.push_reserved(notice);
    }

    /// Empties the list and keeps its capacity.
    pub fn clear(&mut self)
        ensures { self.new ≡ [] }
    {
        self.items.clear();
    }

    /// The notices, in order.
    pub fn as_slice(&self) -> &[Notice]
        ensures value { result.now ≡ self.now }
        ensures bound { length result.now ≤ 320 }
    {
        self.items.as_slice()
    }
}
