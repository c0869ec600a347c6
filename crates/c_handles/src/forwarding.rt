// Forwarding requested vectors to a local APIC outside the board.
ghost use Rattle.std.specs.Prelude.{◌≡◌, ◌<◌, []};
ghost use Rattle.std.specs.FinSet as set;
ghost use Rattle.synic_board.specs.State.{processors};
ghost use Rattle.synic_board.specs.Performing.{Performs};
ghost use Rattle.synic_board.specs.declared.event.Event.TheVariants.{Take, Write};
ghost use Rattle.synic_regs.specs.Registers.{number_of_register};
ghost use Rattle.synic_regs.specs.declared.register.Register.TheVariants.{Eoi};
ghost use Rattle.c_handles.specs.Forwarding.{IsForwarded};
ghost use Rattle.c_handles.specs.Kinds.{board_in, state_in, notices_in, eoms_in, pages_in};
ghost use Rattle.c_handles.specs.inside.ForwardingOne.{ForwardsOne};

use crate::AnyBoard;
use board_terms::Vp;
use lapic_core::VectorSet;
use synic_board::{Event, Reply};
use synic_regs::msr;

/// The vectors that a processor forwards to a local APIC outside the board.
#[derive(Drop)]
pub struct Forwarded {
    /// All of them.
    pub vectors: VectorSet,
    /// Those that are auto-EOI on the processor: no EOI ends them.
    pub auto_eoi: VectorSet,
}

impl Forwarded {
    fn none() -> Forwarded
        ensures vectors { result.vectors ≡ set.empty }
        ensures auto_eoi { result.auto_eoi ≡ set.empty }
    {
        Forwarded {
            vectors: VectorSet::new(),
            auto_eoi: VectorSet::new(),
        }
    }
}

impl AnyBoard {
    /// Forwards the requested vectors of a processor to a local APIC outside the board, as one that
    /// takes each by `Event::Take` and ends it at once; they are requested on the board no longer. None
    /// while the processor is suspended. Leaves no notices. Requires that the processor is on the board.
    pub fn forward(&mut self, vp: Vp) -> Forwarded
        requires { vp < processors (state_in self.old) }
        ensures forwarded { IsForwarded (state_in self.old) vp (state_in self.new) result }
        ensures notices { notices_in self.new ≡ [] }
        ensures eoms { eoms_in self.new ≡ 0 }
        ensures pages { pages_in self.new ≡ pages_in self.old }
    {
        let mut forwarded = Forwarded::none();
        self.clear_notices();
        while self.forward_one(vp, &mut forwarded) {}
        forwarded
    }

    /// Forwards the next vector of a processor, if it has one.
    fn forward_one(&mut self, vp: Vp, forwarded: &mut Forwarded) -> bool
        requires on { vp < processors (state_in self.old) }
        requires notices { notices_in self.old ≡ [] }
        requires eoms { eoms_in self.old ≡ 0 }
        ensures one { ForwardsOne (state_in self.old) vp (state_in self.new) forwarded.old forwarded.new result }
        ensures notices { notices_in self.new ≡ [] }
        ensures eoms { eoms_in self.new ≡ 0 }
        ensures pages { pages_in self.new ≡ pages_in self.old }
    {
        let Some(vector) = self.board().lapic(vp).next() else {
            return false;
        };
        let _ = self.take(vp);
        forwarded.vectors.insert(vector);
        // an auto-EOI vector does not enter service
        if self.board().lapic(vp).in_service().contains(vector) {
            let _ = self.end(vp);
        } else {
            forwarded.auto_eoi.insert(vector);
        }
        true
    }

    /// Performs `Event::Take`, which accesses no page.
    fn take(&mut self, vp: Vp) -> Reply
        ensures performs { Performs (board_in self.old) (Take vp) (board_in self.new) result (notices_in self.new) }
        ensures eoms { eoms_in self.new ≡ 0 }
        ensures pages { pages_in self.new ≡ pages_in self.old }
    {
        let event = Event::Take { vp: vp.number() };
        match self {
            AnyBoard::Plain(held) => held.perform(&event),
            AnyBoard::Live(held) => held.perform(&event),
        }
    }

    /// Performs a write of EOI, which accesses no page.
    fn end(&mut self, vp: Vp) -> Reply
        ensures performs { Performs (board_in self.old) (Write vp (number_of_register Eoi) 0)
            (board_in self.new) result (notices_in self.new) }
        ensures eoms { eoms_in self.new ≡ 0 }
        ensures pages { pages_in self.new ≡ pages_in self.old }
    {
        let event = Event::Write {
            vp: vp.number(),
            register: msr::EOI,
            value: 0,
        };
        match self {
            AnyBoard::Plain(held) => held.perform(&event),
            AnyBoard::Live(held) => held.perform(&event),
        }
    }

    /// Removes the notices and the EOMs of the last event.
    fn clear_notices(&mut self)
        ensures board { board_in self.new ≡ board_in self.old }
        ensures pages { pages_in self.new ≡ pages_in self.old }
        ensures notices { notices_in self.new ≡ [] }
        ensures eoms { eoms_in self.new ≡ 0 }
    {
        match self {
            AnyBoard::Plain(held) => held.notices.clear(),
            AnyBoard::Live(held) => held.clear(),
        }
    }
}
