// Resetting a processor.
ghost use Rattle.std.specs.Prelude.{◌≡◌, ◌<◌, ◌≤◌, ◌+◌, [], length, map};
ghost use Rattle.board_terms.specs.Messages.{ticket_of};
ghost use Rattle.board_terms.specs.Sources.{source_number};
ghost use Rattle.lapic_core.specs.Apic.{empty_apic};
ghost use Rattle.synic_regs.specs.Regs.{reset_regs};
ghost use Rattle.gpa_space.specs.Space.{after_clearing};
ghost use Rattle.message_queues.specs.Queues.{queue_of, with_queue};
ghost use Rattle.stimer_bank.specs.Bank.{reset as bank_reset};
ghost use Rattle.synic_board.specs.State.{processors, regs_of, space_of, bank_of, with_apic, with_regs, with_space, with_bank};
ghost use Rattle.synic_board.specs.Buffers.{HasBuffers};
ghost use Rattle.synic_board.specs.inside.Effected.{preceded};
ghost use Rattle.synic_board.specs.inside.Effected.{Effected};
ghost use Rattle.synic_board.specs.Resetting.{slot_emptied, queue_emptied, emptied, cleared, reset};

use crate::event::Reply;
use crate::machine::Machine;
use crate::machine::posts::emit_withdrawn;
use crate::summary::Entry;
use arrayvec::ArrayVec;
use board_terms::{Kind, Notice, Notices, Sint, Ticket, Vp, source_number};
use lapic_core::{Lapic, VectorSet};
use message_queues::Queues;
use synic_regs::SynicRegs;

/// Withdraws the messages of a queue that has no more than an event has notices.
#[inline(always)]
fn withdraw_all(queues: &mut Queues, vp: Vp, sint: Sint) -> ArrayVec<Ticket, 320>
    requires there { source_number vp sint < length queues.old }
    requires few { length (queue_of queues.old vp sint) ≤ 320 }
    ensures tickets { result.items ≡ map ticket_of (queue_of queues.old vp sint) }
    ensures rest { queues.new ≡ with_queue queues.old vp sint [] }
    ensures as_many { length queues.new ≡ length queues.old }
{
    queues.withdraw_front(vp, sint)
}

impl Machine {
    /// Resets a processor: withdraws the messages in its slots and queues, and then restores its
    /// initial state.
    #[inline(always)]
    pub(crate) fn reset(&mut self, vp: Vp, notices: &mut Notices) -> Reply
        requires on { vp < processors self.old.state }
        requires buffers { HasBuffers self.old.state }
        requires none { notices.old ≡ [] }
        ensures step { (self.new.state, result, notices.new) ≡ reset self.old.state vp }
        ensures writes_monotone { self.old.writes ≤ self.new.writes }
        ensures bound { self.new.writes ≤ self.old.writes + (7 + length notices.new) }
    {
        self.empty(vp, notices);
        self.clear(vp);
        Reply::Done
    }

    /// Withdraws the messages in the slots and queues of a processor. It is out of line, as `clear`
    /// is, so that other events need no stack space for its tickets.
    #[inline(never)]
    fn empty(&mut self, vp: Vp, notices: &mut Notices)
        requires on { vp < processors self.old.state }
        requires buffers { HasBuffers self.old.state }
        requires none { notices.old ≡ [] }
        ensures { Effected self.old notices.old self.new notices.new (emptied self.old.state vp) }
    {
        for number in 0..16 {
            let sint = Sint::new(number).unwrap();
            self.empty_slot(vp, sint, notices);
            self.empty_queue(vp, sint, notices);
        }
    }

    /// Withdraws the message in the slot of a source, if the slot holds a ticket.
    fn empty_slot(&mut self, vp: Vp, sint: Sint, notices: &mut Notices)
        requires on { vp < processors self.old.state }
        requires room { length notices.old < 320 }
        ensures effect { (self.new.state, notices.new) ≡ preceded notices.old (slot_emptied self.old.state vp sint) }
        ensures writes { self.new.writes ≡ self.old.writes }
    {
        let slot = &mut self.slots[source_number(vp, sint)];
        if let Some(ticket) = *slot {
            *slot = None;
            notices.push(Notice::Withdrawn { ticket, vp, sint });
        }
    }

    /// Withdraws the messages in the queue of a source, front first.
    fn empty_queue(&mut self, vp: Vp, sint: Sint, notices: &mut Notices)
        requires on { vp < processors self.old.state }
        requires room { length notices.old + length (queue_of self.old.state.queues vp sint) ≤ 320 }
        ensures { Effected self.old notices.old self.new notices.new (queue_emptied self.old.state vp sint) }
    {
        if self.queues.count(vp, sint) > 0 {
            self.withdraw_queue(vp, sint, notices);
        }
    }

    /// The same for a queue that has messages. It is out of line, so that an empty queue does not clear
    /// the place for the tickets.
    #[inline(never)]
    fn withdraw_queue(&mut self, vp: Vp, sint: Sint, notices: &mut Notices)
        requires on { vp < processors self.old.state }
        requires some { 0 < length (queue_of self.old.state.queues vp sint) }
        requires room { length notices.old + length (queue_of self.old.state.queues vp sint) ≤ 320 }
        ensures { Effected self.old notices.old self.new notices.new (queue_emptied self.old.state vp sint) }
    {
        let tickets = withdraw_all(&mut self.queues, vp, sint);
        self.summary.write(Entry::Reduced(vp, sint, 0));
        emit_withdrawn(vp, sint, tickets.as_slice(), notices);
    }

    /// Restores the initial state of a processor, except for its slots and queues, which are empty.
    #[inline(never)]
    fn clear(&mut self, vp: Vp)
        requires { vp < processors self.old.state }
        ensures state { self.new.state ≡ cleared self.old.state vp }
        ensures writes_monotone { self.old.writes ≤ self.new.writes }
        ensures bound { self.new.writes ≤ self.old.writes + 7 }
    {
        // The overlays leave their pages before the registers are replaced, so that the space
        // always has the registers' values.
        self.write_overlay(vp, Kind::Sim, 0);
        self.write_overlay(vp, Kind::Sief, 0);
        self.clear_registers(vp);
        self.clear_lapic(vp);
        self.clear_timers(vp);
        self.clear_pages(vp);
    }

    /// Resets the registers of a processor. Its overlays are already disabled, so no page gets
    /// another owner.
    fn clear_registers(&mut self, vp: Vp)
        requires on { vp < processors self.old.state }
        requires sim { (regs_of self.old.state vp).sim ≡ 0 }
        requires sief { (regs_of self.old.state vp).sief ≡ 0 }
        ensures state { self.new.state ≡ with_regs self.old.state vp reset_regs }
        ensures writes { self.new.writes ≡ self.old.writes + 1 }
    {
        self.regs[vp.number() as usize] = SynicRegs::new();
        self.summary.write(Entry::Auto(vp, VectorSet::new()));
    }

    /// Clears the requests and the vectors in service of a processor's local APIC.
    #[tactic(auto, using(crate::proofs::Rules::lists))]
    fn clear_lapic(&mut self, vp: Vp)
        requires { vp < processors self.old.state }
        ensures state { self.new.state ≡ with_apic self.old.state vp empty_apic }
        ensures writes { self.new.writes ≡ self.old.writes + 1 }
    {
        self.lapics[vp.number() as usize] = Lapic::new();
        self.summary.write(Entry::Next(vp, None));
    }

    /// Resets the timers of a processor.
    fn clear_timers(&mut self, vp: Vp)
        requires { vp < processors self.old.state }
        ensures state { self.new.state ≡ with_bank self.old.state (bank_reset (bank_of self.old.state) vp) }
        ensures writes { self.new.writes ≡ self.old.writes + 1 }
    {
        self.timers.reset(vp);
        self.summary.write(Entry::Earliest(self.timers.earliest()));
    }

    /// Sets both own pages of a processor to zero.
    fn clear_pages(&mut self, vp: Vp)
        requires { vp < processors self.old.state }
        ensures state { self.new.state ≡ with_space self.old.state (after_clearing (space_of self.old.state) vp) }
        ensures writes { self.new.writes ≡ self.old.writes }
    {
        self.space.clear_pages(vp);
    }
}
