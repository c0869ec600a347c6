// Setting the parts of a machine, for a board that is restored.
ghost use Rattle.std.specs.Prelude.{◌≡◌, ◌↔◌, ◌<◌, ◌≤◌, ◌+◌, IsTrue, Some, length, if◌then◌else◌};
ghost use Rattle.message_queues.specs.Queues.{HasBuffer};
ghost use Rattle.stimer_bank.specs.Timer.{IsSoundTimer};
ghost use Rattle.synic_board.specs.State.{processors, with_slot_ticket};
ghost use Rattle.synic_board.specs.Timers.{at_moment};
ghost use Rattle.synic_board.specs.Restoring.{with_processor, with_saved_timer, with_own_bytes, with_guest_bytes, with_message};

use crate::machine::Machine;
use crate::machine::suspending::mark_timers;
use crate::summary::Entry;
use board_terms::{Kind, Message, Moment, Sint, Ticket, TimerId, Vp, source_number};
use lapic_core::Lapic;

impl Machine {
    /// Sets the present time.
    pub(crate) fn restore_moment(&mut self, moment: Moment)
        ensures { self.new.state ≡ at_moment self.old.state moment }
    {
        self.moment = moment;
    }

    /// Sets the local APIC of a processor, and the suspension of its timers.
    pub(crate) fn restore_lapic(&mut self, vp: Vp, lapic: Lapic)
        requires { vp < processors self.old.state }
        ensures { self.new.state ≡ with_processor self.old.state vp lapic }
    {
        let next = lapic.next();
        mark_timers(&mut self.timers, vp, lapic.is_suspended());
        self.lapics[vp.number() as usize] = lapic;
        self.summary.write(Entry::Next(vp, next));
        self.summary.write(Entry::Earliest(self.timers.earliest()));
    }

    /// Sets a timer, if a timer can be so.
    pub(crate) fn restore_timer(
        &mut self,
        timer: TimerId,
        config: u64,
        count: u64,
        due: Option<u128>,
    ) -> bool
        requires { timer.0 < processors self.old.state }
        ensures valid { IsTrue result ↔ IsSoundTimer (record { config = config; count = count; due = due }) }
        ensures restored { self.new.state
            ≡ (if result then with_saved_timer self.old.state timer
            (record { config = config; count = count; due = due }) else self.old.state) }
    {
        if !self.timers.restore_timer(timer, config, count, due) {
            return false;
        }
        self.summary.write(Entry::Earliest(self.timers.earliest()));
        true
    }

    /// Sets bytes of a message or event flags page.
    pub(crate) fn restore_own(&mut self, vp: Vp, kind: Kind, at: usize, bytes: &[u8])
        requires on { vp < processors self.old.state }
        requires inside { at + length bytes.now ≤ 4096 }
        ensures { self.new.state ≡ with_own_bytes self.old.state vp kind at bytes.now }
    {
        self.space.restore_own(vp, kind, at, bytes);
    }

    /// Sets bytes of a guest page.
    pub(crate) fn restore_guest(&mut self, page: u8, at: usize, bytes: &[u8])
        requires page { page < length self.old.state.pages }
        requires inside { at + length bytes.now ≤ 4096 }
        ensures { self.new.state ≡ with_guest_bytes self.old.state page at bytes.now }
    {
        self.space.restore_guest(page as u64, at, bytes);
    }

    /// Appends a message to its queue.
    pub(crate) fn restore_message(&mut self, vp: Vp, sint: Sint, message: Message)
        requires on { vp < processors self.old.state }
        requires buffer { HasBuffer self.old.state.queues message }
        ensures { self.new.state ≡ with_message self.old.state vp sint message }
    {
        self.queues.append(vp, sint, message);
        let count = self.queues.count(vp, sint);
        self.summary.write(Entry::Appended(vp, sint, count));
    }

    /// Sets the ticket in a slot.
    pub(crate) fn restore_ticket(&mut self, vp: Vp, sint: Sint, ticket: Ticket)
        requires { vp < processors self.old.state }
        ensures { self.new.state ≡ with_slot_ticket self.old.state vp sint (Some ticket) }
    {
        self.slots[source_number(vp, sint)] = Some(ticket);
    }
}
