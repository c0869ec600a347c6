// Suspending and resuming processors.
ghost use Rattle.std.specs.Prelude.{◌≡◌, ◌<◌, ◌≤◌, ◌+◌, []};
ghost use Rattle.lapic_core.specs.Apic.{with_suspension as apic_with_suspension};
ghost use Rattle.stimer_bank.specs.Bank.{with_suspension as bank_with_suspension};
ghost use Rattle.synic_board.specs.State.{processors};
ghost use Rattle.synic_board.specs.Suspending.{is_suspended, with_suspension, suspended, resumed};

use crate::event::Reply;
use crate::machine::Machine;
use crate::summary::Entry;
use board_terms::{Refusal, Vp};
use lapic_core::Lapic;
use stimer_bank::TimerBank;

impl Machine {
    /// Suspends a processor: its local APIC has no next vector, and its timers are not tried.
    #[inline(always)]
    pub(crate) fn suspend(&mut self, vp: Vp) -> Reply
        requires { vp < processors self.old.state }
        ensures step { (self.new.state, result, []) ≡ suspended self.old.state vp }
        ensures writes_monotone { self.old.writes ≤ self.new.writes }
        ensures bound { self.new.writes ≤ self.old.writes + 2 }
    {
        if self.is_suspended(vp) {
            return Reply::Refused(Refusal::AlreadySuspended);
        }
        self.set_suspended(vp, true);
        Reply::Done
    }

    /// Resumes a suspended processor. This tries no timer.
    #[inline(always)]
    pub(crate) fn resume(&mut self, vp: Vp) -> Reply
        requires { vp < processors self.old.state }
        ensures step { (self.new.state, result, []) ≡ resumed self.old.state vp }
        ensures writes_monotone { self.old.writes ≤ self.new.writes }
        ensures bound { self.new.writes ≤ self.old.writes + 2 }
    {
        if !self.is_suspended(vp) {
            return Reply::Refused(Refusal::NotSuspended);
        }
        self.set_suspended(vp, false);
        Reply::Done
    }

    /// Whether a processor is suspended.
    fn is_suspended(&self, vp: Vp) -> bool
        requires { vp < processors self.now.state }
        ensures { result ≡ is_suspended self.now.state vp }
    {
        self.lapics[vp.number() as usize].is_suspended()
    }

    /// Sets or clears the suspension of a processor.
    #[inline(never)]
    fn set_suspended(&mut self, vp: Vp, suspended: bool)
        requires { vp < processors self.old.state }
        ensures state { self.new.state ≡ with_suspension self.old.state vp suspended }
        ensures writes { self.new.writes ≡ self.old.writes + 2 }
    {
        let lapic = &mut self.lapics[vp.number() as usize];
        mark_lapic(lapic, suspended);
        let next = lapic.next();
        mark_timers(&mut self.timers, vp, suspended);
        self.summary.write(Entry::Next(vp, next));
        self.summary.write(Entry::Earliest(self.timers.earliest()));
    }
}

fn mark_lapic(lapic: &mut Lapic, suspended: bool)
    ensures { lapic.new ≡ apic_with_suspension lapic.old suspended }
{
    if suspended {
        lapic.suspend();
    } else {
        lapic.resume();
    }
}

pub(crate) fn mark_timers(timers: &mut TimerBank, vp: Vp, suspended: bool)
    ensures { timers.new ≡ bank_with_suspension timers.old vp suspended }
{
    if suspended {
        timers.suspend(vp);
    } else {
        timers.resume(vp);
    }
}
