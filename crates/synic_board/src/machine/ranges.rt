// What holds for the parts of every machine.
ghost use Rattle.std.specs.Prelude.{◌≡◌, ℕ, slice_index_or, ◌*◌, length};
ghost use Rattle.std.specs.List.{All};
ghost use Rattle.event_ports.specs.Ports.{port_count};
ghost use Rattle.gpa_space.specs.Space.{is_sparse};
ghost use Rattle.stimer_bank.specs.Bank.{idle_timer};
ghost use Rattle.stimer_bank.specs.Timer.{IsSoundTimer};
ghost use Rattle.synic_board.specs.Ranges.{HasRanges};
ghost use Rattle.synic_board.specs.State.{IsWithinLimits, processors, space_of};
ghost use Rattle.lapic_core.specs.Ranges.{IsApic};
ghost use Rattle.synic_regs.specs.Ranges.{AreRegs};

use crate::machine::Machine;
use lapic_core::Lapic;
use synic_regs::SynicRegs;

impl Machine {
    /// What holds for the parts of every machine.
    pub(crate) fn facts(&self)
        ensures timers { length self.now.state.timers ≡ 4 * processors self.now.state }
        ensures ports { length self.now.state.ports
            ≡ port_count (processors self.now.state) (is_sparse (space_of self.now.state)) }
        ensures sound { (n : ℕ) → IsSoundTimer (slice_index_or self.now.state.timers n idle_timer) }
        ensures pages { All (λ page. length page ≡ 4096) self.now.state.pages }
        ensures sizes { IsWithinLimits (processors self.now.state) (length self.now.state.pages) }
        ensures ranges { HasRanges self.now.state }
    {
        let _moment = self.moment;
        let _next_ticket = self.next_ticket;
        lapic_ranges(self.lapics.as_slice());
        register_ranges(self.regs.as_slice());
        self.space.facts();
        self.queues.facts();
        self.timers.facts();
    }
}

/// The numbers of each local APIC are in range.
fn lapic_ranges(lapics: &[Lapic])
    ensures { All IsApic lapics.now }
{
    for lapic in lapics {
        lapic.facts();
    }
}

/// The registers of each processor are in range.
fn register_ranges(regs: &[SynicRegs])
    ensures { All AreRegs regs.now }
{
    for registers in regs {
        registers.facts();
    }
}
