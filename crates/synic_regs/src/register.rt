// The numbers of the synthetic registers.
ghost use Rattle.std.specs.Prelude.{◌≡◌, IfSome};
ghost use Rattle.synic_regs.specs.Registers.{Exists, register_of, timer_register};

use crate::msr;
use board_terms::Sint;

/// A synthetic register of a processor.
#[derive(Clone, Copy, PartialEq, Eq, Debug)]
pub enum Register {
    /// The partition reference counter, in units of 100 ns (TLFS, "Partition Reference Counter").
    ReferenceCounter,
    /// End of interrupt (TLFS, "EOI").
    Eoi,
    /// Task priority (TLFS, "TPR").
    Tpr,
    /// SCONTROL: SynIC control.
    Control,
    /// SVERSION: SynIC version.
    Version,
    /// SIEFP: event flags page.
    Sief,
    /// SIMP: message page.
    Sim,
    /// End of message.
    Eom,
    /// SINT0 to SINT15: a synthetic interrupt source.
    Source(Sint),
    /// STIMER0_CONFIG to STIMER3_CONFIG: the configuration of a timer, by its index 0 to 3.
    TimerConfig(u8),
    /// STIMER0_COUNT to STIMER3_COUNT: the count of a timer, by its index 0 to 3.
    TimerCount(u8),
}

/// The register with a number (TLFS, "Virtual Interrupt Controller" and "Synthetic Timers"); `None`
/// for any other number.
pub fn decode(number: u32) -> Option<Register>
    ensures register { result ≡ register_of number }
    ensures exists { IfSome result Exists }
{
    match number {
        msr::TIME_REF_COUNT => Some(Register::ReferenceCounter),
        msr::EOI => Some(Register::Eoi),
        msr::TPR => Some(Register::Tpr),
        msr::SCONTROL => Some(Register::Control),
        msr::SVERSION => Some(Register::Version),
        msr::SIEFP => Some(Register::Sief),
        msr::SIMP => Some(Register::Sim),
        msr::EOM => Some(Register::Eom),
        msr::SINT0..=msr::SINT15 => {
            Sint::new((number - msr::SINT0) as u8).map(|sint| Register::Source(sint))
        }
        msr::STIMER0_CONFIG..=msr::STIMER3_COUNT => {
            let place = number - msr::STIMER0_CONFIG;
            Some(timer_register(place as u8))
        }
        _ => None,
    }
}

/// The registers of the timers: configuration and count of each, in alternation.
fn timer_register(place: u8) -> Register
    ensures { result ≡ timer_register place }
{
    if place % 2 == 0 {
        Register::TimerConfig(place / 2)
    } else {
        Register::TimerCount(place / 2)
    }
}
