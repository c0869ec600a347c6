// Processors, sources and timers by their numbers.
ghost use Rattle.std.specs.Prelude.{◌≡◌, ◌<◌};

use board_terms::{Sint, TimerId, Vp};

/// The processor with that number.
#[inline(always)]
pub(crate) fn vp_of(number: u8) -> Vp
    requires { number < 64 }
    ensures { result ≡ number }
{
    match Vp::new(number) {
        Some(vp) => vp,
        None => unreachable!(),
    }
}

/// The source with that number.
#[inline(always)]
pub(crate) fn sint_of(number: u8) -> Sint
    requires { number < 16 }
    ensures { result ≡ number }
{
    match Sint::new(number) {
        Some(sint) => sint,
        None => unreachable!(),
    }
}

/// The timer of a processor with that index.
#[inline(always)]
pub(crate) fn timer_of(vp: Vp, index: u8) -> TimerId
    requires { index < 4 }
    ensures { result ≡ (vp, index) }
{
    match TimerId::new(vp, index) {
        Some(timer) => timer,
        None => unreachable!(),
    }
}
