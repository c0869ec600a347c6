// A synthetic timer.
ghost use Rattle.std.specs.Prelude.{◌≡◌, ◌<◌, ◌↔◌, IsSome, IfSome};
ghost use Rattle.board_terms.specs.Dues.{number_of, timer_of};

use crate::vp::Vp;
use std::marker::Model;

/// A synthetic timer: a processor and an index, STIMER0 to STIMER3 (TLFS, "Synthetic Timers").
#[derive(Clone, Copy, PartialEq, Eq, PartialOrd, Ord, Debug, Default)]
pub struct TimerId {
    number: u8,
}

impl Model for TimerId {
    ghost use Rattle.std.specs.Prelude.{ℕ, ◌<◌, ◌+◌, ◌*◌, ◌/◌};
    ghost use Rattle.board_terms.specs.Dues.{number_of, timer_of};

    ghost Value = { ℕ × ℕ };

    ghost view = { λ a. timer_of a.number };

    ghost invariant = { λ a. a.number < 256 };

    // of a pair that is no timer, it is a number out of range
    ghost inverse = { λ t. record { number = number_of t + 256 * (t.1 / 4) } };
}

impl TimerId {
    /// The timer with this index on a processor; `None` above 3.
    pub fn new(vp: Vp, index: u8) -> Option<TimerId>
        ensures valid { IsSome result ↔ (index < 4) }
        ensures value { IfSome result (λ t. t ≡ (vp, index)) }
    {
        if index < 4 {
            Some(TimerId {
                number: 4 * vp.number() + index,
            })
        } else {
            None
        }
    }

    /// The timer with this number, 4 * processor + index. Each number up to 255 has one.
    pub fn from_number(number: u8) -> Option<TimerId>
        ensures valid { IsSome result ↔ (number < 256) }
        ensures value { IfSome result (λ t. t ≡ timer_of number) }
    {
        Some(TimerId { number })
    }

    /// Its processor.
    pub fn vp(self) -> Vp
        ensures { result ≡ self.0 }
    {
        Vp::known(self.number / 4)
    }

    /// Its index, 0 to 3.
    pub fn index(self) -> u8
        ensures value { result ≡ self.1 }
        ensures range { result < 4 }
    {
        self.number % 4
    }

    /// Its number among all timers, 0 to 255: 4 * processor + index.
    pub fn number(self) -> u8
        ensures value { result ≡ number_of self }
        ensures range { result < 256 }
    {
        self.number
    }
}
