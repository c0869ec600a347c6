// A synthetic interrupt source.
ghost use Rattle.std.specs.Prelude.{◌≡◌, ◌<◌, ◌↔◌, IsSome, IfSome};
ghost use Rattle.board_terms.specs.Sources.{source_number};

use crate::vp::Vp;
use std::marker::Model;

/// A synthetic interrupt source, SINT0 to SINT15 (TLFS, "Synthetic Interrupt Sources").
#[derive(Clone, Copy, PartialEq, Eq, PartialOrd, Ord, Debug)]
pub struct Sint {
    number: u8,
}

impl Model for Sint {
    ghost use Rattle.std.specs.Prelude.{ℕ, ◌<◌};

    ghost Value = { ℕ };

    ghost view = { λ a. a.number };

    ghost invariant = { λ a. a.number < 16 };

    ghost inverse = { λ n. record { number = n } };
}

impl Sint {
    /// The source with this number; `None` above 15.
    pub fn new(number: u8) -> Option<Sint>
        ensures valid { IsSome result ↔ (number < 16) }
        ensures value { IfSome result (λ s. s ≡ number) }
    {
        if number < 16 {
            Some(Sint { number })
        } else {
            None
        }
    }

    /// Its number, 0 to 15.
    pub fn number(self) -> u8
        ensures value { result ≡ self }
        ensures range { result < 16 }
    {
        self.number
    }
}

/// The number of a source among those of all processors, 0 to 1023: 16 * processor + source.
#[inline]
pub fn source_number(vp: Vp, sint: Sint) -> usize
    ensures value { result ≡ source_number vp sint }
    ensures range { result < 1024 }
{
    16 * vp.number() as usize + sint.number() as usize
}
