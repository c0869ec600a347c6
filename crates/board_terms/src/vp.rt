// A virtual processor.
ghost use Rattle.std.specs.Prelude.{◌≡◌, ◌<◌, ◌↔◌, IsSome, IfSome};

use std::marker::Model;

/// A virtual processor, 0 to 63.
#[derive(Clone, Copy, PartialEq, Eq, PartialOrd, Ord, Debug, Default)]
pub struct Vp {
    number: u8,
}

impl Model for Vp {
    ghost use Rattle.std.specs.Prelude.{ℕ, ◌<◌};

    ghost Value = { ℕ };

    ghost view = { λ a. a.number };

    ghost invariant = { λ a. a.number < 64 };

    ghost inverse = { λ n. record { number = n } };
}

impl Vp {
    /// The processor with this number; `None` above 63.
    pub fn new(number: u8) -> Option<Vp>
        ensures valid { IsSome result ↔ (number < 64) }
        ensures value { IfSome result (λ v. v ≡ number) }
    {
        if number < 64 {
            Some(Vp { number })
        } else {
            None
        }
    }

    /// The processor of a number that is in range.
    #[inline]
    pub(crate) fn known(number: u8) -> Vp
        requires { number < 64 }
        ensures { result ≡ number }
    {
        Vp { number }
    }

    /// Its number, 0 to 63.
    pub fn number(self) -> u8
        ensures value { result ≡ self }
        ensures range { result < 64 }
    {
        self.number
    }
}
