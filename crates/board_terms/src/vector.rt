// An interrupt vector.
ghost use Rattle.std.specs.Prelude.{◌≡◌, ◌≤◌, ◌↔◌, IsSome, IfSome};

use std::marker::Model;

/// An interrupt vector, 16 to 255 (SDM volume 3, "Valid Interrupt Vectors").
#[derive(Clone, Copy, PartialEq, Eq, PartialOrd, Ord, Debug)]
pub struct Vector {
    number: u8,
}

impl Model for Vector {
    ghost use Rattle.std.specs.Prelude.{ℕ, ◌≤◌};

    ghost Value = { ℕ };

    ghost view = { λ a. a.number };

    ghost invariant = { λ a. 16 ≤ a.number };

    ghost inverse = { λ n. record { number = n } };
}

impl Vector {
    /// The vector with this number; `None` below 16.
    pub fn new(number: u8) -> Option<Vector>
        ensures valid { IsSome result ↔ (16 ≤ number) }
        ensures value { IfSome result (λ v. v ≡ number) }
    {
        if number >= 16 {
            Some(Vector { number })
        } else {
            None
        }
    }

    /// Its number, 16 to 255.
    pub fn number(self) -> u8
        ensures value { result ≡ self }
        ensures above { 16 ≤ result }
    {
        self.number
    }
}
