//! A ghost counter: a number that exists only in contracts.
#![tactic(auto)]

ghost use Rattle.std.specs.Prelude.{◌≡◌, ◌+◌, ℕ};
ghost use base.Fml.{ftrue};

use std::marker::{Model, PhantomData};

/// A ghost number. It takes no bytes.
pub struct Count {
    marker: PhantomData<()>,
    pub ghost number: { ℕ },
}

impl Model for Count {
    ghost also_owns = { λ _. ftrue };
}

impl Count {
    pub fn zero() -> Count
        ensures { result.number ≡ 0 }
    {
        Count {
            marker: PhantomData,
        }
    }

    /// The successor of a count.
    pub fn after(previous: &Count) -> Count
        ensures { result.number ≡ previous.now.number + 1 }
    {
        let _ = previous;
        Count {
            marker: PhantomData,
        }
    }
}

impl Drop for Count {
    fn drop(self) {
        let Self { marker: _ } = self;
    }
}

// A count has no bytes, and its ghost value does not depend on the thread. So a type that contains
// one can be `Send`.
unsafe impl Send for Count {}
