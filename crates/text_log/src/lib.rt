//! A ghost text: bytes that exist only in contracts.
#![tactic(auto)]

ghost use Rattle.std.specs.Prelude.{◌≡◌, ◌++◌, ◌∷◌, ℕ, List, []};
ghost use base.Fml.{ftrue};

use arrayvec::ArrayVec;
use std::marker::{Model, PhantomData};

/// A ghost text. It takes no bytes.
pub struct Log {
    marker: PhantomData<()>,
    pub ghost bytes: { List ℕ },
}

impl Model for Log {
    ghost also_owns = { λ _. ftrue };
}

/// A ghost text, and the bytes that join it next.
#[derive(Drop)]
pub struct Chunk {
    pub before: Log,
    pub bytes: ArrayVec<u8, 1024>,
}

/// Values that exist only in contracts.
#[derive(Drop)]
pub struct Seen<T> {
    of: PhantomData<T>,
    pub ghost values: { List T },
}

impl<T> Model for Seen<T> {
    ghost also_owns = { λ _. ftrue };
}

impl<T> Seen<T> {
    /// The present value.
    pub fn now(value: &T) -> Seen<T>
        ensures { result.values ≡ value.now ∷ [] }
    {
        Seen { of: PhantomData }
    }
}

impl Log {
    pub fn new() -> Log
        ensures { result.bytes ≡ [] }
    {
        Log {
            marker: PhantomData,
        }
    }

    /// The text with the bytes of a chunk.
    pub fn after(chunk: &Chunk) -> Log
        ensures { result.bytes ≡ chunk.now.before.bytes ++ chunk.now.bytes.items }
    {
        let _ = chunk;
        Log {
            marker: PhantomData,
        }
    }
}

impl Drop for Log {
    fn drop(self) {
        let Self { marker: _ } = self;
    }
}

// A log has no bytes, and its ghost value does not depend on the thread. So a type that contains
// one can be `Send`.
unsafe impl Send for Log {}
