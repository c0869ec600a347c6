// What printers append to.
ghost use Rattle.std.specs.Prelude.{◌≡◌, ◌++◌, List, ℕ, OnOk};

use std::alloc::AllocError;

/// A text that grows at its end.
pub trait Sink {
    /// The text so far.
    ghost text: { Self → List ℕ };

    /// Why bytes could not be appended.
    type Error;

    /// Appends bytes.
    fn put(&mut self, bytes: &[u8]) -> Result<(), Self::Error>
        ensures appended { OnOk result (text self.new ≡ text self.old ++ bytes.now) };
}

impl Sink for Vec<u8> {
    ghost text = { λ v. v.items };

    type Error = AllocError;

    #[inline(always)]
    fn put(&mut self, bytes: &[u8]) -> Result<(), AllocError> {
        self.extend_from_slice(bytes)
    }
}
