// The value of an overlay's register.
ghost use Rattle.std.specs.Prelude.{◌≡◌};
ghost use Rattle.gpa_space.specs.Space.{is_enabled, page_of};

use bitflags::{Flag, Flags, bitflag_items};

/// The page number is in bits 12 to 63.
const PAGE: u32 = 12;

/// The value of SIMP or SIEFP (TLFS, "SIMP Register" and "SIEFP Register").
#[derive(Clone, Copy, PartialEq, Eq, Debug)]
pub(crate) struct OverlayWord(u64);

bitflag_items! {
    impl OverlayWord: u64 {
        const ENABLED = 0x1;
    }
}

impl Flags for OverlayWord {
    ghost use Rattle.std.specs.Prelude.{⊤, [], ◌∷◌, codes};

    type Bits = u64;

    ghost exact = { ⊤ };

    ghost table = { (codes "ENABLED", 0x1) ∷ [] };

    ghost set_of = { λ p. p.0 };

    fn flags<'a>() -> &'a [Flag<OverlayWord>] {
        OverlayWord::FLAGS
    }

    fn bits(&self) -> u64 {
        self.0
    }

    fn from_bits_retain(bits: u64) -> OverlayWord {
        OverlayWord(bits)
    }
}

impl OverlayWord {
    /// The value with these bits.
    pub(crate) fn new(bits: u64) -> OverlayWord
        ensures { result.0 ≡ bits }
    {
        OverlayWord(bits)
    }

    /// Whether the overlay is enabled.
    pub(crate) fn is_enabled(self) -> bool
        ensures { result ≡ is_enabled self.0 }
    {
        self.contains(OverlayWord::ENABLED)
    }

    /// The page number at which it is mapped if it is enabled.
    pub(crate) fn page(self) -> u64
        ensures { result ≡ page_of self.0 }
    {
        self.0 >> PAGE
    }
}
