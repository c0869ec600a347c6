// The values of the registers that store what is written, and their bits.
ghost use Rattle.std.specs.Prelude.{◌≡◌, IsTrue, None, if◌then◌else◌};
ghost use Rattle.synic_regs.specs.Regs.{has, enable, auto_eoi, is_legal, is_silent, vector_of, raised_by_word};

use bitflags::{Flag, Flags, bitflag_items};
use board_terms::Vector;

/// The value of SCONTROL, SIEFP or SIMP.
#[derive(Clone, Copy, PartialEq, Eq, Debug)]
pub struct EnableWord(u64);

bitflag_items! {
    impl EnableWord: u64 {
        const ENABLE = 0x1;
    }
}

impl Flags for EnableWord {
    ghost use Rattle.std.specs.Prelude.{⊤, [], ◌∷◌, codes};

    type Bits = u64;

    ghost exact = { ⊤ };

    ghost table = { (codes "ENABLE", 0x1) ∷ [] };

    ghost set_of = { λ p. p.0 };

    fn flags<'a>() -> &'a [Flag<EnableWord>] {
        EnableWord::FLAGS
    }

    fn bits(&self) -> u64 {
        self.0
    }

    fn from_bits_retain(bits: u64) -> EnableWord {
        EnableWord(bits)
    }
}

impl EnableWord {
    /// The value with these bits.
    pub fn new(bits: u64) -> EnableWord
        ensures { result.0 ≡ bits }
    {
        EnableWord(bits)
    }

    /// Whether its enable bit is set.
    pub fn is_enabled(self) -> bool
        ensures { result ≡ has self.0 enable }
    {
        self.contains(EnableWord::ENABLE)
    }
}

/// The value of a synthetic interrupt source (TLFS, "SINTx Registers").
#[derive(Clone, Copy, PartialEq, Eq, Debug)]
pub struct SintWord(u64);

bitflag_items! {
    impl SintWord: u64 {
        const MASKED = 0x10000;
        const AUTO_EOI = 0x20000;
        const POLLING = 0x40000;
    }
}

impl Flags for SintWord {
    ghost use Rattle.std.specs.Prelude.{⊤, [], ◌∷◌, codes};

    type Bits = u64;

    ghost exact = { ⊤ };

    ghost table = { (codes "MASKED", 0x10000) ∷ (codes "AUTO_EOI", 0x20000) ∷ (codes "POLLING", 0x40000) ∷ [] };

    ghost set_of = { λ p. p.0 };

    fn flags<'a>() -> &'a [Flag<SintWord>] {
        SintWord::FLAGS
    }

    fn bits(&self) -> u64 {
        self.0
    }

    fn from_bits_retain(bits: u64) -> SintWord {
        SintWord(bits)
    }
}

impl SintWord {
    /// The value with these bits.
    pub fn new(bits: u64) -> SintWord
        ensures { result.0 ≡ bits }
    {
        SintWord(bits)
    }

    /// The number in its vector field. Below 16 it is no vector.
    fn vector_number(self) -> u8
        ensures { result ≡ vector_of self.0 }
    {
        (self.0 % 256) as u8
    }

    /// Whether the value is legal: no vector below 16 can be raised, so with such a vector the
    /// source must be masked (profile).
    pub fn is_legal(self) -> bool
        ensures { result ≡ is_legal self.0 }
    {
        self.vector_number() >= 16 || self.contains(SintWord::MASKED)
    }

    /// Whether the source raises nothing: it is masked or polling (profile).
    fn is_silent(self) -> bool
        ensures { result ≡ is_silent self.0 }
    {
        self.contains(SintWord::MASKED) || self.contains(SintWord::POLLING)
    }

    /// The vector that the source raises. Requires a legal value.
    pub fn raised(self) -> Option<Vector>
        requires { IsTrue (is_legal self.0) }
        ensures { result ≡ raised_by_word self.0 }
    {
        if self.is_silent() {
            None
        } else {
            Vector::new(self.vector_number())
        }
    }

    /// The vector that the source makes auto-EOI: the one that it raises, if it has the AutoEOI
    /// bit. Requires a legal value.
    pub fn auto_eoi(self) -> Option<Vector>
        requires { IsTrue (is_legal self.0) }
        ensures { result ≡ (if has self.0 auto_eoi then raised_by_word self.0 else None) }
    {
        if self.contains(SintWord::AUTO_EOI) {
            self.raised()
        } else {
            None
        }
    }
}
