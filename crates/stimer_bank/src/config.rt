// The value of STIMERn_CONFIG.
ghost use Rattle.std.specs.Prelude.{◌≡◌, ◌↔◌, ◌<◌, IsTrue, bit_and};
ghost use Rattle.stimer_bank.specs.Timer.{is_enabled, is_periodic, is_lazy, enables_itself, is_direct, vector_of, sint_of, has_no_target, disabled, enabled, normalized, written_count, IsStored};

use bitflags::{Flag, Flags, bitflag_items};

/// The bits of a configuration that are stored: a write drops all others (profile).
const KEPT: u64 = 0xf1fff;

/// The vector of direct mode is in bits 4 to 11.
const VECTOR: u32 = 4;

/// The source of message mode is in bits 16 to 19.
const SINTX: u32 = 16;

/// The value of STIMERn_CONFIG (TLFS, "STIMERx_CONFIG Register").
#[derive(Clone, Copy, PartialEq, Eq, Debug)]
pub struct ConfigWord(u64);

bitflag_items! {
    impl ConfigWord: u64 {
        const ENABLED = 0x1;
        const PERIODIC = 0x2;
        const LAZY = 0x4;
        const AUTO_ENABLE = 0x8;
        const DIRECT = 0x1000;
    }
}

impl Flags for ConfigWord {
    ghost use Rattle.std.specs.Prelude.{⊤, [], ◌∷◌, codes};

    type Bits = u64;

    ghost exact = { ⊤ };

    ghost table = { (codes "ENABLED", 0x1) ∷ (codes "PERIODIC", 0x2) ∷ (codes "LAZY", 0x4)
        ∷ (codes "AUTO_ENABLE", 0x8) ∷ (codes "DIRECT", 0x1000) ∷ [] };

    ghost set_of = { λ p. p.0 };

    fn flags<'a>() -> &'a [Flag<ConfigWord>] {
        ConfigWord::FLAGS
    }

    fn bits(&self) -> u64 {
        self.0
    }

    fn from_bits_retain(bits: u64) -> ConfigWord {
        ConfigWord(bits)
    }
}

impl ConfigWord {
    /// The value with these bits.
    pub fn new(bits: u64) -> ConfigWord
        ensures { result.0 ≡ bits }
    {
        ConfigWord(bits)
    }

    /// What is stored of a written value.
    pub fn stored(value: u64) -> ConfigWord
        ensures value { result.0 ≡ bit_and value 0xf1fff }
        ensures stored { IsStored result.0 }
    {
        ConfigWord(value & KEPT)
    }

    /// Whether all its bits are stored.
    pub fn is_stored(self) -> bool
        ensures { IsTrue result ↔ IsStored self.0 }
    {
        self.0 & KEPT == self.0
    }

    /// Whether the timer is enabled.
    pub fn is_enabled(self) -> bool
        ensures { result ≡ is_enabled self.0 }
    {
        self.contains(ConfigWord::ENABLED)
    }

    /// Whether the timer is periodic.
    pub fn is_periodic(self) -> bool
        ensures { result ≡ is_periodic self.0 }
    {
        self.contains(ConfigWord::PERIODIC)
    }

    /// Whether the timer is lazy: it makes up no missed period.
    pub fn is_lazy(self) -> bool
        ensures { result ≡ is_lazy self.0 }
    {
        self.contains(ConfigWord::LAZY)
    }

    /// Whether AutoEnable is set: writing a count enables the timer.
    pub fn enables_itself(self) -> bool
        ensures { result ≡ enables_itself self.0 }
    {
        self.contains(ConfigWord::AUTO_ENABLE)
    }

    /// Whether the timer is in direct mode: it requests a vector and sends no message (TLFS,
    /// "Direct Synthetic Timers").
    pub fn is_direct(self) -> bool
        ensures { result ≡ is_direct self.0 }
    {
        self.contains(ConfigWord::DIRECT)
    }

    /// The number in its vector field. Below 16 it is no vector.
    pub fn vector_number(self) -> u8
        ensures { result ≡ vector_of self.0 }
    {
        ((self.0 >> VECTOR) % 256) as u8
    }

    /// The number of its source.
    pub fn sint_number(self) -> u8
        ensures value { result ≡ sint_of self.0 }
        ensures range { result < 16 }
    {
        ((self.0 >> SINTX) % 16) as u8
    }

    /// Whether the timer cannot signal.
    fn has_no_target(self) -> bool
        ensures { result ≡ has_no_target self.0 }
    {
        if self.is_direct() {
            self.vector_number() < 16
        } else {
            self.sint_number() == 0
        }
    }

    /// The same configuration, not enabled.
    pub fn disabled(self) -> ConfigWord
        ensures value { result.0 ≡ disabled self.0 }
        ensures stored { IsStored self.0 → IsStored result.0 }
    {
        ConfigWord(self.0 - self.0 % 2)
    }

    /// The same configuration, enabled.
    fn enabled(self) -> ConfigWord
        ensures value { result.0 ≡ enabled self.0 }
        ensures stored { IsStored self.0 → IsStored result.0 }
    {
        ConfigWord(self.disabled().0 + 1)
    }

    /// The same configuration, disabled if the timer cannot signal.
    pub fn normalized(self) -> ConfigWord
        ensures value { result.0 ≡ normalized self.0 }
        ensures stored { IsStored self.0 → IsStored result.0 }
    {
        if self.has_no_target() {
            self.disabled()
        } else {
            self
        }
    }

    /// The configuration after a write of the count.
    pub fn after_count(self, count: u64) -> ConfigWord
        ensures value { result.0 ≡ written_count self.0 count }
        ensures stored { IsStored self.0 → IsStored result.0 }
    {
        if count == 0 {
            self.disabled()
        } else if self.enables_itself() {
            self.enabled().normalized()
        } else {
            self
        }
    }
}
