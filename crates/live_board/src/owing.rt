// The EOMs that processors are owed, as the bits of a word.
ghost use Rattle.std.specs.Prelude.{◌≡◌, ◌≢◌, ℕ, ◌<◌, false};
ghost use Rattle.live_board.specs.Live.{has_processor};

use board_terms::Vp;

/// Some processors, and one more if it is owed an EOM. Requires that it is not among them.
pub(crate) fn with_owed(owed: u64, vp: Vp, is_owed: bool) -> u64
    requires { has_processor owed vp ≡ false }
    ensures here { has_processor result vp ≡ is_owed }
    ensures others { (p : ℕ) → p ≢ vp → has_processor result p ≡ has_processor owed p }
{
    if is_owed {
        owed | 1 << vp.number()
    } else {
        owed
    }
}

/// Whether a processor, 0 to 63, is among some.
pub(crate) fn has_processor(owed: u64, number: u8) -> bool
    requires { number < 64 }
    ensures { result ≡ has_processor owed number }
{
    owed >> number & 1 == 1
}
