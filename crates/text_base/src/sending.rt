// Writing to a stream.
ghost use Rattle.std.specs.Prelude.{◌≡◌, ℕ, ◌++◌, List, [], IsTrue};
ghost use Rattle.std.specs.Io.KnownBytes.{Appends};

use std::io::Write;

/// Writes all of the bytes; false if a write fails or returns 0, which is not retried. Then a
/// prefix of them was written.
#[inline(always)]
pub fn send<W: Write>(writer: &mut W, bytes: &[u8]) -> bool
    ensures { (sent rest : List ℕ) × Appends (W.contents writer.old) (W.contents writer.new) sent
        × (bytes.now ≡ sent ++ rest) × (IsTrue result → rest ≡ []) }
{
    let mut at = 0;
    while at < bytes.len() {
        match writer.write(&bytes[at..]) {
            Ok(0) => return false,
            Ok(n) => at += n,
            Err(_) => return false,
        }
    }
    true
}
