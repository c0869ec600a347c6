// The last bytes of an output.
ghost use Rattle.std.specs.Prelude.{◌≡◌, ℕ, ◌++◌, List, [], IsTrue};
ghost use Rattle.std.specs.Io.KnownBytes.{Appends};

use std::io::Write;
use text_base::send;

/// Writes the last bytes of a text, and flushes. `false` if a write or the flush failed, or a write
/// returned 0; then a prefix of the bytes was written.
pub fn close<W: Write>(writer: &mut W, bytes: &[u8]) -> bool
    ensures { (sent rest : List ℕ) × Appends (W.contents writer.old) (W.contents writer.new) sent
        × (bytes.now ≡ sent ++ rest) × (IsTrue result → rest ≡ []) }
{
    if !send(writer, bytes) {
        return false;
    }
    writer.flush().is_ok()
}
