// Bytes as two hexadecimal digits each.
ghost use Rattle.std.specs.Prelude.{◌≡◌, ℕ, List, [], ◌<◌, ◌≤◌, ◌++◌, length, Some, IfSome, IfNone, OnOk};
ghost use Rattle.text_base.specs.Numbers.{spelled, two_digits, byte_at, AreBytes};
ghost use Rattle.text_base.specs.inside.Parsing.{IsBytesFront, IsBytesField};

use crate::lanes::eight_of;
use crate::numbers::digit_of;
use crate::pairs::digits_of;
use crate::sink::Sink;
use arrayvec::ArrayVec;

/// The byte that two digits denote.
#[inline(always)]
pub fn byte_of(text: &[u8]) -> Option<u8>
    ensures found { IfSome result (λ b. text.now ≡ two_digits b) }
    ensures none { IfNone result ((b : ℕ) → b < 256 → text.now ≡ two_digits b → ⊥) }
    ensures read { result ≡ byte_at text.now }
{
    let [high, low] = text else {
        return None;
    };
    let high = digit_of(*high)?;
    let low = digit_of(*low)?;
    Some(high * 16 + low)
}

/// Decodes two digits for each byte from the front of a text into `out`, as long as there are two, and
/// returns where they end. `None` if a digit is followed by a byte that is none, or if the bytes do not fit
/// into `out`; then `out` holds some of them.
#[inline(always)]
pub(crate) fn bytes_front<const N: usize>(text: &[u8], out: &mut ArrayVec<u8, N>) -> Option<usize>
    ensures front { IfSome result (λ count. IsBytesFront text.now out.new.items count) }
    ensures field { (bytes : List ℕ) (count : ℕ) → length bytes ≤ N → IsBytesField text.now bytes count
        → result ≡ Some count }
{
    out.clear();
    let mut rest = eights_front(text, out);
    while let [high, low, tail @ ..] = rest {
        let Some(high) = digit_of(*high) else {
            break;
        };
        let Some(low) = digit_of(*low) else {
            return None;
        };
        if out.is_full() {
            return None;
        }
        out.push(high * 16 + low);
        rest = tail;
    }
    Some(text.len() - rest.len())
}

/// Decodes sixteen digits at a time from the front of a text into the empty `out`, as long as there are
/// sixteen and the bytes fit. Returns the rest of the text.
#[inline(always)]
fn eights_front<'a, const N: usize>(text: &'a [u8], out: &mut ArrayVec<u8, N>) -> &'a [u8]
    requires empty { out.old.items ≡ [] }
    ensures split { text.now ≡ spelled out.new.items ++ result.now }
    ensures bytes { AreBytes out.new.items }
{
    let mut rest = text;
    while rest.len() >= 16 {
        let Some(bytes) = eight_of(rest) else {
            break;
        };
        let Ok(()) = out.try_extend_from_slice(&bytes) else {
            break;
        };
        rest = &rest[16..];
    }
    rest
}

/// Appends a byte to `out` as two digits. An error is an allocation failure.
#[inline(always)]
pub fn put_byte<S: Sink>(out: &mut S, byte: u8) -> Result<(), S::Error>
    ensures { OnOk result (S.text out.new ≡ S.text out.old ++ two_digits byte) }
{
    out.put(&digits_of(byte))
}

/// Appends bytes to `out`, two digits each. An error is an allocation failure.
pub fn put_bytes<S: Sink>(out: &mut S, bytes: &[u8]) -> Result<(), S::Error>
    ensures { OnOk result (S.text out.new ≡ S.text out.old ++ spelled bytes.now) }
{
    for byte in bytes {
        put_byte(out, *byte)?;
    }
    Ok(())
}
