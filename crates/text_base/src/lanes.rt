// Bytes of a text as the lanes of a vector: sixteen at once.
ghost use Rattle.std.specs.Prelude.{◌≡◌, ◌≢◌, ◌+◌, ◌≤◌, ◌<◌, ℕ, length, take, get_or, map, IfSome};
ghost use Rattle.std.specs.Simd.Lanes.{Each1};
ghost use Rattle.text_base.specs.Numbers.{spelled, IsByte, AreBytes};
ghost use Rattle.text_base.specs.inside.Parsing.{IsFront};
ghost use Rattle.text_base.specs.inside.Lanes.{lane_value};

use std::simd::prelude::*;

/// How many of the sixteen bytes from `at` come before the first line feed; all sixteen if there is none.
#[inline(always)]
pub(crate) fn before_feed(text: &[u8], at: usize) -> usize
    requires { at + 16 ≤ length text.now }
    ensures bound { result ≤ 16 }
    ensures before { (k : ℕ) → at ≤ k → k < at + result → get_or text.now k 0 ≢ 10 }
    ensures feed { result < 16 → get_or text.now (at + result) 0 ≡ 10 }
{
    let feeds = u8x16::from_slice(&text[at..])
        .simd_eq(u8x16::splat(b'\n'))
        .to_bitmask();
    if feeds == 0 {
        16
    } else {
        feeds.trailing_zeros() as usize
    }
}

/// The value of each hexadecimal digit, and 255 for another byte.
#[inline(always)]
fn values_of(text: u8x16) -> u8x16
    ensures { result ≡ map lane_value text }
{
    let digits = text - u8x16::splat(b'0');
    let letters = text - u8x16::splat(b'a');
    let others = letters
        .simd_lt(u8x16::splat(6))
        .select(letters + u8x16::splat(10), u8x16::splat(255));
    digits.simd_lt(u8x16::splat(10)).select(digits, others)
}

/// The eight bytes that sixteen bytes spell, if all of these are digits.
#[inline(always)]
fn spelled_by(text: u8x16) -> Option<[u8; 8]>
    requires { Each1 IsByte text }
    ensures { IfSome result (λ bytes. (text ≡ spelled bytes) × (length bytes ≡ 8) × AreBytes bytes) }
{
    let values = values_of(text);
    if values.simd_eq(u8x16::splat(255)).to_bitmask() != 0 {
        return None;
    }
    let high: u8x8 = values.swizzle([0, 2, 4, 6, 8, 10, 12, 14]);
    let low: u8x8 = values.swizzle([1, 3, 5, 7, 9, 11, 13, 15]);
    Some((high * u8x8::splat(16) + low).to_array())
}

/// The eight bytes that the first sixteen bytes of a text spell, if all of these are digits.
#[inline(always)]
pub(crate) fn eight_of(text: &[u8]) -> Option<[u8; 8]>
    requires { 16 ≤ length text.now }
    ensures { IfSome result (λ bytes. (take 16 text.now ≡ spelled bytes) × (length bytes ≡ 8) × AreBytes bytes) }
{
    spelled_by(u8x16::from_slice(text))
}

/// The number that the first eight bytes of a text denote, if all of these are digits and the first is not
/// zero. Eight zeros are put before them.
#[inline(always)]
pub(crate) fn number_of_eight(text: &[u8]) -> Option<u64>
    requires { 8 ≤ length text.now }
    ensures { IfSome result (λ n. IsFront 16 text.now n 8) }
{
    if text[0] == b'0' {
        return None;
    }
    let digits = u8x8::from_slice(text);
    let padded: u8x16 = u8x8::splat(b'0').shuffle(
        digits,
        [0, 1, 2, 3, 4, 5, 6, 7, 8, 9, 10, 11, 12, 13, 14, 15],
    );
    let bytes = spelled_by(padded)?;
    let word = u32::from_be_bytes([bytes[4], bytes[5], bytes[6], bytes[7]]);
    Some(u64::from(word))
}

/// The two digits of each of the first eight bytes.
#[inline(always)]
pub(crate) fn eight_pairs(bytes: &[u8]) -> [u8; 16]
    requires { 8 ≤ length bytes.now }
    ensures { result ≡ spelled (take 8 bytes.now) }
{
    let bytes = u8x8::from_slice(bytes);
    let high = bytes >> u8x8::splat(4);
    let low = (bytes << u8x8::splat(4)) >> u8x8::splat(4);
    let values: u8x16 = high.shuffle(low, [0, 8, 1, 9, 2, 10, 3, 11, 4, 12, 5, 13, 6, 14, 7, 15]);
    values
        .simd_lt(u8x16::splat(10))
        .select(
            values + u8x16::splat(b'0'),
            values + u8x16::splat(b'a' - 10),
        )
        .to_array()
}
