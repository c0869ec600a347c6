// Short texts written from the end to the front, so that a number needs no count of its digits, and
// a line is formed in one buffer.
ghost use Rattle.std.specs.Prelude.{◌≡◌, ◌+◌, ◌≤◌, ◌<◌, ◌++◌, ◌*◌, decimal, drop, length};
ghost use Rattle.text_base.specs.Numbers.{two_digits, spelled};

use crate::lanes::eight_pairs;
use crate::pairs::{decimal_pair, digits_of};

/// The capacity of the buffer.
pub const FRONT: usize = 48;

/// Writes a text that ends before `at`, and returns where it begins. Requires that it fits.
#[inline(always)]
pub fn text_before<const N: usize>(room: &mut [u8; FRONT], at: usize, text: &[u8; N]) -> usize
    requires place { at ≤ 48 }
    requires fits { N ≤ at }
    ensures begins { result + N ≡ at }
    ensures written { drop result room.new ≡ text.now ++ drop at room.old }
{
    let start = at - N;
    room[start..at].copy_from_slice(text.as_slice());
    start
}

/// Writes a decimal number that ends before `at`, and returns where it begins. Requires 20 bytes
/// before `at`.
#[inline(always)]
pub fn decimal_before(room: &mut [u8; FRONT], at: usize, n: u64) -> usize
    requires place { at ≤ 48 }
    requires fits { 20 ≤ at }
    ensures begins { result < at }
    ensures short { at ≤ result + 20 }
    ensures written { drop result room.new ≡ decimal n ++ drop at room.old }
{
    let mut start = at;
    let mut rest = n;
    while rest >= 100 {
        start = text_before(room, start, &decimal_pair((rest % 100) as usize));
        rest /= 100;
    }
    if rest >= 10 {
        return text_before(room, start, &decimal_pair(rest as usize));
    }
    text_before(room, start, &[b'0' + rest as u8])
}

/// Writes a decimal number below 10 that ends before `at`, and returns where it begins. Requires a byte
/// before `at`.
#[inline(always)]
pub fn digit_before(room: &mut [u8; FRONT], at: usize, n: u8) -> usize
    requires digit { n < 10 }
    requires place { at ≤ 48 }
    requires fits { 1 ≤ at }
    ensures begins { result + 1 ≡ at }
    ensures written { drop result room.new ≡ decimal n ++ drop at room.old }
{
    text_before(room, at, &[b'0' + n])
}

/// Writes a decimal number of one byte that ends before `at`, and returns where it begins. Requires three
/// bytes before `at`.
#[inline(always)]
pub fn small_before(room: &mut [u8; FRONT], at: usize, n: u8) -> usize
    requires place { at ≤ 48 }
    requires fits { 3 ≤ at }
    ensures begins { result < at }
    ensures short { at ≤ result + 3 }
    ensures written { drop result room.new ≡ decimal n ++ drop at room.old }
{
    if n < 10 {
        return digit_before(room, at, n);
    }
    let start = text_before(room, at, &decimal_pair((n % 100) as usize));
    if n < 100 {
        return start;
    }
    text_before(room, start, &[b'0' + n / 100])
}

/// Writes a byte as two hexadecimal digits that end before `at`, and returns where it begins.
/// Requires two bytes before `at`.
#[inline(always)]
pub fn byte_before(room: &mut [u8; FRONT], at: usize, byte: u8) -> usize
    requires place { at ≤ 48 }
    requires fits { 2 ≤ at }
    ensures begins { result + 2 ≡ at }
    ensures written { drop result room.new ≡ two_digits byte ++ drop at room.old }
{
    // Not copied as a slice, which tests whether its places overlap.
    let [high, low] = digits_of(byte);
    room[at - 2] = high;
    room[at - 1] = low;
    at - 2
}

/// Writes bytes as two hexadecimal digits each that end before `at`, and returns where they begin.
/// Requires that they fit.
#[inline(always)]
pub fn bytes_before(room: &mut [u8; FRONT], at: usize, bytes: &[u8]) -> usize
    requires place { at ≤ 48 }
    requires fits { 2 * length bytes.now ≤ at }
    ensures begins { result + 2 * length bytes.now ≡ at }
    ensures written { drop result room.new ≡ spelled bytes.now ++ drop at room.old }
{
    let mut start = at;
    let mut left = bytes.len();
    while left >= 8 {
        left -= 8;
        start = text_before(room, start, &eight_pairs(&bytes[left..]));
    }
    while left > 0 {
        left -= 1;
        start = byte_before(room, start, bytes[left]);
    }
    start
}
