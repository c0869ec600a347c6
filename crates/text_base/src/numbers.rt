// Decimal and hexadecimal numbers.
ghost use Rattle.std.specs.Prelude.{◌≡◌, ◌≢◌, ℕ, ◌+◌, ◌*◌, ◌<◌, ◌≤◌, ◌^◌, ◌++◌, MatchOption, length, get_or, drop, decimal, false, IfSome, IfNone, OnOk};
ghost use Rattle.std.specs.Fmt.{digits, digit_glyph};
ghost use Rattle.text_base.specs.Numbers.{hex, decimal_at, hex_at};
ghost use Rattle.text_base.specs.inside.Parsing.{IsFront};

use crate::sink::Sink;
use itoa::{Buffer, Integer};

/// The number that a decimal text denotes, if it is at most `most`: no leading zero, no sign.
#[inline(never)]
pub fn decimal_of(text: &[u8], most: u64) -> Option<u64>
    ensures found { IfSome result (λ n. (n ≤ most) × (text.now ≡ decimal n)) }
    ensures none { IfNone result ((n : ℕ) → n ≤ most → text.now ≡ decimal n → ⊥) }
    ensures read { result ≡ decimal_at most text.now }
{
    let n = number_of(text, 10)?;
    if n <= most { Some(n) } else { None }
}

/// The number that a hexadecimal text denotes, if it is at most `most`: lower case, no leading
/// zero.
#[inline(never)]
pub fn hex_of(text: &[u8], most: u64) -> Option<u64>
    ensures found { IfSome result (λ n. (n ≤ most) × (text.now ≡ hex n)) }
    ensures none { IfNone result ((n : ℕ) → n ≤ most → text.now ≡ hex n → ⊥) }
    ensures read { result ≡ hex_at most text.now }
{
    let n = number_of(text, 16)?;
    if n <= most { Some(n) } else { None }
}

/// A number at the front of a text, with at most `digits` digits, and its length.
#[inline(always)]
pub(crate) fn short_number(text: &[u8], base: u64, digits: usize) -> Option<(u64, usize)>
    requires low { 10 ≤ base }
    requires high { base ≤ 16 }
    requires bound { base ^ digits ≤ 2 ^ 64 }
    ensures { IfSome result (λ p. IsFront base text.now p.0 p.1) }
{
    let [first, ..] = text else {
        return None;
    };
    if *first != b'0' {
        return positive_front(text, base, digits);
    }
    Some((0, 1))
}

/// The same for a text that does not begin with a zero.
#[inline(always)]
fn positive_front(text: &[u8], base: u64, digits: usize) -> Option<(u64, usize)>
    requires low { 10 ≤ base }
    requires high { base ≤ 16 }
    requires bound { base ^ digits ≤ 2 ^ 64 }
    requires first { get_or text.now 0 0 ≢ 48 }
    ensures { IfSome result (λ p. IsFront base text.now p.0 p.1) }
{
    let most = text.len().min(digits);
    let mut n: u64 = 0;
    let mut count = 0;
    while count < most {
        let Some(digit) = digit_of(text[count]) else {
            break;
        };
        let digit = u64::from(digit);
        if digit >= base {
            break;
        }
        n = n * base + digit;
        count += 1;
    }
    if count == 0 {
        return None;
    }
    Some((n, count))
}

/// The value of a digit of base 16 or less, in lower case.
#[inline(always)]
pub(crate) fn digit_of(c: u8) -> Option<u8>
    ensures { MatchOption result ((d : ℕ) → d < 16 → c ≡ digit_glyph false d → ⊥)
        (λ d. (d < 16) × (c ≡ digit_glyph false d)) }
{
    let digit = c.wrapping_sub(b'0');
    if digit < 10 {
        return Some(digit);
    }
    let letter = c.wrapping_sub(b'a');
    if letter < 6 {
        return Some(letter + 10);
    }
    None
}

/// The digit of a value below 16.
#[inline(always)]
pub(crate) fn glyph_of(digit: u8) -> u8
    requires { digit < 16 }
    ensures { result ≡ digit_glyph false digit }
{
    let glyphs = b"0123456789abcdef";
    glyphs[digit as usize]
}

/// The number below 2^64 that a text denotes.
fn number_of(text: &[u8], base: u64) -> Option<u64>
    requires low { 10 ≤ base }
    requires high { base ≤ 16 }
    ensures found { IfSome result (λ n. (n < 2 ^ 64) × (text.now ≡ digits base false n)) }
    ensures none { IfNone result ((n : ℕ) → n < 2 ^ 64 → text.now ≡ digits base false n → ⊥) }
{
    let [first, ..] = text else {
        return None;
    };
    if *first != b'0' {
        return positive_of(text, base);
    }
    if text.len() == 1 { Some(0) } else { None }
}

/// The same for a text that does not begin with a zero.
fn positive_of(text: &[u8], base: u64) -> Option<u64>
    requires low { 10 ≤ base }
    requires high { base ≤ 16 }
    requires some { 0 < length text.now }
    requires first { get_or text.now 0 0 ≢ 48 }
    ensures found { IfSome result (λ n. (n < 2 ^ 64) × (text.now ≡ digits base false n)) }
    ensures none { IfNone result ((n : ℕ) → n < 2 ^ 64 → text.now ≡ digits base false n → ⊥) }
{
    let mut n: u64 = 0;
    for c in text {
        let Some(digit) = digit_of(*c) else {
            return None;
        };
        let digit = u64::from(digit);
        if digit >= base {
            return None;
        }
        let Some(tens) = n.checked_mul(base) else {
            return None;
        };
        let Some(sum) = tens.checked_add(digit) else {
            return None;
        };
        n = sum;
    }
    Some(n)
}

/// Appends a number to `out` in decimal, with its sign if it is negative. An error is an allocation
/// failure.
pub fn put_decimal<S: Sink, I: Integer>(out: &mut S, n: I) -> Result<(), S::Error>
    ensures { OnOk result (S.text out.new ≡ S.text out.old ++ I.text n) }
{
    let mut buffer = Buffer::new();
    out.put(buffer.format(n).as_bytes())
}

/// Appends a number to `out` in hexadecimal. An error is an allocation failure.
pub fn put_hex<S: Sink>(out: &mut S, n: u64) -> Result<(), S::Error>
    ensures { OnOk result (S.text out.new ≡ S.text out.old ++ hex n) }
{
    let mut text = [0u8; 16];
    let start = write_hex(n, &mut text);
    out.put(&text[start..])
}

/// Writes the number in hexadecimal at the end of `out`, and returns where it begins.
fn write_hex(n: u64, out: &mut [u8; 16]) -> usize
    ensures bound { result ≤ 16 }
    ensures value { drop result out.new ≡ hex n }
{
    let mut i = 16;
    let mut rest = n;
    while i > 0 {
        i -= 1;
        out[i] = glyph_of((rest % 16) as u8);
        rest /= 16;
        if rest == 0 {
            break;
        }
    }
    i
}
