// The fields of a line, one at a time.
ghost use Rattle.std.specs.Prelude.{◌≡◌, ◌≢◌, ◌↔◌, ◌<◌, ◌≤◌, ◌^◌, ℕ, List, [], ◌∷◌, take, length, get_or, Option, MatchOption, IsTrue, IfSome, IfNone};
ghost use Rattle.std.specs.Str.{bytes_eq};
ghost use Rattle.std.specs.Int.{to_le_bytes, w32};
ghost use Rattle.text_base.specs.Fields.{fields_of, TakesField, ReadsField};
ghost use Rattle.text_base.specs.inside.Parsing.{HasNoSpace, IsFieldEnd, ReadsShort};
ghost use Rattle.text_base.specs.Numbers.{decimal_at, hex_at, byte_at, spelled, AreBytes};

use crate::bytes::{byte_of, bytes_front};
use crate::lanes::number_of_eight;
use crate::numbers::{decimal_of, hex_of, short_number};
use arrayvec::ArrayVec;
use std::marker::Model;

/// Whether a field is that word.
#[inline(always)]
pub fn is_word<const N: usize>(field: &[u8], word: &[u8; N]) -> bool
    ensures { result ≡ bytes_eq field.now word.now }
{
    field.len() == N && starts_with(field, word)
}

/// Whether a text begins with that word. Four bytes are compared at once. `N` is constant at each caller,
/// so the comparison compiles to no loop.
#[inline(always)]
fn starts_with<const N: usize>(text: &[u8], word: &[u8; N]) -> bool
    ensures { result ≡ bytes_eq (take N text.now) word.now }
{
    if text.len() < N {
        return false;
    }
    let mut begin = 0;
    if N >= 4 {
        if four_of(text) != four_of(word) {
            return false;
        }
        begin = 4;
    }
    for i in begin..N {
        if text[i] != word[i] {
            return false;
        }
    }
    true
}

/// The first four bytes as one number.
#[inline(always)]
fn four_of(text: &[u8]) -> u32
    requires { 4 ≤ length text.now }
    ensures { to_le_bytes w32 result ≡ take 4 text.now }
{
    u32::from_le_bytes([text[0], text[1], text[2], text[3]])
}

/// The fields of a line that were not yet taken. Single spaces separate them, so an empty line has
/// one empty field, and two adjacent spaces have an empty field between them.
#[derive(Drop)]
pub struct Fields<'a> {
    rest: Option<&'a [u8]>,
}

impl<'a> Model for Fields<'a> {
    ghost use Rattle.std.specs.Prelude.{ℕ, List};
    ghost use Rattle.text_base.specs.inside.Parsing.{fields_left};

    ghost Value = { List (List ℕ) };

    ghost view = { λ a. fields_left a.rest };
}

impl<'a> Fields<'a> {
    /// The fields of a line.
    #[inline(always)]
    pub fn new(line: &'a [u8]) -> Fields<'a>
        ensures { result ≡ fields_of line.now }
    {
        Fields { rest: Some(line) }
    }

    /// The fields past the first one, if that ends at `end`: if a space or the end of the text is there.
    #[inline(always)]
    fn past(text: &'a [u8], end: usize) -> Option<Fields<'a>>
        requires within { end ≤ length text.now }
        requires field { HasNoSpace (take end text.now) }
        ensures found { IfSome result (λ rest. fields_of text.now ≡ take end text.now ∷ rest) }
        ensures none { IfNone result (end < length text.now × get_or text.now end 0 ≢ 32) }
    {
        if end == text.len() {
            return Some(Fields { rest: None });
        }
        if text[end] != b' ' {
            return None;
        }
        Some(Fields {
            rest: Some(&text[end + 1..]),
        })
    }

    /// The next field, if one is left.
    #[inline(always)]
    pub fn next(&mut self) -> Option<&'a [u8]>
        ensures { TakesField result self.old self.new }
    {
        let rest = self.rest?;
        let end = field_end(rest);
        *self = Fields::past(rest, end)?;
        Some(&rest[..end])
    }

    /// The same, with the search out of line.
    #[inline(always)]
    fn long_next(&mut self) -> Option<&'a [u8]>
        ensures { TakesField result self.old self.new }
    {
        let rest = self.rest?;
        let end = long_field_end(rest);
        *self = Fields::past(rest, end)?;
        Some(&rest[..end])
    }

    /// The fields after the next one, if that is this word, which has no space.
    #[inline(always)]
    pub fn after<const N: usize>(&self, word: &[u8; N]) -> Option<Fields<'a>>
        requires { fields_of word.now ≡ word.now ∷ [] }
        ensures found { IfSome result (λ rest. self.now ≡ word.now ∷ rest) }
        ensures none { IfNone result ((rest : List (List ℕ)) → self.now ≡ word.now ∷ rest → ⊥) }
    {
        let rest = self.rest?;
        if !starts_with(rest, word) {
            return None;
        }
        Fields::past(rest, N)
    }

    /// Takes the next field, if it is a decimal number up to `most`. `None` otherwise; then some
    /// fields are left.
    #[inline(always)]
    pub fn decimal(&mut self, most: u64) -> Option<u64>
        ensures read { ReadsField (decimal_at most) result self.old self.new }
        ensures bound { IfSome result (λ n. n ≤ most) }
    {
        if let Some(n) = self.short(10, 19, most) {
            return Some(n);
        }
        let field = self.long_next()?;
        decimal_of(field, most)
    }

    /// Takes the next field, if it is a hexadecimal number up to `most`. `None` otherwise; then
    /// some fields are left.
    #[inline(always)]
    pub fn hexadecimal(&mut self, most: u64) -> Option<u64>
        ensures read { ReadsField (hex_at most) result self.old self.new }
        ensures bound { IfSome result (λ n. n ≤ most) }
    {
        if let Some(n) = self.eight(most) {
            return Some(n);
        }
        if let Some(n) = self.short(16, 16, most) {
            return Some(n);
        }
        let field = self.long_next()?;
        hex_of(field, most)
    }

    /// Takes the next field, if it is a number up to `most` with at most `digits` digits. Takes
    /// nothing otherwise.
    #[inline(always)]
    fn short(&mut self, base: u64, digits: usize, most: u64) -> Option<u64>
        requires low { 10 ≤ base }
        requires high { base ≤ 16 }
        requires bound { base ^ digits ≤ 2 ^ 64 }
        ensures { ReadsShort base most result self.old self.new }
    {
        let rest = self.rest?;
        let (n, count) = short_number(rest, base, digits)?;
        if n > most {
            return None;
        }
        *self = Fields::past(rest, count)?;
        Some(n)
    }

    /// Takes the next field, if it is a hexadecimal number up to `most` with eight digits. Takes nothing
    /// otherwise.
    #[inline(always)]
    fn eight(&mut self, most: u64) -> Option<u64>
        ensures { ReadsShort 16 most result self.old self.new }
    {
        let rest = self.rest?;
        if rest.len() < 8 {
            return None;
        }
        if rest.len() > 8 && rest[8] != b' ' {
            return None;
        }
        let n = number_of_eight(rest)?;
        if n > most {
            return None;
        }
        *self = Fields::past(rest, 8)?;
        Some(n)
    }

    /// Takes the next field, if it is a byte in two digits. `None` otherwise; then some fields are left.
    #[inline(always)]
    pub fn byte(&mut self) -> Option<u8>
        ensures { ReadsField byte_at result self.old self.new }
    {
        let rest = self.rest?;
        if rest.len() < 2 {
            return None;
        }
        let byte = byte_of(&rest[..2])?;
        *self = Fields::past(rest, 2)?;
        Some(byte)
    }

    /// Takes the next field, if it is two digits for each byte, and decodes it into `out`. `None` if it is
    /// not, or if the bytes do not fit; then `out` holds some bytes, and some fields are left.
    #[inline(always)]
    pub fn bytes<const N: usize>(&mut self, out: &mut ArrayVec<u8, N>) -> Option<()>
        ensures { MatchOption result
            ((bytes : List ℕ) (rest : List (List ℕ)) → AreBytes bytes → length bytes ≤ N
            → self.old ≡ spelled bytes ∷ rest → ⊥)
            (λ _. (self.old ≡ spelled out.new.items ∷ self.new) × AreBytes out.new.items) }
    {
        let rest = self.rest?;
        let count = bytes_front(rest, out)?;
        *self = Fields::past(rest, count)?;
        Some(())
    }

    /// Whether no field is left.
    #[inline(always)]
    pub fn is_empty(&self) -> bool
        ensures { IsTrue result ↔ (self.now ≡ []) }
    {
        self.rest.is_none()
    }
}

/// Where the first field of a text ends: at the first space, or at the end.
#[inline(always)]
fn field_end(text: &[u8]) -> usize
    ensures { IsFieldEnd text.now result }
{
    for (i, b) in text.iter().enumerate() {
        if *b == b' ' {
            return i;
        }
    }
    text.len()
}

/// The same for a field that is no short number. Out of line, and without a reference to the fields, so that
/// those of a line with short numbers stay in registers.
#[cold]
#[inline(never)]
fn long_field_end(text: &[u8]) -> usize
    ensures { IsFieldEnd text.now result }
{
    field_end(text)
}
