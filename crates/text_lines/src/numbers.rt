// The numbers of a line, parsed field by field.
ghost use Rattle.std.specs.Prelude.{◌≡◌, [], if◌then◌else◌, Some, None};
ghost use Rattle.text_lines.specs.Reading.{TakesNumber, TakesBytes, u8_at, u16_at, u64_at, hex_u32_at, hex_u64_at, vector_at};

use arrayvec::ArrayVec;
use board_terms::{Ticket, Vector};
use text_base::Fields;

/// A decimal number up to 255.
#[inline(always)]
pub fn u8_of(fields: &mut Fields<'_>) -> Option<u8>
    ensures { TakesNumber u8_at result fields.old fields.new }
{
    let Some(number) = fields.decimal(u64::from(u8::MAX)) else {
        return None;
    };
    Some(number as u8)
}

/// A decimal number of 16 bits.
#[inline(always)]
pub(crate) fn u16_of(fields: &mut Fields<'_>) -> Option<u16>
    ensures { TakesNumber u16_at result fields.old fields.new }
{
    let Some(number) = fields.decimal(u64::from(u16::MAX)) else {
        return None;
    };
    Some(number as u16)
}

/// A decimal number of 64 bits.
#[inline(always)]
pub fn u64_of(fields: &mut Fields<'_>) -> Option<Ticket>
    ensures { TakesNumber u64_at result fields.old fields.new }
{
    fields.decimal(u64::MAX)
}

/// A hexadecimal number of 32 bits.
#[inline(always)]
pub fn hex_u32_of(fields: &mut Fields<'_>) -> Option<u32>
    ensures { TakesNumber hex_u32_at result fields.old fields.new }
{
    let Some(number) = fields.hexadecimal(u64::from(u32::MAX)) else {
        return None;
    };
    Some(number as u32)
}

/// A hexadecimal number of 64 bits.
#[inline(always)]
pub fn hex_u64_of(fields: &mut Fields<'_>) -> Option<u64>
    ensures { TakesNumber hex_u64_at result fields.old fields.new }
{
    fields.hexadecimal(u64::MAX)
}

/// A vector in two hexadecimal digits.
#[inline(always)]
pub fn vector_of(fields: &mut Fields<'_>) -> Option<Vector>
    ensures { TakesNumber vector_at result fields.old fields.new }
{
    let Some(number) = fields.byte() else {
        return None;
    };
    Vector::new(number)
}

/// At most `N` bytes as two hexadecimal digits each, or `-` for none.
#[inline(always)]
pub fn bytes_in<const N: usize>(fields: &mut Fields<'_>) -> Option<ArrayVec<u8, N>>
    ensures { TakesBytes N result fields.old fields.new }
{
    let mut bytes = ArrayVec::new();
    if read_bytes(fields, &mut bytes) {
        Some(bytes)
    } else {
        None
    }
}

/// Parses at most `N` bytes, as two hexadecimal digits each or `-` for none, into the empty
/// `bytes`. Returns whether the next field is such.
#[inline(always)]
pub(crate) fn read_bytes<const N: usize>(
    fields: &mut Fields<'_>,
    bytes: &mut ArrayVec<u8, N>,
) -> bool
    requires { bytes.old.items ≡ [] }
    ensures { TakesBytes N (if result then Some bytes.new else None) fields.old fields.new }
{
    if let Some(rest) = fields.after(b"-") {
        *fields = rest;
        return true;
    }
    fields.bytes(bytes).is_some() && !bytes.as_slice().is_empty()
}
