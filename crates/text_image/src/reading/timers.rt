// Parses a timer.
ghost use Rattle.std.specs.Prelude.{◌≡◌};
ghost use Rattle.text_image.specs.Parsing.{parse_timer, parse_due, parse_deadline};

use crate::piece::Piece;
use text_base::{Fields, is_word};
use text_lines::{hex_u64_of, u8_of};

/// One more than the greatest 64-bit word.
const WORD: u128 = 1 << 64;

pub(crate) fn timer_of(fields: &mut Fields<'_>) -> Option<Piece>
    ensures { result ≡ parse_timer fields.old }
{
    let vp = u8_of(fields)?;
    let index = u8_of(fields)?;
    let config = hex_u64_of(fields)?;
    let count = hex_u64_of(fields)?;
    let due = due_of(fields)?;
    Some(Piece::Timer {
        vp,
        index,
        config,
        count,
        due,
    })
}

/// Whether the timer has a deadline, and which. All remaining fields must be used.
fn due_of(fields: &mut Fields<'_>) -> Option<Option<u128>>
    ensures { result ≡ parse_due fields.old }
{
    let word = fields.next()?;
    if is_word(word, b"stopped") {
        return if fields.is_empty() { Some(None) } else { None };
    }
    if is_word(word, b"due") {
        return deadline_of(fields);
    }
    None
}

/// A deadline, by its high and its low 64 bits.
fn deadline_of(fields: &mut Fields<'_>) -> Option<Option<u128>>
    ensures { result ≡ parse_deadline fields.old }
{
    let high = hex_u64_of(fields)?;
    let low = hex_u64_of(fields)?;
    if !fields.is_empty() {
        return None;
    }
    Some(Some(u128::from(high) * WORD + u128::from(low)))
}
