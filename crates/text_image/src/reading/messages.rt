// Parses a queued message, or the ticket in a slot.
ghost use Rattle.std.specs.Prelude.{◌≡◌};
ghost use Rattle.text_image.specs.Parsing.{parse_message, parse_origin, parse_posted, parse_expired, parse_slot, read_timer};
ghost use Rattle.text_image.specs.inside.Taking.{Takes};

use crate::numbers::{timer_of, vp_of};
use crate::piece::Piece;
use board_terms::{Message, Ticket, TimerId};
use text_base::{Fields, is_word};
use text_lines::{bytes_in, hex_u32_of, u8_of, u64_of};

pub(crate) fn message_of(fields: &mut Fields<'_>) -> Option<Piece>
    ensures { result ≡ parse_message fields.old }
{
    let vp = u8_of(fields)?;
    let sint = u8_of(fields)?;
    let ticket = u64_of(fields)?;
    let message = origin_of(ticket, fields)?;
    Some(Piece::Queued { vp, sint, message })
}

/// Where a message is from, and what it holds. All remaining fields must be used.
fn origin_of(ticket: Ticket, fields: &mut Fields<'_>) -> Option<Message>
    ensures { result ≡ parse_origin ticket fields.old }
{
    let word = fields.next()?;
    if is_word(word, b"port") {
        return posted_of(ticket, fields);
    }
    if is_word(word, b"timer") {
        return expired_of(ticket, fields);
    }
    None
}

fn posted_of(ticket: Ticket, fields: &mut Fields<'_>) -> Option<Message>
    ensures { result ≡ parse_posted ticket fields.old }
{
    let port = u8_of(fields)?;
    let kind = hex_u32_of(fields)?;
    let payload = bytes_in(fields)?;
    if !fields.is_empty() {
        return None;
    }
    Some(Message::FromPort {
        ticket,
        port,
        kind,
        payload,
    })
}

fn expired_of(ticket: Ticket, fields: &mut Fields<'_>) -> Option<Message>
    ensures { result ≡ parse_expired ticket fields.old }
{
    let timer = timer_in(fields)?;
    let expiration = u64_of(fields)?;
    if !fields.is_empty() {
        return None;
    }
    Some(Message::FromTimer {
        ticket,
        timer,
        expiration,
    })
}

/// A timer, by its processor and its index.
fn timer_in(fields: &mut Fields<'_>) -> Option<TimerId>
    ensures { Takes read_timer result fields.old fields.new }
{
    let vp = fields.decimal(63)?;
    let index = fields.decimal(3)?;
    Some(timer_of(vp_of(vp as u8), index as u8))
}

pub(crate) fn slot_of(fields: &mut Fields<'_>) -> Option<Piece>
    ensures { result ≡ parse_slot fields.old }
{
    let vp = u8_of(fields)?;
    let sint = u8_of(fields)?;
    let ticket = u64_of(fields)?;
    if !fields.is_empty() {
        return None;
    }
    Some(Piece::Slot { vp, sint, ticket })
}
