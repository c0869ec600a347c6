// Parses a line of an image.
ghost use Rattle.std.specs.Prelude.{◌≡◌};
ghost use Rattle.text_image.specs.Parsing.{piece_at, parse_moment, parse_port, parse_end};

mod messages;
mod pages;
mod processors;
mod timers;

use crate::piece::Piece;
use messages::{message_of, slot_of};
use pages::{guest_of, own_of};
use processors::{lapic_of, register_of};
use synic_board::Event;
use text_base::{Fields, is_word};
use text_lines::{event_of, u64_of};
use timers::timer_of;

/// Parses a line of an image that is below its board line; `None` if the line denotes no piece.
#[tactic(auto, unfolding(crate::specs::Parsing::piece_at))]
pub fn piece_of(line: &[u8]) -> Option<Piece>
    ensures { result ≡ piece_at line.now }
{
    let mut fields = Fields::new(line);
    let word = fields.next()?;
    if is_word(word, b"moment") {
        return moment_of(&mut fields);
    }
    if is_word(word, b"lapic") {
        return lapic_of(&mut fields);
    }
    if is_word(word, b"register") {
        return register_of(&mut fields);
    }
    if is_word(word, b"page") {
        return guest_of(&mut fields);
    }
    if is_word(word, b"own") {
        return own_of(&mut fields);
    }
    if is_word(word, b"open") {
        return port_of(&mut fields);
    }
    if is_word(word, b"timer") {
        return timer_of(&mut fields);
    }
    if is_word(word, b"message") {
        return message_of(&mut fields);
    }
    if is_word(word, b"slot") {
        return slot_of(&mut fields);
    }
    if is_word(word, b"end") {
        return end_of(&fields);
    }
    None
}

fn moment_of(fields: &mut Fields<'_>) -> Option<Piece>
    ensures { result ≡ parse_moment fields.old }
{
    let moment = u64_of(fields)?;
    if !fields.is_empty() {
        return None;
    }
    Some(Piece::Moment(moment))
}

/// An open port has the line of the event that opens it.
fn port_of(fields: &mut Fields<'_>) -> Option<Piece>
    ensures { result ≡ parse_port fields.old }
{
    match event_of(b"open", fields)? {
        Event::OpenPort {
            port,
            vp,
            sint,
            shape,
        } => Some(Piece::Port {
            port,
            vp,
            sint,
            shape,
        }),
        _ => None,
    }
}

fn end_of(fields: &Fields<'_>) -> Option<Piece>
    ensures { result ≡ parse_end fields.now }
{
    if fields.is_empty() {
        Some(Piece::End)
    } else {
        None
    }
}
