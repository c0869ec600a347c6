// Prints replies.
ghost use Rattle.std.specs.Prelude.{◌≡◌, ◌++◌, ◌∷◌, [], OnOk, codes, decimal};
ghost use Rattle.text_base.specs.Fields.{line_of};
ghost use Rattle.text_base.specs.Numbers.{two_digits};
ghost use Rattle.text_lines.specs.Events.{bytes_text};
ghost use Rattle.text_lines.specs.Printing.{reply_fields};

use crate::print::put;
use board_terms::{Bytes8, Ticket};
use synic_board::Reply;
use text_base::{
    FRONT, Sink, bytes_before, decimal_before, digits_of, put_decimal, put_hex, text_before,
};

/// Appends the line of a reply to `out`.
#[inline(always)]
pub fn put_reply<S: Sink>(out: &mut S, reply: Reply) -> Result<(), S::Error>
    ensures { OnOk result (S.text out.new ≡ S.text out.old ++ line_of (reply_fields reply)) }
{
    match reply {
        Reply::Done => put_constant(out, b"= done\n"),
        Reply::Value(value) => {
            put(out, b"= value ")?;
            put_hex(out, value)?;
            put(out, b"\n")
        }
        Reply::Bytes(bytes) => put_loaded(out, &bytes),
        Reply::Taken(Some(vector)) => put_taken(out, vector.number()),
        Reply::Taken(None) => put_constant(out, b"= taken none\n"),
        Reply::Accepted(ticket) => put_accepted(out, ticket),
        Reply::FlagWasClear => put_constant(out, b"= clear\n"),
        Reply::FlagWasSet => put_constant(out, b"= set\n"),
        Reply::GeneralProtection => put_constant(out, b"= general protection\n"),
        Reply::Refused(refusal) => {
            put(out, b"= refused ")?;
            put_decimal(out, refusal.number())?;
            put(out, b"\n")
        }
    }
}

/// Appends a constant. It is copied first, so that the compiler sees that it does not overlap `out`.
#[inline(always)]
fn put_constant<S: Sink, const N: usize>(out: &mut S, text: &[u8; N]) -> Result<(), S::Error>
    ensures { OnOk result (S.text out.new ≡ S.text out.old ++ text.now) }
{
    let copy = *text;
    put(out, &copy)
}

/// Appends the line of the vector that was taken.
#[inline(always)]
fn put_taken<S: Sink>(out: &mut S, vector: u8) -> Result<(), S::Error>
    ensures { OnOk result (S.text out.new
        ≡ S.text out.old ++ line_of (codes "=" ∷ codes "taken" ∷ two_digits vector ∷ [])) }
{
    let [high, low] = digits_of(vector);
    let mut line = *b"= taken ..\n";
    line[8] = high;
    line[9] = low;
    put(out, &line)
}

/// Appends the line of the ticket of an accepted message.
#[inline(always)]
fn put_accepted<S: Sink>(out: &mut S, ticket: Ticket) -> Result<(), S::Error>
    ensures { OnOk result (S.text out.new
        ≡ S.text out.old ++ line_of (codes "=" ∷ codes "accepted" ∷ decimal ticket ∷ [])) }
{
    let mut room = [0u8; FRONT];
    let at = text_before(&mut room, FRONT, b"\n");
    let at = decimal_before(&mut room, at, ticket);
    let at = text_before(&mut room, at, b"= accepted ");
    put(out, &room[at..])
}

/// Appends the line of the bytes that were loaded.
#[inline(always)]
fn put_loaded<S: Sink>(out: &mut S, bytes: &Bytes8) -> Result<(), S::Error>
    ensures { OnOk result (S.text out.new
        ≡ S.text out.old ++ line_of (codes "=" ∷ codes "bytes" ∷ bytes_text bytes.now.items ∷ [])) }
{
    let bytes = bytes.as_slice();
    if bytes.is_empty() {
        return put(out, b"= bytes -\n");
    }
    let mut room = [0u8; FRONT];
    let at = text_before(&mut room, FRONT, b"\n");
    let at = bytes_before(&mut room, at, bytes);
    let at = text_before(&mut room, at, b"= bytes ");
    put(out, &room[at..])
}
