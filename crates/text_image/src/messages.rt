// The queued messages, and the tickets of those in slots.
ghost use Rattle.std.specs.Prelude.{◌≡◌, ◌<◌, ◌++◌, ◌∷◌, OnOk};
ghost use Rattle.text_base.specs.Fields.{spaced, line_of};
ghost use Rattle.text_lines.specs.Printing.{text_of};
ghost use Rattle.synic_board.specs.State.{processors};
ghost use Rattle.text_image.specs.Image.{each_below, queues_lines, queue_lines, queued_lines, message_fields, origin_fields, posted_fields, expired_fields, slots_lines, slot_lines};

use crate::numbers::{sint_of, vp_of};
use board_terms::{Message, Moment, PayloadBytes, Sint, TimerId, Vp};
use synic_board::Board;
use text_base::Sink;
use text_lines::{put_data, put_decimal_field, put_hex_field};

/// Appends the queues of each processor.
pub(crate) fn put_queues<S: Sink>(out: &mut S, board: &Board) -> Result<(), S::Error>
    ensures { OnOk result (S.text out.new
        ≡ S.text out.old ++ text_of (each_below (processors board.now.state) (queues_lines board.now.state))) }
{
    for number in 0..board.processors() {
        let vp = vp_of(number);
        put_queues_of(out, board, vp)?;
    }
    Ok(())
}

/// Appends the queues of a processor.
fn put_queues_of<S: Sink>(out: &mut S, board: &Board, vp: Vp) -> Result<(), S::Error>
    requires { vp < processors board.now.state }
    ensures { OnOk result (S.text out.new ≡ S.text out.old ++ text_of (queues_lines board.now.state vp)) }
{
    for number in 0..16 {
        let sint = sint_of(number);
        put_queue(out, board, vp, sint)?;
    }
    Ok(())
}

/// Appends the messages of a queue, front first.
fn put_queue<S: Sink>(out: &mut S, board: &Board, vp: Vp, sint: Sint) -> Result<(), S::Error>
    requires { vp < processors board.now.state }
    ensures { OnOk result (S.text out.new ≡ S.text out.old ++ text_of (queue_lines board.now.state vp sint)) }
{
    for index in 0..board.summary().queued(vp, sint) {
        put_queued(out, board, vp, sint, index)?;
    }
    Ok(())
}

/// Appends the message at an index of a queue.
fn put_queued<S: Sink>(
    out: &mut S,
    board: &Board,
    vp: Vp,
    sint: Sint,
    index: u16,
) -> Result<(), S::Error>
    requires { vp < processors board.now.state }
    ensures { OnOk result (S.text out.new ≡ S.text out.old ++ text_of (queued_lines board.now.state vp sint index)) }
{
    match board.message(vp, sint, index) {
        Some(message) => put_message(out, vp, sint, message),
        None => Ok(()),
    }
}

/// Appends a queued message.
fn put_message<S: Sink>(out: &mut S, vp: Vp, sint: Sint, message: &Message) -> Result<(), S::Error>
    ensures { OnOk result (S.text out.new ≡ S.text out.old ++ line_of (message_fields vp sint message.now)) }
{
    out.put(b"message")?;
    put_decimal_field(out, u64::from(vp.number()))?;
    put_decimal_field(out, u64::from(sint.number()))?;
    put_decimal_field(out, message.ticket())?;
    put_origin(out, message)?;
    out.put(b"\n")
}

/// Appends where a message is from, and what it holds.
fn put_origin<S: Sink>(out: &mut S, message: &Message) -> Result<(), S::Error>
    ensures { OnOk result (S.text out.new ≡ S.text out.old ++ 32 ∷ spaced (origin_fields message.now)) }
{
    match message {
        Message::FromPort {
            port,
            kind,
            payload,
            ..
        } => put_posted(out, *port, *kind, payload),
        Message::FromTimer {
            timer,
            expiration,
            ..
        } => put_expired(out, *timer, *expiration),
    }
}

fn put_posted<S: Sink>(
    out: &mut S,
    port: u8,
    kind: u32,
    payload: &PayloadBytes,
) -> Result<(), S::Error>
    ensures { OnOk result (S.text out.new ≡ S.text out.old ++ 32 ∷ spaced (posted_fields port kind payload.now.items)) }
{
    out.put(b" port")?;
    put_decimal_field(out, u64::from(port))?;
    put_hex_field(out, u64::from(kind))?;
    out.put(b" ")?;
    put_data(out, payload.as_slice())
}

fn put_expired<S: Sink>(out: &mut S, timer: TimerId, expiration: Moment) -> Result<(), S::Error>
    ensures { OnOk result (S.text out.new ≡ S.text out.old ++ 32 ∷ spaced (expired_fields timer expiration)) }
{
    out.put(b" timer")?;
    put_decimal_field(out, u64::from(timer.vp().number()))?;
    put_decimal_field(out, u64::from(timer.index()))?;
    put_decimal_field(out, expiration)
}

/// Appends the tickets in the slots of each processor.
pub(crate) fn put_slots<S: Sink>(out: &mut S, board: &Board) -> Result<(), S::Error>
    ensures { OnOk result (S.text out.new
        ≡ S.text out.old ++ text_of (each_below (processors board.now.state) (slots_lines board.now.state))) }
{
    for number in 0..board.processors() {
        let vp = vp_of(number);
        put_slots_of(out, board, vp)?;
    }
    Ok(())
}

/// Appends the tickets in the slots of a processor.
fn put_slots_of<S: Sink>(out: &mut S, board: &Board, vp: Vp) -> Result<(), S::Error>
    requires { vp < processors board.now.state }
    ensures { OnOk result (S.text out.new ≡ S.text out.old ++ text_of (slots_lines board.now.state vp)) }
{
    for number in 0..16 {
        let sint = sint_of(number);
        put_slot(out, board, vp, sint)?;
    }
    Ok(())
}

/// Appends the ticket in a slot, if it holds one.
fn put_slot<S: Sink>(out: &mut S, board: &Board, vp: Vp, sint: Sint) -> Result<(), S::Error>
    requires { vp < processors board.now.state }
    ensures { OnOk result (S.text out.new ≡ S.text out.old ++ text_of (slot_lines board.now.state vp sint)) }
{
    let Some(ticket) = board.slot_ticket(vp, sint) else {
        return Ok(());
    };
    out.put(b"slot")?;
    put_decimal_field(out, u64::from(vp.number()))?;
    put_decimal_field(out, u64::from(sint.number()))?;
    put_decimal_field(out, ticket)?;
    out.put(b"\n")
}
