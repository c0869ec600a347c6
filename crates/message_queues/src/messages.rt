// Messages that are written in their places.
ghost use Rattle.std.specs.Prelude.{◌≡◌, ◌≤◌, length};
ghost use Rattle.board_terms.specs.declared.messages.Message.TheVariants.{FromPort, FromTimer};
ghost use Rattle.message_queues.specs.inside.Buffers.{no_message};

use arrayvec::ArrayVec;
use board_terms::{Message, Moment, PayloadBytes, Ticket, TimerId, Vp};

/// The message of a buffer that was never used.
pub(crate) fn no_message() -> Message
    ensures { result ≡ no_message }
{
    let vp = Vp::new(0).unwrap();
    Message::FromTimer {
        ticket: 0,
        timer: TimerId::new(vp, 0).unwrap(),
        expiration: 0,
    }
}

/// Replaces a message by one of a port. If it was one of a port, only the bytes of the new payload
/// are written.
#[inline]
pub(crate) fn write_post(place: &mut Message, ticket: Ticket, port: u8, kind: u32, payload: &[u8])
    requires { length payload.now ≤ 240 }
    ensures { place.new ≡ FromPort ticket port kind (record { items = payload.now }) }
{
    match place {
        Message::FromPort {
            ticket: old_ticket,
            port: old_port,
            kind: old_kind,
            payload: bytes,
        } => {
            *old_ticket = ticket;
            *old_port = port;
            *old_kind = kind;
            bytes.clear();
            let _ = bytes.try_extend_from_slice(payload);
        }
        Message::FromTimer { .. } => {
            *place = Message::FromPort {
                ticket,
                port,
                kind,
                payload: payload_of(payload),
            }
        }
    }
}

/// Replaces a message by one of a timer. If it was one of a timer, three numbers are written.
#[inline]
pub(crate) fn write_expiry(place: &mut Message, ticket: Ticket, timer: TimerId, expiration: Moment)
    ensures { place.new ≡ FromTimer ticket timer expiration }
{
    match place {
        Message::FromTimer {
            ticket: old_ticket,
            timer: old_timer,
            expiration: old_expiration,
        } => {
            *old_ticket = ticket;
            *old_timer = timer;
            *old_expiration = expiration;
        }
        Message::FromPort { .. } => {
            *place = Message::FromTimer {
                ticket,
                timer,
                expiration,
            }
        }
    }
}

/// An equal message.
pub(crate) fn copied(message: &Message) -> Message
    ensures { result ≡ message.now }
{
    match message {
        Message::FromPort {
            ticket,
            port,
            kind,
            payload,
        } => Message::FromPort {
            ticket: *ticket,
            port: *port,
            kind: *kind,
            payload: payload_of(payload.as_slice()),
        },
        Message::FromTimer {
            ticket,
            timer,
            expiration,
        } => Message::FromTimer {
            ticket: *ticket,
            timer: *timer,
            expiration: *expiration,
        },
    }
}

/// A payload with these bytes.
#[inline(never)]
fn payload_of(bytes: &[u8]) -> PayloadBytes
    requires { length bytes.now ≤ 240 }
    ensures { result ≡ record { items = bytes.now } }
{
    let mut payload = ArrayVec::new();
    let _ = payload.try_extend_from_slice(bytes);
    payload
}
