// Messages, and the shapes of ports.
ghost use Rattle.std.specs.Prelude.{◌≡◌};
ghost use Rattle.board_terms.specs.Messages.{ticket_of};
ghost use Rattle.board_terms.specs.Ranges.{AreBytes, HasMessageRanges};

use crate::timer_id::TimerId;
use crate::{Moment, Ticket};
use arrayvec::ArrayVec;

/// The payload of a message, at most 240 bytes (TLFS, "SynIC Message").
pub type PayloadBytes = ArrayVec<u8, 240>;

/// The shape of a port: messages or event flags.
#[derive(Clone, Copy, PartialEq, Eq, Debug)]
pub enum PortShape {
    /// Messages, of which at most `buffers`, 1 to 16, may be queued at once.
    Messages { buffers: u8 },
    /// The `count` event flags from `base` on. `count` is at least 1, and `base + count` at most
    /// 2048.
    Flags { base: u16, count: u16 },
}

/// An accepted message and its ticket.
#[derive(PartialEq, Debug, Drop)]
pub enum Message {
    /// A message of type `kind` that was posted to a port.
    FromPort {
        ticket: Ticket,
        port: u8,
        kind: u32,
        payload: PayloadBytes,
    },
    /// The message of a timer that was due at `expiration`.
    FromTimer {
        ticket: Ticket,
        timer: TimerId,
        expiration: Moment,
    },
}

impl Message {
    /// The ticket of the message.
    pub fn ticket(&self) -> Ticket
        ensures { result ≡ ticket_of self.now }
    {
        match self {
            Message::FromPort { ticket, .. } | Message::FromTimer { ticket, .. } => *ticket,
        }
    }

    /// What holds for the numbers in every message. Does nothing.
    pub fn facts(&self)
        ensures ranges { HasMessageRanges self.now }
    {
        match self {
            Message::FromPort {
                ticket,
                port,
                kind,
                payload,
            } => {
                let _ticket = *ticket;
                let _port = *port;
                let _kind = *kind;
                are_bytes(payload.as_slice());
            }
            Message::FromTimer {
                ticket,
                timer,
                expiration,
            } => {
                let _ticket = *ticket;
                let _processor = timer.vp().number();
                let _index = timer.index();
                let _expiration = *expiration;
            }
        }
    }
}

/// Each element of a slice of bytes is a byte.
fn are_bytes(bytes: &[u8])
    ensures { AreBytes bytes.now }
{
    let _count = bytes.len();
}
