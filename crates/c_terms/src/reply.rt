// Replies as plain structs.
ghost use Rattle.std.specs.Prelude.{◌≡◌, length};
ghost use Rattle.c_terms.specs.Replies.{reply_to_c, fault_to_c, empty_reply, padded, refusal_from_c, reply_from_c};

use crate::event::bytes_of;
use board_terms::{Bytes8, Refusal, Vector};
use synic_board::Reply;

/// A reply as a plain struct. `kind` says which reply it is, and which fields are used; the others
/// are 0.
#[repr(C)]
#[derive(Clone, Copy)]
pub struct CReply {
    /// 0 if no event was performed, else 1 to 10: done, value, bytes, taken, none taken, accepted,
    /// flag was clear, flag was set, #GP, refused.
    pub kind: u8,
    /// Why no event was performed.
    pub fault: u8,
    /// Why the event was refused.
    pub refusal: u8,
    /// The vector that was taken.
    pub vector: u8,
    /// How many of `bytes` were loaded.
    pub length: u8,
    /// How many notices the event emitted.
    pub notices: u16,
    /// The value of the register.
    pub value: u64,
    /// The ticket of the message.
    pub ticket: u64,
    /// The bytes of a load, padded with zeros.
    pub bytes: [u8; 8],
}

/// Why no event was performed.
#[derive(Clone, Copy, PartialEq, Eq, Debug)]
pub enum Fault {
    /// An allocation failed.
    NoMemory = 2,
    /// The handle of the board is closed.
    Closed = 4,
    /// The struct encodes no event.
    NoEvent = 8,
    /// The handle of the line is closed.
    NoLine = 7,
    /// The board has live pages, and the call serves only others.
    IsLive = 14,
    /// The board has no live pages.
    NotLive = 15,
}

/// A reply of this kind with a number of notices, which uses no other field.
fn of_kind(kind: u8, notices: u16) -> CReply
    ensures { result ≡ empty_reply kind notices }
{
    CReply {
        kind,
        fault: 0,
        refusal: 0,
        vector: 0,
        length: 0,
        notices,
        value: 0,
        ticket: 0,
        bytes: [0; 8],
    }
}

/// The reply if no event was performed.
pub fn fault_to_c(fault: Fault) -> CReply
    ensures { result ≡ fault_to_c fault }
{
    CReply {
        fault: fault as u8,
        ..of_kind(0, 0)
    }
}

/// Encodes a reply, with a number of notices.
pub fn reply_to_c(reply: Reply, notices: u16) -> CReply
    ensures { result ≡ reply_to_c reply notices }
{
    match reply {
        Reply::Done => of_kind(1, notices),
        Reply::Value(value) => CReply {
            value,
            ..of_kind(2, notices)
        },
        Reply::Bytes(bytes) => CReply {
            length: bytes.len() as u8,
            bytes: padded(&bytes),
            ..of_kind(3, notices)
        },
        Reply::Taken(Some(vector)) => CReply {
            vector: vector.number(),
            ..of_kind(4, notices)
        },
        Reply::Taken(None) => of_kind(5, notices),
        Reply::Accepted(ticket) => CReply {
            ticket,
            ..of_kind(6, notices)
        },
        Reply::FlagWasClear => of_kind(7, notices),
        Reply::FlagWasSet => of_kind(8, notices),
        Reply::GeneralProtection => of_kind(9, notices),
        Reply::Refused(refusal) => CReply {
            refusal: refusal.number(),
            ..of_kind(10, notices)
        },
    }
}

/// The bytes, padded with zeros to eight.
fn padded(bytes: &Bytes8) -> [u8; 8]
    ensures { result ≡ padded bytes.now.items }
{
    let mut eight = [0; 8];
    eight[..bytes.len()].copy_from_slice(bytes.as_slice());
    eight
}

/// Decodes a reply; `None` if no event was performed, the kind or the refusal is unknown, a vector
/// is below 16, or there are more than 8 bytes.
pub fn reply_of(plain: &CReply) -> Option<Reply>
    ensures { result ≡ reply_from_c plain.now }
{
    match plain.kind {
        1 => Some(Reply::Done),
        2 => Some(Reply::Value(plain.value)),
        3 => Some(Reply::Bytes(bytes_of(&plain.bytes, plain.length)?)),
        4 => Some(Reply::Taken(Some(Vector::new(plain.vector)?))),
        5 => Some(Reply::Taken(None)),
        6 => Some(Reply::Accepted(plain.ticket)),
        7 => Some(Reply::FlagWasClear),
        8 => Some(Reply::FlagWasSet),
        9 => Some(Reply::GeneralProtection),
        10 => Some(Reply::Refused(refusal_of(plain.refusal)?)),
        _ => None,
    }
}

/// The refusal with this number.
fn refusal_of(number: u8) -> Option<Refusal>
    ensures { result ≡ refusal_from_c number }
{
    match number {
        1 => Some(Refusal::UnknownPort),
        2 => Some(Refusal::PortOpen),
        3 => Some(Refusal::WrongKind),
        4 => Some(Refusal::BadTarget),
        5 => Some(Refusal::BadType),
        6 => Some(Refusal::BadFlag),
        7 => Some(Refusal::SynicOff),
        8 => Some(Refusal::NoBuffers),
        9 => Some(Refusal::TicketsSpent),
        10 => Some(Refusal::ClockBack),
        11 => Some(Refusal::OutsideSpace),
        12 => Some(Refusal::CrossesPage),
        13 => Some(Refusal::BadLength),
        14 => Some(Refusal::NoSuchProcessor),
        15 => Some(Refusal::AlreadySuspended),
        16 => Some(Refusal::NotSuspended),
        17 => Some(Refusal::Elsewhere),
        _ => None,
    }
}
