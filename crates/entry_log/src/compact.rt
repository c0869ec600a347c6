// The compact form of entries.
ghost use Rattle.std.specs.Prelude.{◌≡◌, ◌≤◌, length};
ghost use Rattle.entry_log.specs.inside.Compact.{event_bytes, reply_bytes, event_count, reply_count, event_most, Fits, size, event_with, reply_with, entry_with};

use arrayvec::ArrayVec;
use board_terms::{Moment, PortShape, Refusal, Ticket, Vector};
use synic_board::{Entry, Event, Reply};

/// The numbers of an event, with the number of its bytes instead of the bytes. The fields of each
/// variant are ordered so that none takes more than 16 bytes.
#[derive(Clone, Copy)]
pub(crate) enum CompactEvent {
    OpenPort {
        port: u8,
        vp: u8,
        sint: u8,
        shape: PortShape,
    },
    ClosePort {
        port: u8,
    },
    Write {
        vp: u8,
        register: u32,
        value: u64,
    },
    Read {
        vp: u8,
        register: u32,
    },
    Post {
        port: u8,
        count: u8,
        kind: u32,
    },
    Signal {
        port: u8,
        flag: u16,
    },
    Assert {
        vp: u8,
        vector: Vector,
    },
    Absorb {
        vp: u8,
        part: u8,
        bits: u64,
    },
    Store {
        count: u8,
        address: u64,
    },
    Load {
        length: u8,
        address: u64,
    },
    Tick {
        moment: Moment,
    },
    Take {
        vp: u8,
    },
    Suspend {
        vp: u8,
    },
    Resume {
        vp: u8,
    },
    Reset {
        vp: u8,
    },
    Send {
        vector: Vector,
        mask: u64,
    },
}

/// The numbers of a reply, with the number of its bytes instead of the bytes.
#[derive(Clone, Copy)]
pub(crate) enum CompactReply {
    Done,
    Value(u64),
    Bytes { count: u8 },
    Taken(Option<Vector>),
    Accepted(Ticket),
    FlagWasClear,
    FlagWasSet,
    GeneralProtection,
    Refused(Refusal),
}

/// The numbers of an entry. Its bytes are those of the event, then those of the reply.
#[derive(Clone, Copy)]
pub(crate) struct CompactEntry {
    pub(crate) actor: u8,
    pub(crate) event: CompactEvent,
    pub(crate) reply: CompactReply,
}

/// The bytes of an event.
pub(crate) fn bytes_of_event(event: &Event) -> &[u8]
    ensures value { result.now ≡ event_bytes event.now }
    ensures bound { length result.now ≤ 240 }
{
    match event {
        Event::Post { payload, .. } => payload.as_slice(),
        Event::Store { bytes, .. } => bytes.as_slice(),
        _ => &[],
    }
}

/// The bytes of a reply.
pub(crate) fn bytes_of_reply(reply: &Reply) -> &[u8]
    ensures value { result.now ≡ reply_bytes reply.now }
    ensures bound { length result.now ≤ 8 }
{
    match reply {
        Reply::Bytes(bytes) => bytes.as_slice(),
        _ => &[],
    }
}

/// An event as one of the other type with the same numbers. The arms of those with bytes are the caller's.
macro_rules! same_numbers {
    ($event:expr, $From:ident, $To:ident, $($with_bytes:tt)*) => {
        match $event {
            $($with_bytes)*
            $From::OpenPort { port, vp, sint, shape } => {
                $To::OpenPort { port: *port, vp: *vp, sint: *sint, shape: *shape }
            }
            $From::ClosePort { port } => $To::ClosePort { port: *port },
            $From::Write { vp, register, value } => $To::Write { vp: *vp, register: *register, value: *value },
            $From::Read { vp, register } => $To::Read { vp: *vp, register: *register },
            $From::Signal { port, flag } => $To::Signal { port: *port, flag: *flag },
            $From::Assert { vp, vector } => $To::Assert { vp: *vp, vector: *vector },
            $From::Absorb { vp, part, bits } => $To::Absorb { vp: *vp, part: *part, bits: *bits },
            $From::Load { address, length } => $To::Load { length: *length, address: *address },
            $From::Tick { moment } => $To::Tick { moment: *moment },
            $From::Take { vp } => $To::Take { vp: *vp },
            $From::Suspend { vp } => $To::Suspend { vp: *vp },
            $From::Resume { vp } => $To::Resume { vp: *vp },
            $From::Reset { vp } => $To::Reset { vp: *vp },
            $From::Send { vector, mask } => $To::Send { vector: *vector, mask: *mask },
        }
    };
}

impl CompactEvent {
    /// The numbers of an event.
    pub(crate) fn of(event: &Event) -> CompactEvent
        ensures same { event_with (event_bytes event.now) result ≡ event.now }
        ensures count { event_count result ≡ length (event_bytes event.now) }
        ensures bound { event_count result ≤ event_most result }
    {
        same_numbers!(
            event, Event, CompactEvent,
            Event::Post { port, kind, payload } => {
                CompactEvent::Post { port: *port, count: payload.len() as u8, kind: *kind }
            }
            Event::Store { address, bytes } => {
                CompactEvent::Store { count: bytes.len() as u8, address: *address }
            }
        )
    }

    /// How many bytes the event has.
    pub(crate) fn count(self) -> usize
        ensures { result ≡ event_count self }
    {
        match self {
            CompactEvent::Post { count, .. } | CompactEvent::Store { count, .. } => {
                usize::from(count)
            }
            _ => 0,
        }
    }

    /// The event with these bytes.
    pub(crate) fn event(self, own: &[u8]) -> Event
        requires count { length own.now ≡ event_count self }
        requires bound { event_count self ≤ event_most self }
        ensures { result ≡ event_with own.now self }
    {
        same_numbers!(
            &self, CompactEvent, Event,
            CompactEvent::Post { port, kind, .. } => {
                Event::Post { port: *port, kind: *kind, payload: array_of(own) }
            }
            CompactEvent::Store { address, .. } => Event::Store { address: *address, bytes: array_of(own) },
        )
    }
}

impl CompactReply {
    /// The numbers of a reply.
    pub(crate) fn of(reply: &Reply) -> CompactReply
        ensures same { reply_with (reply_bytes reply.now) result ≡ reply.now }
        ensures count { reply_count result ≡ length (reply_bytes reply.now) }
        ensures bound { reply_count result ≤ 8 }
    {
        match reply {
            Reply::Done => CompactReply::Done,
            Reply::Value(value) => CompactReply::Value(*value),
            Reply::Bytes(bytes) => CompactReply::Bytes {
                count: bytes.len() as u8,
            },
            Reply::Taken(vector) => CompactReply::Taken(*vector),
            Reply::Accepted(ticket) => CompactReply::Accepted(*ticket),
            Reply::FlagWasClear => CompactReply::FlagWasClear,
            Reply::FlagWasSet => CompactReply::FlagWasSet,
            Reply::GeneralProtection => CompactReply::GeneralProtection,
            Reply::Refused(refusal) => CompactReply::Refused(*refusal),
        }
    }

    /// How many bytes the reply has.
    pub(crate) fn count(self) -> usize
        ensures { result ≡ reply_count self }
    {
        match self {
            CompactReply::Bytes { count } => usize::from(count),
            _ => 0,
        }
    }

    /// The reply with these bytes.
    pub(crate) fn reply(self, own: &[u8]) -> Reply
        requires count { length own.now ≡ reply_count self }
        requires bound { reply_count self ≤ 8 }
        ensures { result ≡ reply_with own.now self }
    {
        match self {
            CompactReply::Done => Reply::Done,
            CompactReply::Value(value) => Reply::Value(value),
            CompactReply::Bytes { .. } => Reply::Bytes(array_of(own)),
            CompactReply::Taken(vector) => Reply::Taken(vector),
            CompactReply::Accepted(ticket) => Reply::Accepted(ticket),
            CompactReply::FlagWasClear => Reply::FlagWasClear,
            CompactReply::FlagWasSet => Reply::FlagWasSet,
            CompactReply::GeneralProtection => Reply::GeneralProtection,
            CompactReply::Refused(refusal) => Reply::Refused(refusal),
        }
    }
}

impl CompactEntry {
    /// How many bytes the entry has.
    pub(crate) fn size(self) -> usize
        ensures { result ≡ size self }
    {
        self.event.count() + self.reply.count()
    }

    /// The entry whose bytes come first in `bytes`.
    pub(crate) fn entry(self, bytes: &[u8]) -> Entry
        requires there { size self ≤ length bytes.now }
        requires fits { Fits self }
        ensures { result ≡ entry_with bytes.now self }
    {
        let (own, rest) = bytes.split_at(self.event.count());
        Entry {
            actor: self.actor,
            event: self.event.event(own),
            reply: self.reply.reply(&rest[..self.reply.count()]),
        }
    }
}

/// An array of these bytes, which must fit.
fn array_of<const N: usize>(bytes: &[u8]) -> ArrayVec<u8, N>
    requires { length bytes.now ≤ N }
    ensures { result.items ≡ bytes.now }
{
    let mut array = ArrayVec::new();
    let _ = array.try_extend_from_slice(bytes);
    array
}
