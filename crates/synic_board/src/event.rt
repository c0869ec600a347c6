// Events and replies.
ghost use Rattle.std.specs.Prelude.{◌≡◌};

use arrayvec::ArrayVec;
use board_terms::{Bytes8, Moment, PayloadBytes, PortShape, Refusal, Ticket, Vector};

/// An event of the board. Processor, source, port and register numbers are plain integers, and the
/// board refuses those that are out of range.
#[derive(PartialEq, Debug, Drop)]
pub enum Event {
    /// Opens a port to source `sint` of processor `vp`.
    OpenPort {
        port: u8,
        vp: u8,
        sint: u8,
        shape: PortShape,
    },
    /// Closes a port.
    ClosePort {
        port: u8,
    },
    /// A guest writes a register of processor `vp`.
    Write {
        vp: u8,
        register: u32,
        value: u64,
    },
    /// A guest reads a register of processor `vp`.
    Read {
        vp: u8,
        register: u32,
    },
    /// Posts a message of type `kind` to a port.
    Post {
        port: u8,
        kind: u32,
        payload: PayloadBytes,
    },
    /// Signals an event flag of a port.
    Signal {
        port: u8,
        flag: u16,
    },
    /// A device requests a vector at the local APIC of processor `vp`.
    Assert {
        vp: u8,
        vector: Vector,
    },
    /// Requests posted vectors at the local APIC of processor `vp`: bit i of `bits` is vector 64 *
    /// `part` + i. Vectors below 16 are ignored.
    Absorb {
        vp: u8,
        part: u8,
        bits: u64,
    },
    /// A guest stores bytes at a guest physical address.
    Store {
        address: u64,
        bytes: Bytes8,
    },
    /// A guest loads bytes from a guest physical address.
    Load {
        address: u64,
        length: u8,
    },
    /// Moves the clock to a time in units of 100 ns.
    Tick {
        moment: Moment,
    },
    /// Processor `vp` takes its next vector.
    Take {
        vp: u8,
    },
    /// Suspends processor `vp`: it takes no interrupt, and its timers are not tried, until it
    /// resumes.
    Suspend {
        vp: u8,
    },
    /// Resumes processor `vp`. This tries no timer.
    Resume {
        vp: u8,
    },
    /// Resets processor `vp` to its state at the opening: withdraws its messages in slots and
    /// queues, and resets its registers, local APIC, timers and own two pages. Ports stay open.
    Reset {
        vp: u8,
    },
    /// An interrupt is sent to several processors: requests a vector at the local APIC of each
    /// processor of `mask`, lowest first. Bit p of `mask` is processor p.
    Send {
        vector: Vector,
        mask: u64,
    },
}

/// The reply to an event.
#[derive(PartialEq, Debug, Drop)]
pub enum Reply {
    /// The event was performed.
    Done,
    /// The value of the register.
    Value(u64),
    /// The bytes that the guest loads.
    Bytes(Bytes8),
    /// The vector that was taken, or none.
    Taken(Option<Vector>),
    /// The post was accepted with this ticket.
    Accepted(Ticket),
    /// The event flag was clear, and was set.
    FlagWasClear,
    /// The event flag was already set.
    FlagWasSet,
    /// The access raises #GP; nothing changed.
    GeneralProtection,
    /// The event was refused; nothing changed.
    Refused(Refusal),
}

impl Event {
    /// A copy of the event. Writes only the bytes that its variant uses.
    pub fn copy(&self) -> Event
        ensures { result ≡ self.now }
    {
        match self {
            Event::OpenPort {
                port,
                vp,
                sint,
                shape,
            } => Event::OpenPort {
                port: *port,
                vp: *vp,
                sint: *sint,
                shape: *shape,
            },
            Event::ClosePort { port } => Event::ClosePort { port: *port },
            Event::Write {
                vp,
                register,
                value,
            } => Event::Write {
                vp: *vp,
                register: *register,
                value: *value,
            },
            Event::Read { vp, register } => Event::Read {
                vp: *vp,
                register: *register,
            },
            Event::Post {
                port,
                kind,
                payload,
            } => Event::Post {
                port: *port,
                kind: *kind,
                payload: bytes_of(payload),
            },
            Event::Signal { port, flag } => Event::Signal {
                port: *port,
                flag: *flag,
            },
            Event::Assert { vp, vector } => Event::Assert {
                vp: *vp,
                vector: *vector,
            },
            Event::Absorb { vp, part, bits } => Event::Absorb {
                vp: *vp,
                part: *part,
                bits: *bits,
            },
            Event::Store { address, bytes } => Event::Store {
                address: *address,
                bytes: bytes_of(bytes),
            },
            Event::Load { address, length } => Event::Load {
                address: *address,
                length: *length,
            },
            Event::Tick { moment } => Event::Tick { moment: *moment },
            Event::Take { vp } => Event::Take { vp: *vp },
            Event::Suspend { vp } => Event::Suspend { vp: *vp },
            Event::Resume { vp } => Event::Resume { vp: *vp },
            Event::Reset { vp } => Event::Reset { vp: *vp },
            Event::Send { vector, mask } => Event::Send {
                vector: *vector,
                mask: *mask,
            },
        }
    }
}

impl Reply {
    /// A copy of the reply. Writes only the bytes that its variant uses.
    pub fn copy(&self) -> Reply
        ensures { result ≡ self.now }
    {
        match self {
            Reply::Done => Reply::Done,
            Reply::Value(value) => Reply::Value(*value),
            Reply::Bytes(bytes) => Reply::Bytes(bytes_of(bytes)),
            Reply::Taken(vector) => Reply::Taken(*vector),
            Reply::Accepted(ticket) => Reply::Accepted(*ticket),
            Reply::FlagWasClear => Reply::FlagWasClear,
            Reply::FlagWasSet => Reply::FlagWasSet,
            Reply::GeneralProtection => Reply::GeneralProtection,
            Reply::Refused(refusal) => Reply::Refused(*refusal),
        }
    }
}

/// A copy of these bytes.
fn bytes_of<const N: usize>(bytes: &ArrayVec<u8, N>) -> ArrayVec<u8, N>
    ensures { result ≡ bytes.now }
{
    let mut copy = ArrayVec::new();
    let _ = copy.try_extend_from_slice(bytes.as_slice());
    copy
}
