// Opening and closing ports, and flags at the limits of their ranges.
ghost use Rattle.std.specs.Prelude.{◌≤◌};

use crate::steps::{Other, Part, first_other};
use board_terms::{PortShape, Refusal};
use event_ports::{Port, Ports};
use std::alloc::{AllocError, Global};

/// A call of the ports.
#[derive(Clone, Copy)]
pub(crate) enum Call {
    Open(u8, u8, u8, PortShape),
    Target(u8),
    MessageTarget(u8, u32),
    FlagPlace(u8, u16),
    Close(u8),
}

/// The answer of a call: a port by its processor, source and shape; a flag by processor, source and
/// number.
#[derive(Clone, Copy, PartialEq, Debug)]
pub(crate) enum Answer {
    Opened,
    Port(u8, u8, PortShape),
    Flag(u8, u8, u16),
    Refused(Refusal),
}

use Answer::{Flag, Opened, Refused};
use Call::{Close, FlagPlace, MessageTarget, Open, Target};

fn answer_of(target: Result<Port, Refusal>) -> Answer {
    match target {
        Ok(port) => Answer::Port(port.vp.number(), port.sint.number(), port.shape),
        Err(refusal) => Refused(refusal),
    }
}

impl Part for Ports {
    type Call = Call;

    type Answer = Answer;

    fn ask(&mut self, call: Call) -> Option<Answer> {
        // README event_ports: begin
        Some(match call {
            Open(port, vp, sint, shape) => match self.open_port(port, vp, sint, shape) {
                Ok(()) => Opened,
                Err(refusal) => Refused(refusal),
            },
            Target(port) => answer_of(self.target(port)),
            MessageTarget(port, kind) => answer_of(self.message_target(port, kind)),
            FlagPlace(port, flag) => match self.flag_place(port, flag) {
                Ok((vp, sint, place)) => Flag(vp.number(), sint.number(), place),
                Err(refusal) => Refused(refusal),
            },
            Close(port) => answer_of(self.close_port(port)),
        })
        // README event_ports: end
    }
}

const TWO_BUFFERS: PortShape = PortShape::Messages { buffers: 2 };

const EIGHT_FLAGS: PortShape = PortShape::Flags { base: 0, count: 8 };

/// On a board of one processor.
const EACH_CALL: [(Call, Answer); 20] = [
    // README event_ports: begin
    (Open(16, 0, 2, TWO_BUFFERS), Refused(Refusal::UnknownPort)),
    (Open(3, 0, 2, TWO_BUFFERS), Opened),
    (Open(3, 0, 2, TWO_BUFFERS), Refused(Refusal::PortOpen)),
    (Open(5, 1, 2, TWO_BUFFERS), Refused(Refusal::BadTarget)),
    (Open(5, 0, 16, TWO_BUFFERS), Refused(Refusal::BadTarget)),
    (Open(4, 0, 2, EIGHT_FLAGS), Opened),
    (Target(3), Answer::Port(0, 2, TWO_BUFFERS)),
    (Target(4), Answer::Port(0, 2, EIGHT_FLAGS)),
    (Target(16), Refused(Refusal::UnknownPort)),
    (MessageTarget(3, 1), Answer::Port(0, 2, TWO_BUFFERS)),
    (MessageTarget(3, 0), Refused(Refusal::BadType)),
    (MessageTarget(3, 0x8000_0010), Refused(Refusal::BadType)),
    (MessageTarget(4, 1), Refused(Refusal::WrongKind)),
    (FlagPlace(4, 3), Flag(0, 2, 3)),
    (FlagPlace(4, 8), Refused(Refusal::BadFlag)),
    (FlagPlace(3, 0), Refused(Refusal::WrongKind)),
    (FlagPlace(5, 0), Refused(Refusal::UnknownPort)),
    (Close(3), Answer::Port(0, 2, TWO_BUFFERS)),
    (Close(3), Refused(Refusal::UnknownPort)),
    (Open(3, 0, 2, EIGHT_FLAGS), Opened),
    // README event_ports: end
];

/// The first call that the ports of a board answer in another way.
fn other(
    alloc: Global,
    processors: u8,
    is_sparse: bool,
    steps: &[(Call, Answer)],
) -> Result<Option<Other<Answer>>, AllocError>
    requires some { 1 ≤ processors }
    requires bound { processors ≤ 64 }
{
    Ok(first_other(&mut Ports::open(alloc, processors, is_sparse)?, steps))
}

#[test]
fn each_call_once(rt: HostRuntime) {
    for is_sparse in [false, true] {
        assert_eq!(rt; other(rt.alloc(), 1, is_sparse, &EACH_CALL), Ok(None));
    }
}

const LAST_FLAG: PortShape = PortShape::Flags {
    base: 2047,
    count: 1,
};

const ALL_FLAGS: PortShape = PortShape::Flags {
    base: 0,
    count: 2048,
};

/// On a board of 64 processors.
const EDGES: [(Call, Answer); 15] = [
    (Open(0, 63, 15, LAST_FLAG), Opened),
    (FlagPlace(0, 0), Flag(63, 15, 2047)),
    (FlagPlace(0, 1), Refused(Refusal::BadFlag)),
    (Open(1, 63, 15, ALL_FLAGS), Opened),
    (FlagPlace(1, 2047), Flag(63, 15, 2047)),
    (
        Open(
            2,
            63,
            15,
            PortShape::Flags {
                base: 2047,
                count: 2,
            },
        ),
        Refused(Refusal::BadTarget),
    ),
    (
        Open(2, 63, 15, PortShape::Flags { base: 0, count: 0 }),
        Refused(Refusal::BadTarget),
    ),
    (
        Open(
            2,
            63,
            15,
            PortShape::Flags {
                base: 2048,
                count: 1,
            },
        ),
        Refused(Refusal::BadTarget),
    ),
    (
        Open(
            2,
            63,
            15,
            PortShape::Flags {
                base: 65535,
                count: 65535,
            },
        ),
        Refused(Refusal::BadTarget),
    ),
    (
        Open(2, 63, 15, PortShape::Messages { buffers: 0 }),
        Refused(Refusal::BadTarget),
    ),
    (
        Open(2, 63, 15, PortShape::Messages { buffers: 17 }),
        Refused(Refusal::BadTarget),
    ),
    (
        Open(2, 63, 15, PortShape::Messages { buffers: 255 }),
        Refused(Refusal::BadTarget),
    ),
    (
        Open(2, 64, 15, PortShape::Messages { buffers: 16 }),
        Refused(Refusal::BadTarget),
    ),
    (Open(2, 63, 15, PortShape::Messages { buffers: 16 }), Opened),
    (Open(15, 63, 15, PortShape::Messages { buffers: 1 }), Opened),
];

#[test]
fn the_edges(rt: HostRuntime) {
    assert_eq!(rt; other(rt.alloc(), 64, true, &EDGES), Ok(None));
}

const ONE_BUFFER: PortShape = PortShape::Messages { buffers: 1 };

const SIXTEEN_BUFFERS: PortShape = PortShape::Messages { buffers: 16 };

/// Four ports for each processor of a sparse board, if these are more than 16.
const LAST_PORTS: [(u8, bool, u8, Answer); 10] = [
    (8, false, 15, Opened),
    (8, false, 16, Refused(Refusal::UnknownPort)),
    (4, true, 15, Opened),
    (4, true, 16, Refused(Refusal::UnknownPort)),
    (5, true, 19, Opened),
    (5, true, 20, Refused(Refusal::UnknownPort)),
    (8, true, 31, Opened),
    (8, true, 32, Refused(Refusal::UnknownPort)),
    (63, true, 252, Refused(Refusal::UnknownPort)),
    (64, true, 255, Opened),
];

#[test]
fn the_last_port(rt: HostRuntime) {
    for (processors, is_sparse, port, answer) in LAST_PORTS {
        if processors < 1 || processors > 64 {
            return;
        }
        let step = (Open(port, 0, 2, ONE_BUFFER), answer);
        assert_eq!(rt; other(rt.alloc(), processors, is_sparse, &[step]), Ok(None));
    }
}

/// The ports of processor 3 get all their 256 buffers, and another processor its own; a closed port
/// gives its buffers back.
fn fill(ports: &mut Ports) -> Option<u8> {
    for port in 0..16 {
        if ports.open_port(port, 3, port, SIXTEEN_BUFFERS).is_err() {
            return Some(port);
        }
    }
    None
}

const FULL: [(Call, Answer); 11] = [
    (Open(16, 3, 0, ONE_BUFFER), Refused(Refusal::BadTarget)),
    (Open(16, 3, 0, EIGHT_FLAGS), Opened),
    (Open(17, 2, 0, SIXTEEN_BUFFERS), Opened),
    (Close(7), Answer::Port(3, 7, SIXTEEN_BUFFERS)),
    (Open(18, 3, 0, TWO_BUFFERS), Opened),
    (Open(7, 3, 7, SIXTEEN_BUFFERS), Refused(Refusal::BadTarget)),
    (Open(7, 3, 7, PortShape::Messages { buffers: 14 }), Opened),
    (Close(16), Answer::Port(3, 0, EIGHT_FLAGS)),
    (Open(16, 3, 0, ONE_BUFFER), Refused(Refusal::BadTarget)),
    (Close(18), Answer::Port(3, 0, TWO_BUFFERS)),
    (Open(16, 3, 0, TWO_BUFFERS), Opened),
];

fn full(alloc: Global) -> Result<(Option<u8>, Option<Other<Answer>>), AllocError> {
    let mut ports = Ports::open(alloc, 5, true)?;
    Ok((fill(&mut ports), first_other(&mut ports, &FULL)))
}

#[test]
fn a_processor_has_256_buffers(rt: HostRuntime) {
    assert_eq!(rt; full(rt.alloc()), Ok((None, None)));
}
