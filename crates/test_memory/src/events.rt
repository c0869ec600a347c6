// Events of all kinds: none allocates.
use crate::stopped::{Stopped, ended};
use board_terms::{Notices, PortShape, Vector};
use std::alloc::Global;
use synic_board::{Board, Event, Reply};
use test_steps::{
    EOM, SCONTROL, SIEFP, SIMP, SINT2, are_done, bytes, load, open, open_messages, post,
    start_timer, store, write,
};

/// Enables the SynIC and its pages, and opens a port of each shape.
fn prepared() -> [Event; 6] {
    let flags = PortShape::Flags { base: 0, count: 8 };
    [
        write(0, SCONTROL, 1),
        write(0, SIMP, 0x2001),
        write(0, SIEFP, 0x3001),
        write(0, SINT2, 0x50),
        open_messages(3, 0, 2),
        open(4, 0, flags),
    ]
}

/// At least one event of each kind.
fn events() -> [Event; 20] {
    let vector = Vector::new(0x61).unwrap();
    [
        post(3, &[0x0a]),
        post(3, &[0x0b]),
        load(0x2210, 1),
        store(0x2200, &[0, 0, 0, 0]),
        write(0, EOM, 0),
        load(0x2210, 1),
        Event::Signal { port: 4, flag: 3 },
        Event::Assert { vp: 0, vector },
        Event::Absorb {
            vp: 0,
            part: 1,
            bits: 1 << 40,
        },
        Event::Take { vp: 0 },
        Event::Read {
            vp: 0,
            register: SINT2,
        },
        Event::Tick { moment: 100 },
        Event::Tick { moment: 235 },
        Event::Suspend { vp: 0 },
        Event::Tick { moment: 300 },
        Event::Resume { vp: 0 },
        post(3, &[0x0c]),
        Event::Reset { vp: 0 },
        Event::Send { vector, mask: 1 },
        Event::ClosePort { port: 3 },
    ]
}

fn replies_to_them() -> [Reply; 20] {
    [
        Reply::Accepted(0),
        Reply::Accepted(1),
        Reply::Bytes(bytes(&[0x0a])),
        Reply::Done,
        Reply::Done,
        Reply::Bytes(bytes(&[0x0b])),
        Reply::FlagWasClear,
        Reply::Done,
        Reply::Done,
        Reply::Taken(Vector::new(0x68)),
        Reply::Value(0x50),
        Reply::Done,
        Reply::Done,
        Reply::Done,
        Reply::Done,
        Reply::Done,
        Reply::Accepted(2),
        Reply::Done,
        Reply::Done,
        Reply::Done,
    ]
}

/// Whether each event has the reply at the same index.
fn are_answered(
    board: &mut Board,
    notices: &mut Notices,
    events: &[Event],
    replies: &[Reply],
) -> bool {
    for (event, reply) in events.iter().zip(replies) {
        if board.perform(event, notices) != *reply {
            return false;
        }
    }
    true
}

/// Performing events never allocates, so no run may refuse an allocation here.
pub(crate) fn performed(alloc: Global) -> Result<bool, Stopped> {
    let mut board = Board::open(alloc, 1, 4, 0)?;
    let mut notices = Notices::open(alloc)?;
    let is_ready = are_done(&mut board, &mut notices, &prepared())
        && are_done(&mut board, &mut notices, &start_timer(0, 0, 0x1403, 10));
    ended(is_ready && are_answered(&mut board, &mut notices, &events(), &replies_to_them()))
}
