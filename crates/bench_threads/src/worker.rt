// What a thread owns, and what it does.
ghost use Rattle.std.specs.Prelude.{◌≡◌, ◌≤◌, IfOk};
ghost use Rattle.synic_board.specs.State.{opened};
ghost use Rattle.bench_threads.specs.Own.{IsOwn};

use crate::workload::Job;
use board_terms::{Moment, Vector, Vp};
use board_threads::{Actor, CallFault, Line, Origin, Raised, RecordedBoard};
use std::sync::Wait;
use synic_board::msr::EOI;
use synic_board::{Event, Reply};

/// How many processors a board has.
pub(crate) const PROCESSORS: u8 = 8;

/// How many guest pages a board has.
pub(crate) const PAGES: u8 = 4;

/// A board of that size, with first ticket 0.
pub(crate) struct Measured;

impl Origin for Measured {
    ghost start = { opened 8 4 0 };
}

/// The asserted vector.
const ASSERTED: u8 = 0x60;

/// A thread absorbs one word after this many raises.
const RAISES: u32 = 1024;

/// The actor and the line of a thread, and how many of its calls had the counted effect.
#[derive(Drop)]
pub(crate) struct Worker {
    pub(crate) actor: Actor,
    pub(crate) line: Line,
    /// The raises that were fresh, or the interrupts that were taken.
    pub(crate) counted: u64,
}

/// Does a job, call by call.
pub(crate) fn work<R: Wait>(
    rt: &R,
    board: &RecordedBoard<Measured>,
    job: Job,
    calls: u32,
    worker: Worker,
) -> Result<Worker, CallFault>
    requires own { IsOwn board.now worker }
    requires eight { board.now.processors ≡ 8 }
    ensures { IfOk result (IsOwn board.now) }
{
    match job {
        Job::Raise => raise_all(rt, board, calls, worker),
        Job::Perform => perform_calls(rt, board, calls, worker),
    }
}

/// Raises vectors, 32 over all words before the next 32, and absorbs the words in turn.
#[inline(never)]
fn raise_all<R: Wait>(
    rt: &R,
    board: &RecordedBoard<Measured>,
    calls: u32,
    worker: Worker,
) -> Result<Worker, CallFault>
    requires own { IsOwn board.now worker }
    requires eight { board.now.processors ≡ 8 }
    ensures { IfOk result (IsOwn board.now) }
{
    let Worker {
        mut actor,
        mut line,
        mut counted,
    } = worker;
    for turn in 0..calls {
        if board.raise(&mut line, vp_at(turn), vector_at(turn)) == Raised::Fresh {
            counted = counted.wrapping_add(1);
        }
        if turn % RAISES == 0 {
            let place = (turn / RAISES % 32) as u8;
            board.absorb(rt, &mut actor, place / 4, place % 4)?;
        }
    }
    Ok(Worker {
        actor,
        line,
        counted,
    })
}

/// The processor of a raise.
fn vp_at(turn: u32) -> Vp
    ensures { result ≤ 7 }
{
    Vp::new((turn % 8) as u8).unwrap()
}

/// The vector of a raise.
fn vector_at(turn: u32) -> Vector {
    let part = (turn / 8 % 4) as u8;
    let bit = 16 + (turn / 32 % 32) as u8;
    Vector::new(64 * part + bit).unwrap()
}

/// Performs events.
#[inline(never)]
fn perform_calls<R: Wait>(
    rt: &R,
    board: &RecordedBoard<Measured>,
    calls: u32,
    worker: Worker,
) -> Result<Worker, CallFault>
    requires own { IsOwn board.now worker }
    ensures { IfOk result (IsOwn board.now) }
{
    let Worker {
        mut actor,
        line,
        mut counted,
    } = worker;
    for turn in 0..calls {
        let reply = board.perform(rt, &mut actor, event_at(turn))?;
        if matches!(reply, Reply::Taken(Some(_))) {
            counted = counted.wrapping_add(1);
        }
    }
    Ok(Worker {
        actor,
        line,
        counted,
    })
}

/// The event of a turn: an assert, a take, an EOI and a tick, on one processor after another.
fn event_at(turn: u32) -> Event {
    let vp = (turn / 4 % 8) as u8;
    match turn % 4 {
        0 => Event::Assert {
            vp,
            vector: Vector::new(ASSERTED).unwrap(),
        },
        1 => Event::Take { vp },
        2 => Event::Write {
            vp,
            register: EOI,
            value: 0,
        },
        _ => Event::Tick {
            moment: turn as Moment,
        },
    }
}
