// Running and timing a workload.
ghost use Rattle.std.specs.Prelude.{◌≡◌, []};

use crate::worker::{Worker, perform_calls, two};
use bench_cli::Fault;
use board_terms::Notices;
use ghost_history::Roster;
use shared_board::{SharedBoard, Sharing};
use std::alloc::AllocError;
use std::marker::Brand;
use std::sync::Wait;
use std::thread::{Threads, join};
use std::time::{Duration, Instant};
use synic_board::Board;

pub(crate) const PROCESSORS: u8 = 8;

pub(crate) const PAGES: u8 = 4;

/// How many interrupts were taken, or polls found a vector, and the time.
#[derive(Clone, Copy)]
pub(crate) struct Measured {
    pub(crate) counted: u64,
    nanoseconds: u64,
}

impl Measured {
    pub(crate) fn new(counted: u64, elapsed: Duration) -> Measured {
        let seconds = elapsed.as_secs().saturating_mul(1_000_000_000);
        let nanoseconds = seconds.saturating_add(elapsed.subsec_nanos() as u64);
        Measured {
            counted,
            nanoseconds,
        }
    }

    /// Nanoseconds per call of one thread, and tenths of them.
    pub(crate) fn time_per_call(&self, calls: u32) -> (u64, u64) {
        let tenths = self.nanoseconds.saturating_mul(10);
        let tenths = tenths.checked_div(calls as u64).unwrap_or(0);
        (tenths / 10, tenths % 10)
    }
}

/// Has each of 1, 2 or 4 threads make that many calls on one board.
pub(crate) fn measure<R: Threads + Wait + Sync>(
    rt: &HostRuntime,
    threads: &R,
    count: u8,
    calls: u32,
) -> Result<Measured, Fault> {
    let board = Board::open(rt.alloc(), PROCESSORS, PAGES, 0)?;
    measure_on::<Brand, R>(rt, threads, Roster::new(), board, count, calls)
}

/// An actor with its buffer.
fn enroll<S: Sharing, R: Wait>(
    rt: &HostRuntime,
    threads: &R,
    shared: &SharedBoard<S>,
) -> Result<Worker<S>, AllocError> {
    let Some(actor) = shared.enroll(threads) else {
        return Err(AllocError);
    };
    let notices = Notices::open(rt.alloc())?;
    Ok(Worker {
        actor,
        notices,
        counted: 0,
    })
}

/// Two actors.
fn enroll_two<S: Sharing, R: Wait>(
    rt: &HostRuntime,
    threads: &R,
    shared: &SharedBoard<S>,
) -> Result<(Worker<S>, Worker<S>), AllocError> {
    let first = enroll(rt, threads, shared)?;
    let second = enroll(rt, threads, shared)?;
    Ok((first, second))
}

/// The same on a board that is given.
fn measure_on<S: Sharing + Send + Sync, R: Threads + Wait + Sync>(
    rt: &HostRuntime,
    threads: &R,
    roster: Roster,
    board: Board,
    count: u8,
    calls: u32,
) -> Result<Measured, Fault>
    requires name { roster.name ≡ S.name }
    requires empty { roster.rows ≡ [] }
    requires start { board.state ≡ S.start }
{
    let shared = SharedBoard::<S>::share(roster, board);
    match count {
        1 => run_one(rt, threads, &shared, calls),
        2 => run_two(rt, threads, &shared, calls),
        _ => run_four(rt, threads, &shared, calls),
    }
}

/// Only the threads' work is timed.
fn run_one<S: Sharing, R: Wait>(
    rt: &HostRuntime,
    threads: &R,
    shared: &SharedBoard<S>,
    calls: u32,
) -> Result<Measured, Fault> {
    let worker = enroll(rt, threads, shared)?;
    let start = Instant::now(rt)?;
    let counted = perform_calls(threads, shared, calls, worker).counted;
    Ok(Measured::new(counted, start.elapsed(rt)?))
}

fn run_two<S: Sharing + Send + Sync, R: Threads + Wait + Sync>(
    rt: &HostRuntime,
    threads: &R,
    shared: &SharedBoard<S>,
    calls: u32,
) -> Result<Measured, Fault> {
    let workers = enroll_two(rt, threads, shared)?;
    let start = Instant::now(rt)?;
    let counted = two(threads, shared, calls, workers).0.counted;
    Ok(Measured::new(counted, start.elapsed(rt)?))
}

fn run_four<S: Sharing + Send + Sync, R: Threads + Wait + Sync>(
    rt: &HostRuntime,
    threads: &R,
    shared: &SharedBoard<S>,
    calls: u32,
) -> Result<Measured, Fault> {
    let workers = enroll_two(rt, threads, shared)?;
    let others = enroll_two(rt, threads, shared)?;
    let start = Instant::now(rt)?;
    let counted = four(threads, shared, calls, workers, others);
    Ok(Measured::new(counted, start.elapsed(rt)?))
}

/// Four threads at once; how many interrupts the first one took.
fn four<S: Sharing + Send + Sync, R: Threads + Wait + Sync>(
    threads: &R,
    shared: &SharedBoard<S>,
    calls: u32,
    workers: (Worker<S>, Worker<S>),
    others: (Worker<S>, Worker<S>),
) -> u64 {
    let (pair, _others) = join(
        threads,
        move || two(threads, shared, calls, workers),
        move || two(threads, shared, calls, others),
    );
    pair.0.counted
}
