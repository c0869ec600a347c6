// The workers of a board, and their threads.
ghost use Rattle.std.specs.Prelude.{◌≡◌, IfOk, All};
ghost use Rattle.std.specs.Thread.{IsSync};
ghost use Rattle.bench_threads.specs.Own.{IsOwn, IsOwnActor, IsOwnLine};

use crate::faults::Fault;
use crate::worker::{Measured, PAGES, PROCESSORS, Worker, work};
use crate::workload::Job;
use board_threads::{Actor, CallFault, Line, OpenFault, RecordedBoard};
use std::alloc::{AllocError, Global};
use std::sync::Wait;
use std::thread::{Threads, join};

/// The workers of a board, taken apart, and the sum of their counts.
#[derive(Drop)]
pub(crate) struct Parts {
    pub(crate) actors: Vec<Actor>,
    pub(crate) lines: Vec<Line>,
    pub(crate) counted: u64,
}

/// A board with that many workers.
pub(crate) fn open(
    alloc: Global,
    count: u8,
) -> Result<(RecordedBoard<Measured>, Vec<Worker>), Fault>
    ensures eight { IfOk result (λ r. r.0.processors ≡ 8) }
    ensures own { IfOk result (λ r. All (IsOwn r.0) r.1.items) }
{
    let (board, actors, lines) = open_parts(alloc, count)?;
    let workers = pair(alloc, &board, actors, lines)?;
    Ok((board, workers))
}

/// A board with that many actors and lines.
fn open_parts(
    alloc: Global,
    count: u8,
) -> Result<(RecordedBoard<Measured>, Vec<Actor>, Vec<Line>), OpenFault>
    ensures eight { IfOk result (λ r. r.0.processors ≡ 8) }
    ensures actors { IfOk result (λ r. All (IsOwnActor r.0) r.1.items) }
    ensures lines { IfOk result (λ r. All (IsOwnLine r.0) r.2.items) }
{
    match RecordedBoard::open(alloc, PROCESSORS, PAGES, 0, count, count) {
        Ok(opened) => Ok(opened),
        Err(fault) => Err(fault),
    }
}

/// A worker of each actor, with a line.
fn pair(
    alloc: Global,
    board: &RecordedBoard<Measured>,
    actors: Vec<Actor>,
    mut lines: Vec<Line>,
) -> Result<Vec<Worker>, AllocError>
    requires actors { All (IsOwnActor board.now) actors.items }
    requires lines { All (IsOwnLine board.now) lines.items }
    ensures { IfOk result (λ v. All (IsOwn board.now) v.items) }
{
    let mut workers = Vec::new(alloc);
    for actor in actors {
        if let Some(line) = lines.pop() {
            workers.push(Worker {
                actor,
                line,
                counted: 0,
            })?;
        }
    }
    Ok(workers)
}

/// Runs the job of each worker in a thread of its own, started by halves.
pub(crate) fn run<R: Threads + Wait + Sync>(
    rt: &R,
    board: &RecordedBoard<Measured>,
    job: Job,
    calls: u32,
    mut workers: Vec<Worker>,
) -> Result<Vec<Worker>, CallFault>
    requires own { All (IsOwn board.now) workers.items }
    requires eight { board.now.processors ≡ 8 }
    ensures { IfOk result (λ v. All (IsOwn board.now) v.items) }
{
    if workers.len() >= 2 {
        let half = workers.len() / 2;
        let Ok(others) = workers.split_off(half) else {
            return Err(CallFault::Memory);
        };
        let (first, second) = join(
            rt,
            move || -> Result<Vec<Worker>, CallFault>
                requires { IsSync R.row × (board.now.processors ≡ 8) × All (IsOwn board.now) workers.items }
                ensures { IfOk result (λ v. All (IsOwn board.entry.now) v.items) }
            { run(rt, board, job, calls, workers) },
            move || -> Result<Vec<Worker>, CallFault>
                requires { IsSync R.row × (board.now.processors ≡ 8) × All (IsOwn board.now) others.items }
                ensures { IfOk result (λ v. All (IsOwn board.entry.now) v.items) }
            { run(rt, board, job, calls, others) },
        );
        let mut ended = first?;
        let mut rest = second?;
        if ended.append(&mut rest).is_err() {
            return Err(CallFault::Memory);
        }
        return Ok(ended);
    }
    let Some(worker) = workers.pop() else {
        return Ok(workers);
    };
    let worker = work(rt, board, job, calls, worker)?;
    if workers.push(worker).is_err() {
        return Err(CallFault::Memory);
    }
    Ok(workers)
}

/// Takes workers apart.
pub(crate) fn split(
    alloc: Global,
    board: &RecordedBoard<Measured>,
    workers: Vec<Worker>,
) -> Result<Parts, AllocError>
    requires { All (IsOwn board.now) workers.items }
    ensures actors { IfOk result (λ p. All (IsOwnActor board.now) p.actors.items) }
    ensures lines { IfOk result (λ p. All (IsOwnLine board.now) p.lines.items) }
{
    let mut actors = Vec::new(alloc);
    let mut lines = Vec::new(alloc);
    let mut total = 0u64;
    for Worker {
        actor,
        line,
        counted,
    } in workers {
        actors.push(actor)?;
        lines.push(line)?;
        total = total.wrapping_add(counted);
    }
    Ok(Parts {
        actors,
        lines,
        counted: total,
    })
}
