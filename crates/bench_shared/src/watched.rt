// Calls and polls of a watched board, by one thread.
ghost use Rattle.std.specs.Prelude.{◌≡◌, []};
ghost use Rattle.published_words.specs.Words.{words_of, published, no_logs};

use crate::measure::{Measured, PAGES, PROCESSORS};
use crate::worker::event_at;
use bench_cli::Fault;
use board_terms::{Notices, Vp};
use ghost_history::Roster;
use published_words::{PublishedWords, Publisher};
use shared_board::{Actor, WatchedBoard, Watching};
use std::alloc::AllocError;
use std::marker::Brand;
use std::sync::Wait;
use std::time::Instant;
use synic_board::{Board, Reply};

/// Times that many calls on a watched board, or that many polls of its next vector.
pub(crate) fn measure_watched<R: Wait>(
    rt: &HostRuntime,
    threads: &R,
    polls: bool,
    calls: u32,
) -> Result<Measured, Fault> {
    let board = Board::open(rt.alloc(), PROCESSORS, PAGES, 0)?;
    let (words, publisher) = PublishedWords::open(rt.alloc(), &board)?;
    watch::<Brand, R>(
        rt,
        threads,
        Roster::new(),
        board,
        words,
        publisher,
        polls,
        calls,
    )
}

fn watch<S: Watching, R: Wait>(
    rt: &HostRuntime,
    threads: &R,
    roster: Roster,
    board: Board,
    words: PublishedWords,
    publisher: Publisher,
    polls: bool,
    calls: u32,
) -> Result<Measured, Fault>
    requires name { roster.name ≡ S.name }
    requires empty { roster.rows ≡ [] }
    requires start { board.state ≡ S.start }
    requires words { words ≡ words_of S.table S.start }
    requires publisher { publisher ≡ published (words_of S.table S.start) (no_logs S.start) }
{
    let shared = WatchedBoard::<S>::share(roster, board, words, publisher);
    run(rt, threads, &shared, polls, calls)
}

fn run<S: Watching, R: Wait>(
    rt: &HostRuntime,
    threads: &R,
    shared: &WatchedBoard<S>,
    polls: bool,
    calls: u32,
) -> Result<Measured, Fault> {
    let mut notices = Notices::open(rt.alloc())?;
    let Some(mut actor) = shared.enroll(threads) else {
        return Err(Fault::from(AllocError));
    };
    // The first event asserts a vector of processor 0, which the polls find.
    shared.perform(threads, &mut actor, &event_at(0), &mut notices);
    let start = Instant::now(rt)?;
    let counted = if polls {
        poll(shared, calls)
    } else {
        perform_calls(threads, shared, &mut actor, &mut notices, calls)
    };
    Ok(Measured::new(counted, start.elapsed(rt)?))
}

/// Performs events; how many interrupts were taken.
#[inline(never)]
fn perform_calls<S: Watching, R: Wait>(
    rt: &R,
    shared: &WatchedBoard<S>,
    actor: &mut Actor<S>,
    notices: &mut Notices,
    calls: u32,
) -> u64 {
    let mut taken = 0u64;
    for turn in 0..calls {
        let (reply, _) = shared.perform(rt, actor, &event_at(turn), notices);
        if matches!(reply, Reply::Taken(Some(_))) {
            taken = taken.wrapping_add(1);
        }
    }
    taken
}

/// Polls the next vector of processor 0; how many polls found one.
#[inline(never)]
fn poll<S: Watching>(shared: &WatchedBoard<S>, calls: u32) -> u64 {
    let words = shared.words();
    if words.processors() == 0 {
        return 0;
    }
    let mut watcher = words.watch_next(Vp::new(0).unwrap());
    let mut found = 0u64;
    for _ in 0..calls {
        if words.next_vector(&mut watcher).is_some() {
            found = found.wrapping_add(1);
        }
    }
    found
}
