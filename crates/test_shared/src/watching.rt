// What a board publishes, as threads without the lock see it.
ghost use Rattle.std.specs.Prelude.{◌≡◌, [], ◌<◌};
ghost use Rattle.synic_board.specs.State.{processors};
ghost use Rattle.published_words.specs.Words.{words_of, published, no_logs};

use board_terms::{Moment, Notices, Vector, Vp};
use ghost_history::Roster;
use published_words::{PublishedWords, Publisher, Watcher};
use shared_board::{Actor, WatchedBoard, Watching};
use std::alloc::Global;
use std::marker::Brand;
use std::process::Abort;
use std::sync::Wait;
use std::test::*;
use std::thread::{Threads, join};
use synic_board::msr::{EOI, STIMER0_CONFIG, STIMER0_COUNT};
use synic_board::{Board, Event, Reply};

const ROUNDS: u32 = 1_000;

fn write(register: u32, value: u64) -> Event {
    Event::Write {
        vp: 0,
        register,
        value,
    }
}

/// The events, and what the words hold after each: the next vector of processor 0, and the earliest
/// deadline.
fn steps(low: Vector, high: Vector) -> [(Event, u8, Option<Moment>); 9] {
    [
        (Event::Assert { vp: 0, vector: low }, 0x50, None),
        (
            Event::Assert {
                vp: 0,
                vector: high,
            },
            0x61,
            None,
        ),
        (Event::Take { vp: 0 }, 0, None),
        (write(EOI, 0), 0x50, None),
        (write(STIMER0_COUNT, 300), 0x50, None),
        (write(STIMER0_CONFIG, 0x20001), 0x50, Some(300)),
        (Event::Suspend { vp: 0 }, 0, None),
        (Event::Resume { vp: 0 }, 0x50, Some(300)),
        (Event::Take { vp: 0 }, 0, Some(300)),
    ]
}

/// The number of a vector, and 0 if there is none.
fn number_of(next: Option<Vector>) -> u8 {
    next.map_or(0, |vector| vector.number())
}

/// Each change of the next vector and of the deadline is seen at the next poll, and nothing of
/// another processor.
fn see_each_change<S: Watching, R: Wait + Abort>(
    rt: &R,
    alloc: Global,
    shared: &WatchedBoard<S>,
) -> Result<(), Fail>
    requires two { 1 < processors S.start }
{
    let mut notices = Notices::open(alloc)?;
    let mut actor = shared.enroll(rt).ok_or("an actor")?;
    let low = Vector::new(0x50).ok_or("a vector")?;
    let high = Vector::new(0x61).ok_or("a vector")?;
    let words = shared.words();
    // README published_words: begin
    let mut next = words.watch_next(Vp::new(0).unwrap());
    let mut other = words.watch_next(Vp::new(1).unwrap());
    let mut deadline = words.watch_deadline();
    for (event, vector, time) in steps(low, high) {
        let (_, checkpoint) = shared.perform(rt, &mut actor, &event, &mut notices);
        words.catch_up(&mut next, checkpoint);
        assert_eq!(rt; number_of(words.next_vector(&mut next)), vector);
        assert_eq!(rt; words.next_vector(&mut other), None);
        assert_eq!(rt; words.deadline(&mut deadline), time);
    }
    // README published_words: end
    Ok(())
}

fn one_thread<S: Watching, R: Wait + Abort>(
    rt: &R,
    alloc: Global,
    roster: Roster,
    board: Board,
    words: PublishedWords,
    publisher: Publisher,
) -> Result<(), Fail>
    requires name { roster.name ≡ S.name }
    requires empty { roster.rows ≡ [] }
    requires start { board.state ≡ S.start }
    requires two { 1 < processors S.start }
    requires words { words ≡ words_of S.table S.start }
    requires publisher { publisher ≡ published (words_of S.table S.start) (no_logs S.start) }
{
    let shared = WatchedBoard::<S>::share(roster, board, words, publisher);
    see_each_change(rt, alloc, &shared)
}

#[test]
fn each_change_is_seen(rt: HostRuntime) -> Result<(), Fail> {
    let board = Board::open(rt.alloc(), 2, 1, 0)?;
    let (words, publisher) = PublishedWords::open(rt.alloc(), &board)?;
    one_thread::<Brand, _>(&rt, rt.alloc(), Roster::new(), board, words, publisher)
}

/// Requests a vector, takes it and ends it, that many times, and requests it once more.
fn act<S: Watching, R: Wait>(
    rt: &R,
    shared: &WatchedBoard<S>,
    mut actor: Actor<S>,
    mut notices: Notices,
    vector: Vector,
) {
    for _ in 0..ROUNDS {
        for event in [
            Event::Assert { vp: 0, vector },
            Event::Take { vp: 0 },
            write(EOI, 0),
        ] {
            shared.perform(rt, &mut actor, &event, &mut notices);
        }
    }
    shared.perform(
        rt,
        &mut actor,
        &Event::Assert { vp: 0, vector },
        &mut notices,
    );
}

/// Polls that many times. Returns the watcher, and how often there was another vector than 0x50.
fn poll(words: &PublishedWords, mut watcher: Watcher) -> (Watcher, u32)
    requires own { watcher.of ≡ words.now }
    requires word { watcher.word < processors words.now.start }
    ensures own { result.0.of ≡ words.now }
    ensures word { result.0.word ≡ watcher.word }
{
    let mut wrong = 0;
    for _ in 0..ROUNDS {
        let number = number_of(words.next_vector(&mut watcher));
        if number != 0 && number != 0x50 && wrong < ROUNDS {
            wrong += 1;
        }
    }
    (watcher, wrong)
}

/// A thread performs, and another polls.
fn act_and_poll<S: Watching + Send + Sync, R: Threads + Wait + Abort + Sync>(
    rt: &R,
    alloc: Global,
    shared: &WatchedBoard<S>,
) -> Result<(), Fail>
    requires one { 0 < processors S.start }
{
    let notices = Notices::open(alloc)?;
    let vector = Vector::new(0x50).ok_or("a vector")?;
    let actor = shared.enroll(rt).ok_or("an actor")?;
    let words = shared.words();
    let watcher = words.watch_next(Vp::new(0).unwrap());
    let ((), (mut watcher, wrong)) = join(
        rt,
        move || act(rt, shared, actor, notices, vector),
        move || -> (Watcher, u32)
            requires own { watcher.of ≡ words.now }
            requires word { watcher.word < processors words.now.start }
            ensures own { result.0.of ≡ words.entry.now }
            ensures word { result.0.word ≡ watcher.word }
        { poll(words, watcher) },
    );
    assert_eq!(rt; wrong, 0);
    assert_eq!(rt; number_of(words.next_vector(&mut watcher)), 0x50);
    Ok(())
}

fn two_threads<S: Watching + Send + Sync, R: Threads + Wait + Abort + Sync>(
    rt: &R,
    alloc: Global,
    roster: Roster,
    board: Board,
    words: PublishedWords,
    publisher: Publisher,
) -> Result<(), Fail>
    requires name { roster.name ≡ S.name }
    requires empty { roster.rows ≡ [] }
    requires start { board.state ≡ S.start }
    requires one { 0 < processors S.start }
    requires words { words ≡ words_of S.table S.start }
    requires publisher { publisher ≡ published (words_of S.table S.start) (no_logs S.start) }
{
    let shared = WatchedBoard::<S>::share(roster, board, words, publisher);
    act_and_poll(rt, alloc, &shared)
}

#[test]
fn a_thread_polls_what_another_performs(rt: HostRuntime) -> Result<(), Fail> {
    let board = Board::open(rt.alloc(), 1, 1, 0)?;
    let (words, publisher) = PublishedWords::open(rt.alloc(), &board)?;
    two_threads::<Brand, _>(&rt, rt.alloc(), Roster::new(), board, words, publisher)
}

/// A watcher is compared under the lock, and all watchers at the end, after the board was refused
/// without its actor.
fn compare_and_end<S: Watching, R: Wait + Abort>(
    rt: &R,
    alloc: Global,
    shared: WatchedBoard<S>,
) -> Result<(), Fail>
    requires one { 0 < processors S.start }
{
    let mut notices = Notices::open(alloc)?;
    let mut actor = shared.enroll(rt).ok_or("an actor")?;
    let vector = Vector::new(0x50).ok_or("a vector")?;
    let words = shared.words();
    let mut next = words.watch_next(Vp::new(0).unwrap());
    let deadline = words.watch_deadline();
    shared.perform(
        rt,
        &mut actor,
        &Event::Assert { vp: 0, vector },
        &mut notices,
    );
    assert_eq!(rt; number_of(words.next_vector(&mut next)), 0x50);
    shared.lock(rt).compare(words, &mut next);
    let Err((shared, mut actors)) = shared.into_board(Vec::new(alloc)) else {
        return Err(Fail::from("an actor is missing"));
    };
    let count = if actors.push(actor).is_ok() { 1 } else { 0 };
    assert_eq!(rt; actors.len(), count);
    assert!(rt;
        shared
            .into_board_with_watchers(actors, &mut [next, deadline])
            .is_ok()
    );
    Ok(())
}

fn one_board<S: Watching, R: Wait + Abort>(
    rt: &R,
    alloc: Global,
    roster: Roster,
    board: Board,
    words: PublishedWords,
    publisher: Publisher,
) -> Result<(), Fail>
    requires name { roster.name ≡ S.name }
    requires empty { roster.rows ≡ [] }
    requires start { board.state ≡ S.start }
    requires one { 0 < processors S.start }
    requires words { words ≡ words_of S.table S.start }
    requires publisher { publisher ≡ published (words_of S.table S.start) (no_logs S.start) }
{
    let shared = WatchedBoard::<S>::share(roster, board, words, publisher);
    compare_and_end(rt, alloc, shared)
}

#[test]
fn watchers_are_compared_at_the_end(rt: HostRuntime) -> Result<(), Fail> {
    let board = Board::open(rt.alloc(), 1, 1, 0)?;
    let (words, publisher) = PublishedWords::open(rt.alloc(), &board)?;
    one_board::<Brand, _>(&rt, rt.alloc(), Roster::new(), board, words, publisher)
}
