// Threads on one board.
ghost use Rattle.std.specs.Prelude.{◌≡◌, [], ◌<◌};
ghost use Rattle.synic_board.specs.State.{processors};

use board_terms::{Notices, Vector};
use ghost_history::Roster;
use shared_board::{Actor, SharedBoard, Sharing};
use std::alloc::Global;
use std::marker::Brand;
use std::process::Abort;
use std::sync::Wait;
use std::test::*;
use std::thread::{Threads, join};
use synic_board::{Board, Event, Reply};

const ROUNDS: u64 = 1_000;

/// Requests a vector and takes it, that many times. Returns how often a take found it, and the actor.
fn request_and_take<S: Sharing, R: Wait>(
    rt: &R,
    shared: &SharedBoard<S>,
    mut actor: Actor<S>,
    mut notices: Notices,
    vector: Vector,
) -> (u64, Actor<S>) {
    let mut taken = 0;
    // README shared_board: begin
    for _ in 0..ROUNDS {
        shared.perform(
            rt,
            &mut actor,
            &Event::Assert { vp: 0, vector },
            &mut notices,
        );
        let mut guard = shared.lock(rt);
        let locked = &mut *guard;
        if let Reply::Taken(Some(_)) = locked.perform(
            &mut actor,
            &Event::Take { vp: 0 },
            &mut notices,
        ) {
            locked.perform(
                &mut actor,
                &Event::Write {
                    vp: 0,
                    register: 0x4000_0070,
                    value: 0,
                },
                &mut notices,
            );
            if taken < u64::MAX {
                taken += 1;
            }
        }
    }
    // README shared_board: end
    (taken, actor)
}

/// The two actors of a board.
#[derive(Drop)]
struct Pair<S: Sharing> {
    first: Actor<S>,
    second: Actor<S>,
}

/// Two threads on one board.
fn act<S: Sharing + Send + Sync, R: Threads + Wait + Abort + Sync>(
    rt: &R,
    alloc: Global,
    shared: &SharedBoard<S>,
) -> Result<Pair<S>, Fail> {
    let (one, two) = (Notices::open(alloc)?, Notices::open(alloc)?);
    let vector = Vector::new(0x50).ok_or("a vector")?;
    let first = shared.enroll(rt).ok_or("an actor")?;
    let second = shared.enroll(rt).ok_or("an actor")?;
    assert_eq!(rt; (first.number(), second.number()), (0, 1));
    let ((taken, first), (others, second)) = join(
        rt,
        move || request_and_take(rt, shared, first, one, vector),
        move || request_and_take(rt, shared, second, two, vector),
    );
    assert!(rt; taken >= 1 && others >= 1 && taken <= ROUNDS && others <= ROUNDS);
    Ok(Pair { first, second })
}

/// All actors are given back, after one alone was refused.
fn end<S: Sharing, R: Abort>(
    rt: &R,
    alloc: Global,
    shared: SharedBoard<S>,
    pair: Pair<S>,
) -> Result<(), Fail> {
    let Pair { first, second } = pair;
    let Ok(alone) = Vec::from_array(alloc, [first]) else {
        return Err(Fail::from("memory"));
    };
    let Err((shared, mut actors)) = shared.into_board(alone) else {
        return Err(Fail::from("an actor is missing"));
    };
    let count = if actors.push(second).is_ok() { 2 } else { 0 };
    assert_eq!(rt; actors.len(), count);
    assert!(rt; shared.into_board(actors).is_ok());
    Ok(())
}

fn two_threads<S: Sharing + Send + Sync, R: Threads + Wait + Abort + Sync>(
    rt: &R,
    alloc: Global,
    roster: Roster,
    board: Board,
) -> Result<(), Fail>
    requires name { roster.name ≡ S.name }
    requires empty { roster.rows ≡ [] }
    requires start { board.state ≡ S.start }
{
    let shared = SharedBoard::<S>::share(roster, board);
    match act(rt, alloc, &shared) {
        Ok(pair) => end(rt, alloc, shared, pair),
        Err(fail) => Err(fail),
    }
}

#[test]
fn two_threads_share_a_board(rt: HostRuntime) -> Result<(), Fail> {
    let board = Board::open(rt.alloc(), 1, 1, 0)?;
    two_threads::<Brand, _>(&rt, rt.alloc(), Roster::new(), board)
}

#[test]
fn two_threads_share_a_sparse_board(rt: HostRuntime) -> Result<(), Fail> {
    let board = Board::open_sparse(rt.alloc(), 1, 0)?;
    two_threads::<Brand, _>(&rt, rt.alloc(), Roster::new(), board)
}
