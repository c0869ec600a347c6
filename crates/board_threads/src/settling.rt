// Validation when the threads have ended.
ghost use Rattle.std.specs.Prelude.{◌≡◌, ◌≢◌, IsTrue, IfOk, All, length, map};
ghost use Rattle.std.specs.List.{sum_by};
ghost use Rattle.posted_words.specs.Words.{token};
ghost use Rattle.actor_calls.specs.Calls.{calls_by};
ghost use Rattle.actor_calls.specs.Sweeps.{sweeps_of};
ghost use Rattle.board_threads.specs.Settling.{HaveOwnNumbers, AreAllOf, calls_held, calls_given};
ghost use Rattle.board_threads.specs.Sharing.{Acting};

use crate::actor::Actor;
use posted_words::{GatherFault, Standing, Sweeper};
use std::alloc::{AllocError, Global};
use synic_board::{Board, Entry, Event, Reply};
use thiserror::Error;

/// Why a board could not be settled. The board, the actors and the lines are dropped.
#[derive(Clone, Copy, PartialEq, Eq, Debug, Drop, Error)]
pub enum SettleFault {
    /// An actor or a line is missing, or the history is not exactly the calls of these actors. An
    /// actor's call on another board is found only where the lists of calls or their totals differ.
    #[error("the actors are not those of the board")]
    Mismatch = 1,
    /// An allocation failed.
    #[error("out of memory")]
    Memory = 2,
}

impl From<AllocError> for SettleFault {
    fn from(_: AllocError) -> SettleFault {
        SettleFault::Memory
    }
}

impl From<GatherFault> for SettleFault {
    fn from(fault: GatherFault) -> SettleFault {
        match fault {
            GatherFault::Missing => SettleFault::Mismatch,
            GatherFault::Memory => SettleFault::Memory,
        }
    }
}

/// An actor that has ended: its number and its calls.
#[derive(Drop)]
pub struct ActorCalls {
    pub number: u8,
    pub calls: Vec<(Event, Reply)>,
}

/// The result of settling a shared board: the board, the history that led to it, the calls of each
/// actor, and the raised vectors that no absorb took.
#[derive(Drop)]
pub struct Ended {
    pub board: Board,
    pub history: Vec<Entry>,
    pub actors: Vec<ActorCalls>,
    pub standing: Standing,
}

/// The sweepers of all actors, and their calls.
pub(crate) fn split_all(
    alloc: Global,
    actors: Vec<Actor>,
) -> Result<(Vec<Sweeper>, Vec<ActorCalls>), AllocError>
    ensures sweepers { IfOk result (λ r. r.0.items ≡ map (λ (a : Acting). token a.of a.actions) actors.items) }
    ensures actors { IfOk result (λ r. map calls_given r.1.items ≡ map calls_held actors.items) }
    ensures sweeps { IfOk result (λ _. All (λ (a : Acting). a.actions ≡ sweeps_of a.calls) actors.items) }
{
    let mut sweepers = Vec::new(alloc);
    let mut ended = Vec::new(alloc);
    for actor in actors {
        sweepers.reserve(1)?;
        ended.reserve(1)?;
        let (sweeper, calls) = actor.into_parts();
        sweepers.push_reserved(sweeper);
        ended.push_reserved(calls);
    }
    Ok((sweepers, ended))
}

/// Whether a history is exactly the calls of these actors.
pub(crate) fn are_all_of(history: &[Entry], actors: &[ActorCalls]) -> bool
    ensures { IsTrue result → AreAllOf history.now actors.now }
{
    have_own_numbers(actors) && all_match(history, actors) && add_up(actors, history.len())
}

fn have_own_numbers(actors: &[ActorCalls]) -> bool
    ensures { IsTrue result → HaveOwnNumbers actors.now }
{
    match actors {
        [] => true,
        [first, rest @ ..] => is_new(first.number, rest) && have_own_numbers(rest),
    }
}

fn is_new(number: u8, actors: &[ActorCalls]) -> bool
    ensures { IsTrue result → All (λ b. b.number ≢ number) actors.now }
{
    for actor in actors {
        if actor.number == number {
            return false;
        }
    }
    true
}

fn all_match(history: &[Entry], actors: &[ActorCalls]) -> bool
    ensures { IsTrue result → All (λ a. calls_by a.number history.now ≡ a.calls.items) actors.now }
{
    for actor in actors {
        if !matches(history, actor) {
            return false;
        }
    }
    true
}

/// Whether the entries with an actor's number are its calls, in its order.
fn matches(history: &[Entry], actor: &ActorCalls) -> bool
    ensures { IsTrue result → calls_by actor.now.number history.now ≡ actor.now.calls.items }
{
    let calls = actor.calls.as_slice();
    let mut next = 0;
    for entry in history {
        if entry.actor == actor.number {
            if next >= calls.len() {
                return false;
            }
            let (event, reply) = &calls[next];
            if entry.event != *event || entry.reply != *reply {
                return false;
            }
            next += 1;
        }
    }
    next == calls.len()
}

/// Whether the actors made that many calls together.
fn add_up(actors: &[ActorCalls], count: usize) -> bool
    ensures { IsTrue result → sum_by (λ a. length a.calls.items) actors.now ≡ count }
{
    let mut left = count;
    for actor in actors {
        if actor.calls.len() > left {
            return false;
        }
        left -= actor.calls.len();
    }
    left == 0
}
