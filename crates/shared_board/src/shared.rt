// The board with its lock.
ghost use Rattle.std.specs.Prelude.{◌≡◌, ◌<◌, ◌++◌, [], true, IfOk, IfErr, IfSome, All, length, map};
ghost use Rattle.std.specs.List.{range_with_len};
ghost use Rattle.posted_words.specs.Words.{token};
ghost use Rattle.synic_board.specs.State.{processors};
ghost use Rattle.synic_board.specs.declared.event.Event.TheVariants.{Absorb};
ghost use Rattle.actor_calls.specs.Sweeps.{is_refusal, sweep_in};
ghost use Rattle.shared_board.specs.Calling.{calling, with_call};
ghost use Rattle.shared_board.specs.Witnessed.{IsAnswered, IsEnded};

use crate::actor::Actor;
use crate::locked::LockedBoard;
use crate::sharing::Sharing;
use board_terms::Notices;
use ghost_history::{History, Roster};
use posted_words::{PostedWords, Sweeper};
use std::sync::{Mutex, MutexGuard, Wait};
use synic_board::{Board, Event, Reply};

/// A board that threads share by reference. It takes no memory beyond the board's.
#[derive(Drop)]
pub struct SharedBoard<S: Sharing> {
    locked: Mutex<LockedBoard<S>>,
}

/// A board that is no longer shared, with the history of all calls, which exists only in contracts,
/// and its actors.
#[derive(Drop)]
pub struct Ended<S: Sharing> {
    pub board: Board,
    pub history: History,
    pub actors: Vec<Actor<S>>,
}

impl<S: Sharing> SharedBoard<S> {
    /// Shares a board in the state that it is in, without actors. `roster` is a new one.
    pub fn share(roster: Roster, board: Board) -> SharedBoard<S>
        requires name { roster.name ≡ S.name }
        requires empty { roster.rows ≡ [] }
        requires start { board.state ≡ S.start }
    {
        SharedBoard {
            locked: Mutex::new(LockedBoard::new(roster, board)),
        }
    }

    /// Acquires the lock, for several events and queries of one moment. Other threads wait until the
    /// guard is dropped.
    pub fn lock<'a, R: Wait>(&'a self, rt: &R) -> MutexGuard<'a, LockedBoard<S>> {
        self.locked.lock(rt)
    }

    /// Adds an actor, at any time. `None` if there are 2^64 - 1.
    pub fn enroll<R: Wait>(&self, rt: &R) -> Option<Actor<S>>
        ensures { IfSome result (λ a. a.calls ≡ []) }
    {
        let mut guard = self.locked.lock(rt);
        let locked = &mut *guard;
        locked.enroll()
    }

    /// Performs an event under the lock, for an actor. The notices are the caller's to act on, after
    /// the lock is released.
    pub fn perform<R: Wait>(
        &self,
        rt: &R,
        actor: &mut Actor<S>,
        event: &Event,
        notices: &mut Notices,
    ) -> Reply
        ensures actor { actor.new ≡ with_call actor.old event.now result notices.new }
        ensures answered { IsAnswered S.start actor.old event.now result notices.new }
    {
        let mut guard = self.locked.lock(rt);
        let locked = &mut *guard;
        locked.board();
        locked.perform(actor, event, notices)
    }

    /// Sweeps a part of a processor from the posted words, and performs the absorb of its bits, under
    /// the lock, as `LockedBoard::absorb` does.
    pub fn absorb<R: Wait>(
        &self,
        rt: &R,
        actor: &mut Actor<S>,
        words: &PostedWords,
        sweeper: &mut Sweeper,
        vp: u8,
        part: u8,
        notices: &mut Notices,
    ) -> (u64, Reply)
        requires own { sweeper.old.of ≡ words.now.name }
        requires processors { words.now.processors ≡ processors S.start }
        ensures actor { actor.new ≡ with_call actor.old (Absorb vp part result.0) result.1 notices.new }
        ensures swept { sweeper.new
            ≡ token sweeper.old.of (sweep_in (Absorb vp part result.0) result.1 ++ sweeper.old.actions) }
        ensures refused { is_refusal result.1 ≡ true → result.0 ≡ 0 }
        ensures answered { IsAnswered S.start actor.old (Absorb vp part result.0) result.1 notices.new }
    {
        let mut guard = self.locked.lock(rt);
        let locked = &mut *guard;
        locked.board();
        locked.absorb(actor, words, sweeper, vp, part, notices)
    }

    /// Ends the sharing. With all its actors, in the order of their numbers, the history is what one
    /// thread could have done, in which each actor finds its own calls, and there are no others. `Err`
    /// returns everything if an actor is missing or out of order.
    pub fn into_board(
        self,
        actors: Vec<Actor<S>>,
    ) -> Result<Ended<S>, (SharedBoard<S>, Vec<Actor<S>>)>
        ensures ended { IfOk result (λ e. IsEnded S.start e.board.state e.history.entries actors.items) }
        ensures actors { IfOk result (λ e. e.actors.items ≡ actors.items) }
        ensures kept { IfErr result (λ r. r.1.items ≡ actors.items) }
    {
        let SharedBoard { locked } = self;
        match locked.into_inner().end(actors) {
            Ok(ended) => Ok(ended),
            Err((locked, actors)) => Err((
                SharedBoard {
                    locked: Mutex::new(locked),
                },
                actors,
            )),
        }
    }
}
