// The board with its lock and its words.
ghost use Rattle.std.specs.Prelude.{◌≡◌, ◌++◌, [], true, IfOk, IfErr, IfSome, All};
ghost use Rattle.posted_words.specs.Words.{token};
ghost use Rattle.published_words.specs.Words.{words_of, published, no_logs, IsWatcher, IsWithin};
ghost use Rattle.synic_board.specs.State.{processors};
ghost use Rattle.synic_board.specs.declared.event.Event.TheVariants.{Absorb};
ghost use Rattle.actor_calls.specs.Sweeps.{is_refusal, sweep_in};
ghost use Rattle.shared_board.specs.Calling.{calling, with_call};
ghost use Rattle.shared_board.specs.Witnessed.{IsAnswered, IsEnded};
ghost use Rattle.shared_board.specs.Publishing.{IsAfter};

use crate::actor::Actor;
use crate::locked::LockedBoard;
use crate::publishing::PublishingBoard;
use crate::shared::Ended;
use crate::watching::Watching;
use board_terms::Notices;
use ghost_history::Roster;
use posted_words::{PostedWords, Sweeper};
use published_words::{Checkpoint, PublishedWords, Publisher, Watcher};
use std::sync::{Mutex, MutexGuard, Wait};
use synic_board::{Board, Event, Reply};

/// A shared board that publishes the next vector of each processor and the earliest deadline, which
/// threads read without the lock. Each call under the lock stores what it changed, at its end.
#[derive(Drop)]
pub struct WatchedBoard<S: Watching> {
    words: PublishedWords,
    locked: Mutex<PublishingBoard<S>>,
    ghost own: { words ≡ words_of S.table S.start },
}

impl<S: Watching> WatchedBoard<S> {
    /// Shares a board in the state that it is in, without actors. `roster` is a new one; the words and
    /// their publisher were opened with the board in this state.
    pub fn share(
        roster: Roster,
        board: Board,
        words: PublishedWords,
        publisher: Publisher,
    ) -> WatchedBoard<S>
        requires name { roster.name ≡ S.name }
        requires empty { roster.rows ≡ [] }
        requires start { board.state ≡ S.start }
        requires words { words ≡ words_of S.table S.start }
        requires publisher { publisher ≡ published (words_of S.table S.start) (no_logs S.start) }
    {
        WatchedBoard {
            words,
            locked: Mutex::new(PublishingBoard::new(LockedBoard::new(roster, board), publisher)),
        }
    }

    /// The words, which watchers load without the lock.
    pub fn words(&self) -> &PublishedWords
        ensures { result.now ≡ words_of S.table S.start }
    {
        &self.words
    }

    /// Acquires the lock, for several events and queries of one moment. Other threads wait until the
    /// guard is dropped; watchers do not.
    pub fn lock<'a, R: Wait>(&'a self, rt: &R) -> MutexGuard<'a, PublishingBoard<S>> {
        self.locked.lock(rt)
    }

    /// Adds an actor, at any time. `None` if there are 2^64 - 1.
    pub fn enroll<R: Wait>(&self, rt: &R) -> Option<Actor<S>>
        ensures { IfSome result (λ a. a.calls ≡ []) }
    {
        let mut guard = self.locked.lock(rt);
        let locked = &mut *guard;
        locked.enroll()
    }

    /// Performs an event under the lock, for an actor, and stores the words whose values it changed.
    /// The notices are the caller's to act on, after the lock is released. A watcher that takes the
    /// checkpoint reads no value from before the call.
    pub fn perform<R: Wait>(
        &self,
        rt: &R,
        actor: &mut Actor<S>,
        event: &Event,
        notices: &mut Notices,
    ) -> (Reply, Checkpoint)
        ensures actor { actor.new ≡ with_call actor.old event.now result.0 notices.new }
        ensures after { IsAfter (words_of S.table S.start) actor.old.number event.now result.0 result.1 }
        ensures answered { IsAnswered S.start actor.old event.now result.0 notices.new }
    {
        let mut guard = self.locked.lock(rt);
        let locked = &mut *guard;
        locked.board();
        let reply = locked.perform(&self.words, actor, event, notices);
        locked.board();
        (reply, locked.checkpoint(&self.words))
    }

    /// Sweeps a part of a processor from the posted words, and performs the absorb of its bits, under
    /// the lock, as `perform` performs an event.
    pub fn absorb<R: Wait>(
        &self,
        rt: &R,
        actor: &mut Actor<S>,
        posted: &PostedWords,
        sweeper: &mut Sweeper,
        vp: u8,
        part: u8,
        notices: &mut Notices,
    ) -> (u64, Reply, Checkpoint)
        requires own { sweeper.old.of ≡ posted.now.name }
        requires processors { posted.now.processors ≡ processors S.start }
        ensures actor { actor.new ≡ with_call actor.old (Absorb vp part result.0) result.1 notices.new }
        ensures swept { sweeper.new
            ≡ token sweeper.old.of (sweep_in (Absorb vp part result.0) result.1 ++ sweeper.old.actions) }
        ensures refused { is_refusal result.1 ≡ true → result.0 ≡ 0 }
        ensures after { IsAfter (words_of S.table S.start) actor.old.number
            (Absorb vp part result.0) result.1 result.2 }
        ensures answered { IsAnswered S.start actor.old (Absorb vp part result.0) result.1 notices.new }
    {
        let mut guard = self.locked.lock(rt);
        let locked = &mut *guard;
        locked.board();
        let (bits, reply) = locked.absorb(&self.words, actor, posted, sweeper, vp, part, notices);
        locked.board();
        (bits, reply, locked.checkpoint(&self.words))
    }

    /// Ends the sharing, as `SharedBoard::into_board` does.
    pub fn into_board(
        self,
        actors: Vec<Actor<S>>,
    ) -> Result<Ended<S>, (WatchedBoard<S>, Vec<Actor<S>>)>
        ensures ended { IfOk result (λ e. IsEnded S.start e.board.state e.history.entries actors.items) }
        ensures actors { IfOk result (λ e. e.actors.items ≡ actors.items) }
        ensures kept { IfErr result (λ r. r.1.items ≡ actors.items) }
    {
        self.into_board_with_watchers(actors, &mut [])
    }

    /// Ends the sharing, with watchers of the words: what each has seen, and its floor, are prefixes of
    /// the history of all calls. Changes no watcher.
    pub fn into_board_with_watchers(
        self,
        actors: Vec<Actor<S>>,
        watchers: &mut [Watcher],
    ) -> Result<Ended<S>, (WatchedBoard<S>, Vec<Actor<S>>)>
        requires watchers { All (λ w. IsWatcher (words_of S.table S.start) w) watchers.old }
        ensures ended { IfOk result (λ e. IsEnded S.start e.board.state e.history.entries actors.items) }
        ensures actors { IfOk result (λ e. e.actors.items ≡ actors.items) }
        ensures same { watchers.new ≡ watchers.old }
        ensures within { IfOk result (λ e. All (λ w. IsWithin e.history.entries w) watchers.old) }
        ensures kept { IfErr result (λ r. r.1.items ≡ actors.items) }
    {
        let WatchedBoard { words, locked } = self;
        let mut locked = locked.into_inner();
        locked.compare_all(&words, watchers);
        match locked.end(actors) {
            Ok(ended) => Ok(ended),
            Err((locked, actors)) => Err((
                WatchedBoard {
                    words,
                    locked: Mutex::new(locked),
                },
                actors,
            )),
        }
    }
}
