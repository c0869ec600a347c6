// What is under the lock of a watched board.
ghost use Rattle.std.specs.Prelude.{◌≡◌, ◌+◌, ◌-◌, ◌^◌, ◌++◌, [], IfSome, IfNone, IfOk, IfErr, All, true};
ghost use Rattle.posted_words.specs.Words.{token};
ghost use Rattle.published_words.specs.Words.{words_of, published, no_logs, IsWatcher, IsWithin};
ghost use Rattle.published_words.specs.Storing.{IsStored, IsCurrent};
ghost use Rattle.synic_board.specs.State.{processors};
ghost use Rattle.synic_board.specs.Performing.{Performs};
ghost use Rattle.synic_board.specs.declared.event.Event.TheVariants.{Absorb};
ghost use Rattle.actor_calls.specs.Sweeps.{is_refusal, sweep_in};
ghost use Rattle.shared_board.specs.Calling.{calling, calls_by, with_call};
ghost use Rattle.shared_board.specs.Witnessed.{witnessed, with_entry, IsOneThread, IsEnded};
ghost use Rattle.shared_board.specs.Publishing.{publishing};

use crate::actor::Actor;
use crate::locked::LockedBoard;
use crate::shared::Ended;
use crate::watching::Watching;
use board_terms::Notices;
use posted_words::{PostedWords, Sweeper};
use published_words::{Checkpoint, PublishedWords, Publisher, Watcher};
use std::marker::Model;
use synic_board::{Board, Event, Reply};

/// A watched board while a thread holds its lock. Its contract shows the board as a `LockedBoard`
/// does, and for each word the history up to the call that stored its value. Each call stores the
/// words whose values it changed; it takes the words of the board, `WatchedBoard::words`.
#[derive(Drop)]
pub struct PublishingBoard<S: Watching> {
    locked: LockedBoard<S>,
    publisher: Publisher,
}

impl<S: Watching> Model for PublishingBoard<S> {
    ghost use Rattle.std.specs.Prelude.{◌≡◌};
    ghost use Rattle.published_words.specs.Words.{words_of};
    ghost use Rattle.published_words.specs.Storing.{IsCurrent};
    ghost use Rattle.shared_board.specs.Publishing.{Publishing, publishing};
    ghost use Rattle.shared_board.specs.inside.Watched.{publishing_code};

    ghost Value = { Publishing };

    ghost coded = { publishing_code };

    ghost view = { λ p. publishing p.locked p.publisher.logs };

    ghost invariant = { λ p. (p.publisher.of ≡ words_of S.table S.start)
        × IsCurrent S.start p.locked.board.state p.locked.history p.publisher.logs };
}

impl<S: Watching> PublishingBoard<S> {
    /// A board whose words were opened in the state in which it is shared.
    pub(crate) fn new(locked: LockedBoard<S>, publisher: Publisher) -> PublishingBoard<S>
        requires locked { locked ≡ witnessed locked.board [] 0 }
        requires start { locked.board.state ≡ S.start }
        requires publisher { publisher ≡ published (words_of S.table S.start) (no_logs S.start) }
        ensures { result ≡ publishing locked (no_logs S.start) }
    {
        PublishingBoard { locked, publisher }
    }

    /// The board, for queries. The words have the values of its state.
    pub fn board(&self) -> &Board
        ensures board { result.now ≡ self.now.shared.board }
        ensures run { IsOneThread S.start self.now.shared.board.state self.now.shared.history }
        ensures count { processors self.now.shared.board.state ≡ processors S.start }
        ensures current { IsCurrent S.start self.now.shared.board.state self.now.shared.history self.now.logs }
    {
        self.locked.board()
    }

    /// Adds an actor, as `LockedBoard::enroll` does.
    pub fn enroll(&mut self) -> Option<Actor<S>>
        ensures some { IfSome result
            (λ a. (a ≡ calling self.old.shared.actors [])
            × (self.new ≡ publishing
            (witnessed self.old.shared.board self.old.shared.history (self.old.shared.actors + 1)) self.old.logs)) }
        ensures none { IfNone result ((self.new ≡ self.old) × (self.old.shared.actors ≡ 2 ^ 64 - 1)) }
    {
        self.locked.enroll()
    }

    /// Performs an event for an actor, as `LockedBoard::perform` does, and stores the words whose
    /// values it changed.
    pub fn perform(
        &mut self,
        words: &PublishedWords,
        actor: &mut Actor<S>,
        event: &Event,
        notices: &mut Notices,
    ) -> Reply
        requires words { words.now ≡ words_of S.table S.start }
        ensures performs { Performs self.old.shared.board event.now self.new.shared.board result notices.new }
        ensures history { self.new.shared.history
            ≡ with_entry self.old.shared.history actor.old.number event.now result }
        ensures actors { self.new.shared.actors ≡ self.old.shared.actors }
        ensures actor { actor.new ≡ with_call actor.old event.now result notices.new }
        ensures own { calls_by actor.old.number S.start self.old.shared.history ≡ actor.old.calls }
        ensures stored { IsStored S.start self.new.shared.history self.old.logs self.new.logs }
    {
        let reply = self.locked.perform(actor, event, notices);
        let locked = &self.locked;
        self.publisher
            .publish(words, locked.board(), locked.history());
        reply
    }

    /// Sweeps posted words and performs the absorb of their bits, as `LockedBoard::absorb` does, and
    /// stores the published words whose values it changed.
    pub fn absorb(
        &mut self,
        words: &PublishedWords,
        actor: &mut Actor<S>,
        posted: &PostedWords,
        sweeper: &mut Sweeper,
        vp: u8,
        part: u8,
        notices: &mut Notices,
    ) -> (u64, Reply)
        requires words { words.now ≡ words_of S.table S.start }
        requires own { sweeper.old.of ≡ posted.now.name }
        requires processors { posted.now.processors ≡ processors S.start }
        ensures performs { Performs self.old.shared.board
            (Absorb vp part result.0) self.new.shared.board result.1 notices.new }
        ensures history { self.new.shared.history
            ≡ with_entry self.old.shared.history actor.old.number (Absorb vp part result.0) result.1 }
        ensures actors { self.new.shared.actors ≡ self.old.shared.actors }
        ensures actor { actor.new ≡ with_call actor.old (Absorb vp part result.0) result.1 notices.new }
        ensures own { calls_by actor.old.number S.start self.old.shared.history ≡ actor.old.calls }
        ensures swept { sweeper.new
            ≡ token sweeper.old.of (sweep_in (Absorb vp part result.0) result.1 ++ sweeper.old.actions) }
        ensures refused { is_refusal result.1 ≡ true → result.0 ≡ 0 }
        ensures stored { IsStored S.start self.new.shared.history self.old.logs self.new.logs }
    {
        let absorbed = self
            .locked
            .absorb(actor, posted, sweeper, vp, part, notices);
        let locked = &self.locked;
        self.publisher
            .publish(words, locked.board(), locked.history());
        absorbed
    }

    /// What the words hold now, for a watcher's floor.
    pub fn checkpoint(&mut self, words: &PublishedWords) -> Checkpoint
        requires words { words.now ≡ words_of S.table S.start }
        ensures checkpoint { result ≡ published (words_of S.table S.start) self.old.logs }
        ensures same { self.new ≡ self.old }
    {
        self.publisher.checkpoint(words)
    }

    /// Compares a watcher with the history: what it has seen, and its floor, are prefixes of it. Changes
    /// neither. Requires a watcher of these words.
    pub fn compare(&mut self, words: &PublishedWords, watcher: &mut Watcher)
        requires words { words.now ≡ words_of S.table S.start }
        requires watcher { IsWatcher words.now watcher.old }
        ensures same { (self.new ≡ self.old) × (watcher.new ≡ watcher.old) }
        ensures within { IsWithin self.old.shared.history watcher.old }
    {
        self.publisher.compare(words, watcher);
    }

    /// Compares each of these watchers.
    pub(crate) fn compare_all(&mut self, words: &PublishedWords, watchers: &mut [Watcher])
        requires words { words.now ≡ words_of S.table S.start }
        requires watchers { All (λ w. IsWatcher words.now w) watchers.old }
        ensures same { (self.new ≡ self.old) × (watchers.new ≡ watchers.old) }
        ensures within { All (λ w. IsWithin self.old.shared.history w) watchers.old }
    {
        for index in 0..watchers.len() {
            self.compare(words, &mut watchers[index]);
        }
    }

    /// The end of the sharing, if these are all actors, in the order of their numbers.
    pub(crate) fn end(
        self,
        actors: Vec<Actor<S>>,
    ) -> Result<Ended<S>, (PublishingBoard<S>, Vec<Actor<S>>)>
        ensures ended { IfOk result (λ e. IsEnded S.start e.board.state e.history.entries actors.items) }
        ensures actors { IfOk result (λ e. e.actors.items ≡ actors.items) }
        ensures history { IfOk result (λ e. e.history.entries ≡ self.shared.history) }
        ensures kept { IfErr result (λ r. (r.0 ≡ self) × (r.1.items ≡ actors.items)) }
    {
        let PublishingBoard { locked, publisher } = self;
        match locked.end(actors) {
            Ok(ended) => Ok(ended),
            Err((locked, actors)) => Err((PublishingBoard { locked, publisher }, actors)),
        }
    }
}
