// What is under the lock.
ghost use Rattle.std.specs.Prelude.{◌≡◌, ◌+◌, ◌-◌, ◌<◌, ◌^◌, ◌++◌, [], ◌∷◌, IfSome, IfNone, IfOk, IfErr, IsTrue, All, length, map, true};
ghost use Rattle.std.specs.List.{range_with_len};
ghost use Rattle.posted_words.specs.Words.{token};
ghost use Rattle.synic_board.specs.State.{processors};
ghost use Rattle.synic_board.specs.Performing.{Performs};
ghost use Rattle.synic_board.specs.Sound.{PayloadFits};
ghost use Rattle.synic_board.specs.declared.event.Event.TheVariants.{Absorb};
ghost use Rattle.actor_calls.specs.Sweeps.{is_refusal, sweep_in};
ghost use Rattle.shared_board.specs.Calling.{calling, calls_by, with_call};
ghost use Rattle.shared_board.specs.Witnessed.{witnessed, with_entry, IsOneThread, IsEnded};

use crate::actor::Actor;
use crate::shared::Ended;
use crate::sharing::Sharing;
use board_terms::Notices;
use ghost_history::{Answered, History, Roster};
use posted_words::{PostedWords, Sweeper};
use std::marker::{Model, PhantomData};
use std::snapshot::Snapshot;
use synic_board::{Board, Event, Reply};

/// A shared board while a thread holds its lock. Its contract shows the board, the history of all
/// calls since it was shared, and the number of its actors.
#[derive(Drop)]
pub struct LockedBoard<S: Sharing> {
    board: Board,
    actors: u64,
    history: History,
    roster: Roster,
    of: PhantomData<S>,
}

impl<S: Sharing> Model for LockedBoard<S> {
    ghost use Rattle.std.specs.Prelude.{◌≡◌};
    ghost use Rattle.shared_board.specs.Witnessed.{Witnessed, witnessed};
    ghost use Rattle.shared_board.specs.inside.Rostered.{IsRostered, witnessed_code};

    ghost Value = { Witnessed };

    ghost coded = { witnessed_code };

    ghost view = { λ l. witnessed l.board l.history.entries l.actors };

    ghost invariant = { λ l. (l.roster.name ≡ S.name)
        × IsRostered S.start (witnessed l.board l.history.entries l.actors) l.roster.rows };
}

impl<S: Sharing> LockedBoard<S> {
    /// A board without actors, and with an empty history.
    pub(crate) fn new(roster: Roster, board: Board) -> LockedBoard<S>
        requires name { roster.name ≡ S.name }
        requires empty { roster.rows ≡ [] }
        requires start { board.state ≡ S.start }
        ensures { result ≡ witnessed board [] 0 }
    {
        LockedBoard {
            board,
            actors: 0,
            history: History::new(),
            roster,
            of: PhantomData,
        }
    }

    /// The board, for queries.
    pub fn board(&self) -> &Board
        ensures board { result.now ≡ self.now.board }
        ensures run { IsOneThread S.start self.now.board.state self.now.history }
        ensures count { processors self.now.board.state ≡ processors S.start }
    {
        &self.board
    }

    /// The history of all calls.
    pub(crate) fn history(&self) -> &History
        ensures { result.now.entries ≡ self.now.history }
    {
        &self.history
    }

    /// Adds an actor, which has the next number and no calls. `None`, and no change, if there are
    /// 2^64 - 1 actors.
    pub fn enroll(&mut self) -> Option<Actor<S>>
        ensures some { IfSome result
            (λ a. (a ≡ calling self.old.actors [])
            × (self.new ≡ witnessed self.old.board self.old.history (self.old.actors + 1))) }
        ensures none { IfNone result ((self.new ≡ self.old) × (self.old.actors ≡ 2 ^ 64 - 1)) }
    {
        let number = self.actors;
        if number == u64::MAX {
            return None;
        }
        self.actors = number + 1;
        let part = self.roster.enroll(number);
        Some(Actor::new(number, part))
    }

    /// Performs an event for an actor. Takes no memory and has no fault: what the board refuses is a
    /// reply like any other. Before it, the actor's calls are its own in the history.
    // So that each caller has an instance of `Board::perform` of its own.
    #[inline(always)]
    pub fn perform(&mut self, actor: &mut Actor<S>, event: &Event, notices: &mut Notices) -> Reply
        ensures performs { Performs self.old.board event.now self.new.board result notices.new }
        ensures history { self.new.history ≡ with_entry self.old.history actor.old.number event.now result }
        ensures actors { self.new.actors ≡ self.old.actors }
        ensures actor { actor.new ≡ with_call actor.old event.now result notices.new }
        ensures own { calls_by actor.old.number S.start self.old.history ≡ actor.old.calls }
    {
        fits(event);
        self.board.facts();
        let reply = self.board.perform(event, notices);
        // README ghost_history: begin
        self.history = self.history.with(actor.number(), event, &reply);
        let one = Answered {
            event: Snapshot::of(event),
            reply: Snapshot::of(&reply),
            notices: Snapshot::of(notices),
        };
        self.roster.extend(&mut actor.part, &one);
        // README ghost_history: end
        reply
    }

    /// Sweeps a part, 0 to 3, of a processor from the posted words, and performs the absorb of its
    /// bits for an actor. If the board refuses the absorb, nothing is swept and the bits are 0.
    /// Requires a sweeper of these words, and words for the processors of the board.
    pub fn absorb(
        &mut self,
        actor: &mut Actor<S>,
        words: &PostedWords,
        sweeper: &mut Sweeper,
        vp: u8,
        part: u8,
        notices: &mut Notices,
    ) -> (u64, Reply)
        requires own { sweeper.old.of ≡ words.now.name }
        requires processors { words.now.processors ≡ processors S.start }
        ensures performs { Performs self.old.board (Absorb vp part result.0) self.new.board result.1 notices.new }
        ensures history { self.new.history
            ≡ with_entry self.old.history actor.old.number (Absorb vp part result.0) result.1 }
        ensures actors { self.new.actors ≡ self.old.actors }
        ensures actor { actor.new ≡ with_call actor.old (Absorb vp part result.0) result.1 notices.new }
        ensures own { calls_by actor.old.number S.start self.old.history ≡ actor.old.calls }
        ensures swept { sweeper.new
            ≡ token sweeper.old.of (sweep_in (Absorb vp part result.0) result.1 ++ sweeper.old.actions) }
        ensures refused { is_refusal result.1 ≡ true → result.0 ≡ 0 }
    {
        self.board();
        let bits = words.sweep_if_there(sweeper, vp, part);
        let reply = self.perform(actor, &Event::Absorb { vp, part, bits }, notices);
        (bits, reply)
    }

    /// The end of the sharing, if these are all actors, in the order of their numbers.
    pub(crate) fn end(
        self,
        mut actors: Vec<Actor<S>>,
    ) -> Result<Ended<S>, (LockedBoard<S>, Vec<Actor<S>>)>
        ensures ended { IfOk result (λ e. IsEnded S.start e.board.state e.history.entries actors.items) }
        ensures actors { IfOk result (λ e. e.actors.items ≡ actors.items) }
        ensures history { IfOk result (λ e. e.history.entries ≡ self.history) }
        ensures kept { IfErr result (λ r. (r.0 ≡ self) × (r.1.items ≡ actors.items)) }
    {
        let mut locked = self;
        if actors.len() as u64 != locked.actors || !are_numbered(actors.as_slice()) {
            return Err((locked, actors));
        }
        locked.find_all(actors.as_mut_slice());
        let LockedBoard { board, history, .. } = locked;
        Ok(Ended {
            board,
            history,
            actors,
        })
    }

    /// The calls of each of these actors are its own in the history. Changes nothing.
    fn find_all(&mut self, actors: &mut [Actor<S>])
        ensures same { (self.new ≡ self.old) × (actors.new ≡ actors.old) }
        ensures own { All (λ a. calls_by a.number S.start self.old.history ≡ a.calls) actors.old }
    {
        for index in 0..actors.len() {
            self.find(&mut actors[index]);
        }
    }

    /// The calls of an actor are its own in the history. Changes nothing.
    fn find(&mut self, actor: &mut Actor<S>)
        ensures same { (self.new ≡ self.old) × (actor.new ≡ actor.old) }
        ensures own { calls_by actor.old.number S.start self.old.history ≡ actor.old.calls }
    {
        self.roster.find(&mut actor.part);
    }
}

/// Whether the actors are numbered from 0.
fn are_numbered<S: Sharing>(actors: &[Actor<S>]) -> bool
    ensures { IsTrue result → map (λ a. a.number) actors.now ≡ range_with_len 0 (length actors.now) }
{
    for (index, actor) in actors.iter().enumerate() {
        if actor.number() != index as u64 {
            return false;
        }
    }
    true
}

/// The payload of a post fits, as its type ensures.
fn fits(event: &Event)
    ensures { PayloadFits event.now }
{
    if let Event::Post { payload, .. } = event {
        let _ = payload.as_slice();
    }
}
