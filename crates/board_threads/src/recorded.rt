// The state under the lock.
ghost use base.Stored.{Coded-set};
ghost use Rattle.std.specs.Prelude.{◌≡◌, ◌↔◌, ◌≤◌, length, true, [], ◌∷◌, ◌++◌, IfOk, OnOk, OnErr, IsErrOf};
ghost use Rattle.posted_words.specs.Words.{token};
ghost use Rattle.synic_board.specs.declared.event.Event.TheVariants.{Absorb};
ghost use Rattle.actor_calls.specs.Sweeps.{is_refusal, sweep_in};
ghost use Rattle.synic_board.specs.Sound.{PayloadFits};
ghost use Rattle.synic_board.specs.State.{processors};
ghost use Rattle.synic_board.specs.inside.Codes.{state_code};
ghost use Rattle.synic_board.specs.Step.{step};
ghost use Rattle.synic_board.specs.History.{IsLegal, leads_to};
ghost use Rattle.entry_log.specs.Log.{entry};
ghost use Rattle.board_threads.specs.Settling.{IsSettled};

use crate::actor::CallFault;
use crate::origin::Origin;
use crate::settling::{ActorCalls, Ended, SettleFault, are_all_of};
use board_terms::Notices;
use entry_log::EntryLog;
use posted_words::{PostedWords, Standing, Sweeper};
use std::alloc::{AllocError, Global};
use std::marker::PhantomData;
use synic_board::{Board, Event, Reply};

/// The greatest number of entries of a history.
pub(crate) const MOST: usize = 65_536;

/// A board with its history, which is legal from the state in which the board was opened or shared,
/// and leads to its present state.
#[derive(Drop)]
pub(crate) struct Recorded<S: Origin> {
    board: Board,
    pub(crate) history: EntryLog,
    notices: Notices,
    of: PhantomData<S>,
    ghost legal: { IsLegal S.start history.entries },
    ghost leads: { board.state ≡ leads_to S.start history.entries } by { Coded-set state_code _ _ },
    ghost count: { processors board.state ≡ processors S.start },
}

impl<S: Origin> Recorded<S> {
    /// A board with an empty history.
    pub(crate) fn new(alloc: Global, board: Board) -> Result<Recorded<S>, AllocError>
        requires { board.state ≡ S.start }
        ensures { IfOk result (λ r. r.history.entries ≡ []) }
    {
        let notices = Notices::open(alloc)?;
        Ok(Recorded {
            board,
            history: EntryLog::new(alloc),
            notices,
            of: PhantomData,
        })
    }

    /// Performs an event for an actor with capacity for one more call. The faults are checked in
    /// this order: `Full`, `Memory`. On a fault no event is performed.
    pub(crate) fn enter(
        &mut self,
        has_room: bool,
        actor: u8,
        event: &Event,
    ) -> Result<Reply, CallFault>
        ensures history { IfOk result
            (λ r. self.new.history.entries ≡ self.old.history.entries ++ entry actor event.now r ∷ []) }
        ensures unchanged { OnErr result (self.new.history.entries ≡ self.old.history.entries) }
        ensures room { OnOk result (has_room ≡ true) }
        ensures full { IsErrOf result CallFault.Full ↔ 65536 ≤ length self.old.history.entries }
        ensures event { ¬ (IsErrOf result CallFault.AbsorbEvent) }
    {
        self.make_room(has_room)?;
        Ok(self.perform(actor, event))
    }

    /// Sweeps a word, and performs the absorb of its bits for an actor with capacity for one more
    /// call. The faults are those of `enter`. On a fault nothing is swept.
    pub(crate) fn absorb(
        &mut self,
        has_room: bool,
        actor: u8,
        words: &PostedWords,
        sweeper: &mut Sweeper,
        vp: u8,
        part: u8,
    ) -> Result<(u64, Reply), CallFault>
        requires own { sweeper.old.of ≡ words.now.name }
        requires processors { words.now.processors ≡ processors S.start }
        ensures history { IfOk result
            (λ r. self.new.history.entries ≡ self.old.history.entries ++ entry actor (Absorb vp part r.0) r.1 ∷ []) }
        ensures swept { IfOk result
            (λ r. sweeper.new ≡ token sweeper.old.of (sweep_in (Absorb vp part r.0) r.1 ++ sweeper.old.actions)) }
        ensures refused { IfOk result (λ r. is_refusal r.1 ≡ true → r.0 ≡ 0) }
        ensures unchanged { OnErr result (self.new.history.entries ≡ self.old.history.entries) }
        ensures kept { OnErr result (sweeper.new ≡ sweeper.old) }
        ensures room { OnOk result (has_room ≡ true) }
        ensures full { IsErrOf result CallFault.Full ↔ 65536 ≤ length self.old.history.entries }
        ensures event { ¬ (IsErrOf result CallFault.AbsorbEvent) }
    {
        self.make_room(has_room)?;
        // An absorb of a word that does not exist is refused, so its bits would be lost.
        let bits = words.sweep_if_there(sweeper, vp, part);
        let reply = self.perform(actor, &Event::Absorb { vp, part, bits });
        Ok((bits, reply))
    }

    /// The result of settling, if the history is exactly the calls of these actors.
    pub(crate) fn end(
        self,
        alloc: Global,
        actors: Vec<ActorCalls>,
        standing: Standing,
    ) -> Result<Ended, SettleFault>
        ensures settled { IfOk result (IsSettled S.start) }
        ensures actors { IfOk result (λ e. e.actors.items ≡ actors.items) }
        ensures standing { IfOk result (λ e. e.standing ≡ standing) }
    {
        let history = self.history.to_entries(alloc)?;
        if !are_all_of(history.as_slice(), actors.as_slice()) {
            return Err(SettleFault::Mismatch);
        }
        let Recorded { board, .. } = self;
        Ok(Ended {
            board,
            history,
            actors,
            standing,
        })
    }

    /// Ensures capacity for one more entry, if the actor has capacity for one more call.
    fn make_room(&mut self, has_room: bool) -> Result<(), CallFault>
        ensures room { OnOk result (self.new.history.has_room ≡ true) }
        ensures actor { OnOk result (has_room ≡ true) }
        ensures history { self.new.history.entries ≡ self.old.history.entries }
        ensures board { self.new.board.state ≡ self.old.board.state }
        ensures full { IsErrOf result CallFault.Full ↔ 65536 ≤ length self.old.history.entries }
        ensures event { ¬ (IsErrOf result CallFault.AbsorbEvent) }
    {
        if self.history.len() >= MOST {
            return Err(CallFault::Full);
        }
        if !has_room || self.history.reserve().is_err() {
            return Err(CallFault::Memory);
        }
        Ok(())
    }

    /// Performs an event for an actor, and appends it within the capacity, so that every performed
    /// event is in the history.
    fn perform(&mut self, actor: u8, event: &Event) -> Reply
        requires room { self.old.history.has_room ≡ true }
        ensures history { self.new.history.entries ≡ self.old.history.entries ++ entry actor event.now result ∷ [] }
        ensures reply { result ≡ (step self.old.board.state event.now).1 }
    {
        fits(event);
        self.board.facts();
        let reply = self.board.perform(event, &mut self.notices);
        self.history.push(actor, event, &reply);
        reply
    }
}

/// The payload of a post fits, as its type ensures.
fn fits(event: &Event)
    ensures { PayloadFits event.now }
{
    if let Event::Post { payload, .. } = event {
        let _ = payload.as_slice();
    }
}
