// An actor, and its calls.
ghost use Rattle.std.specs.Prelude.{◌≡◌, ℕ, ◌<◌, true, false, [], ◌∷◌, ◌++◌, IfOk, OnErr, IsErrOf};
ghost use Rattle.posted_words.specs.Words.{token};
ghost use Rattle.synic_board.specs.State.{processors};
ghost use Rattle.synic_board.specs.declared.event.Event.TheVariants.{Absorb};
ghost use Rattle.actor_calls.specs.Sweeps.{is_absorb, is_refusal, sweep_in, sweeps_of};
ghost use Rattle.board_threads.specs.Sharing.{acting};

use crate::origin::Origin;
use crate::recorded::Recorded;
use crate::settling::ActorCalls;
use posted_words::{PostedWords, Sweeper};
use std::alloc::Global;
use std::marker::Model;
use std::sync::{Mutex, Wait};
use synic_board::{Event, Reply};
use thiserror::Error;

/// Why an actor's call did nothing.
#[derive(Clone, Copy, PartialEq, Eq, Debug, Drop, Error)]
pub enum CallFault {
    /// There is no memory for one more entry.
    #[error("out of memory")]
    Memory = 1,
    /// An absorb cannot be performed as an event: its bits are what a sweep takes.
    #[error("an absorb is no event of an actor")]
    AbsorbEvent = 2,
    /// The history has 65,536 entries.
    #[error("the history is full")]
    Full = 3,
}

/// Performs events on a shared board, in one thread at a time. It owns a sweeper of the board's
/// posted words. Its contract shows these words, its number, its calls in order, and the steps of
/// its sweeper.
#[derive(Drop)]
pub struct Actor {
    number: u8,
    sweeper: Sweeper,
    calls: Vec<(Event, Reply)>,
}

impl Model for Actor {
    ghost use Rattle.std.specs.Prelude.{◌≡◌};
    ghost use Rattle.board_threads.specs.Sharing.{Acting, acting};
    ghost use Rattle.actor_calls.specs.Sweeps.{sweeps_of};

    ghost Value = { Acting };

    ghost view = { λ a. acting a.sweeper.of a.number a.calls.items a.sweeper.actions };

    ghost invariant = { λ a. a.sweeper.actions ≡ sweeps_of a.calls.items };
}

impl Actor {
    pub(crate) fn new(alloc: Global, number: u8, sweeper: Sweeper) -> Actor
        requires { sweeper.actions ≡ [] }
        ensures { result ≡ acting sweeper.of number [] [] }
    {
        Actor {
            number,
            sweeper,
            calls: Vec::new(alloc),
        }
    }

    /// Its number in the history.
    pub fn number(&self) -> u8
        ensures { result ≡ self.now.number }
    {
        self.number
    }

    /// Its calls in order, each with its reply. The bits that its sweeper took are those of the
    /// absorbs among them that were not refused.
    pub fn calls(&self) -> &[(Event, Reply)]
        ensures calls { result.now ≡ self.now.calls }
        ensures sweeps { self.now.actions ≡ sweeps_of self.now.calls }
    {
        self.calls.as_slice()
    }

    pub(crate) fn into_parts(self) -> (Sweeper, ActorCalls)
        ensures sweeper { result.0 ≡ token self.of self.actions }
        ensures number { result.1.number ≡ self.number }
        ensures calls { result.1.calls.items ≡ self.calls }
        ensures sweeps { self.actions ≡ sweeps_of self.calls }
    {
        let Actor {
            number,
            sweeper,
            calls,
        } = self;
        (sweeper, ActorCalls { number, calls })
    }

    /// Performs an event on the board under the lock. Its own list grows before the lock is
    /// acquired, and gets the call after the lock is released, so that no other actor waits for
    /// either.
    pub(crate) fn perform<S: Origin, R: Wait>(
        &mut self,
        rt: &R,
        board: &Mutex<Recorded<S>>,
        event: Event,
    ) -> Result<Reply, CallFault>
        requires { is_absorb event ≡ false }
        ensures ok { IfOk result
            (λ r. self.new ≡ acting self.old.of self.old.number (self.old.calls ++ (event, r) ∷ []) self.old.actions) }
        ensures fault { OnErr result (self.new ≡ self.old) }
        ensures event { ¬ (IsErrOf result CallFault.AbsorbEvent) }
    {
        let has_room = self.calls.reserve(1).is_ok();
        let number = self.number;
        // In one place from the beginning, so that the event is copied once, to the list.
        let mut call = (event, Reply::Done);
        let reply = {
            let mut guard = board.lock(rt);
            let recorded = &mut *guard;
            recorded.enter(has_room, number, &call.0)?
        };
        call.1 = reply.copy();
        self.calls.push_reserved(call);
        Ok(reply)
    }

    /// Sweeps a word, and performs the absorb of its bits on the board under the lock.
    pub(crate) fn absorb<S: Origin, R: Wait>(
        &mut self,
        rt: &R,
        board: &Mutex<Recorded<S>>,
        words: &PostedWords,
        vp: u8,
        part: u8,
    ) -> Result<Reply, CallFault>
        requires own { self.old.of ≡ words.now.name }
        requires processors { words.now.processors ≡ processors S.start }
        ensures ok { IfOk result (λ r. (bits : ℕ)
            × (self.new ≡ acting self.old.of self.old.number (self.old.calls ++ (Absorb vp part bits, r) ∷ [])
            (sweep_in (Absorb vp part bits) r ++ self.old.actions))) }
        ensures refused { IfOk result
            (λ r. is_refusal r ≡ true → self.new.calls ≡ self.old.calls ++ (Absorb vp part 0, r) ∷ []) }
        ensures fault { OnErr result (self.new ≡ self.old) }
        ensures event { ¬ (IsErrOf result CallFault.AbsorbEvent) }
    {
        let has_room = self.calls.reserve(1).is_ok();
        let number = self.number;
        let (bits, reply) = {
            let mut guard = board.lock(rt);
            let recorded = &mut *guard;
            recorded.absorb(has_room, number, words, &mut self.sweeper, vp, part)?
        };
        self.calls
            .push_reserved((Event::Absorb { vp, part, bits }, reply.copy()));
        Ok(reply)
    }
}
