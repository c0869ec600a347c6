// The shared board.
ghost use Rattle.std.specs.Prelude.{◌≡◌, ◌↔◌, ℕ, ◌*◌, ◌<◌, true, [], ◌∷◌, ◌++◌, IfOk, OnErr, IsErrOf, map, All, replicate};
ghost use Rattle.std.specs.List.{range_with_len};
ghost use Rattle.synic_board.specs.State.{opened, processors};
ghost use Rattle.synic_board.specs.declared.event.Event.TheVariants.{Absorb};
ghost use Rattle.posted_words.specs.Words.{AreWordSizes, shared_words, token, with_last_step, raise_of, actions_of};
ghost use Rattle.posted_words.specs.Answers.{is_fresh};
ghost use Rattle.board_threads.specs.Sharing.{AreSharedSizes, acting, new_actor};
ghost use Rattle.actor_calls.specs.Sweeps.{is_absorb, is_refusal, sweep_in};
ghost use Rattle.actor_calls.specs.Absorbed.{AreAbsorbed, only_raises};
ghost use Rattle.board_threads.specs.Settling.{IsSettled, calls_held, calls_given};

use crate::actor::{Actor, CallFault};
use crate::opening::{are_word_sizes, open_words};
use crate::origin::Origin;
use crate::recorded::Recorded;
use crate::settling::{Ended, SettleFault, split_all};
use board_terms::{Ticket, Vector, Vp};
use posted_words::{Line, PostedWords, Raised};
use std::alloc::Global;
use std::marker::Model;
use std::sync::{Mutex, Wait};
use synic_board::{Board, Event, OpenFault, Reply};

/// A board that threads share by reference. Events are performed under a lock, one at a time;
/// vectors are raised without the lock. `S` is the state in which the board was opened or shared: the
/// history of all calls is legal from it. The contract of the board shows its posted words.
#[derive(Drop)]
pub struct RecordedBoard<S: Origin> {
    alloc: Global,
    words: PostedWords,
    recorded: Mutex<Recorded<S>>,
}

impl<S: Origin> Model for RecordedBoard<S> {
    ghost use Rattle.std.specs.Prelude.{◌≡◌};
    ghost use Rattle.synic_board.specs.State.{processors};
    ghost use Rattle.posted_words.specs.Words.{Words};

    ghost Value = { Words };

    ghost view = { λ s. s.words };

    ghost invariant = { λ s. s.words.processors ≡ processors S.start };
}

impl<S: Origin> RecordedBoard<S> {
    /// Opens a board with that many processors and guest pages, whose first accepted message gets
    /// the ticket `first_ticket`, with its actors, numbered from 0, and its lines. `BadSize` unless
    /// there are 1 to 8 processors, 1 to 64 pages, 1 to 16 actors and at most 16 lines.
    pub fn open(
        alloc: Global,
        processors: u8,
        pages: u8,
        first_ticket: Ticket,
        actors: u8,
        lines: u8,
    ) -> Result<(RecordedBoard<S>, Vec<Actor>, Vec<Line>), OpenFault>
        requires start { S.start ≡ opened processors pages first_ticket }
        ensures size { IsErrOf result OpenFault.BadSize ↔ (¬ AreSharedSizes processors pages actors lines) }
        ensures board { IfOk result (λ r. r.0 ≡ shared_words r.0.name processors actors lines) }
        ensures actors { IfOk result (λ r. r.1.items ≡ map (new_actor r.0.name) (range_with_len 0 actors)) }
        ensures lines { IfOk result (λ r. r.2.items ≡ replicate lines (token r.0.name [])) }
    {
        // Before a board is allocated, so that a size is reported rather than a failed allocation.
        if !are_word_sizes(processors, actors, lines) {
            return Err(OpenFault::BadSize);
        }
        let board = Board::open(alloc, processors, pages, first_ticket)?;
        RecordedBoard::share(alloc, board, actors, lines)
    }

    /// Shares a board in the state that it is in, with its actors, numbered from 0, and its lines.
    /// `BadSize` unless there are 1 to 16 actors and at most 16 lines.
    pub fn share(
        alloc: Global,
        board: Board,
        actors: u8,
        lines: u8,
    ) -> Result<(RecordedBoard<S>, Vec<Actor>, Vec<Line>), OpenFault>
        requires start { board.state ≡ S.start }
        ensures size { IsErrOf result OpenFault.BadSize ↔ (¬ AreWordSizes (processors board.state) actors lines) }
        ensures board { IfOk result (λ r. r.0 ≡ shared_words r.0.name (processors board.state) actors lines) }
        ensures actors { IfOk result (λ r. r.1.items ≡ map (new_actor r.0.name) (range_with_len 0 actors)) }
        ensures lines { IfOk result (λ r. r.2.items ≡ replicate lines (token r.0.name [])) }
    {
        let (words, actors, lines) = open_words(alloc, board.processors(), actors, lines)?;
        let Ok(recorded) = Recorded::new(alloc, board) else {
            return Err(OpenFault::Memory);
        };
        let board = RecordedBoard {
            alloc,
            words,
            recorded: Mutex::new(recorded),
        };
        Ok((board, actors, lines))
    }

    /// The number of processors of the board.
    pub fn processors(&self) -> u8
        ensures { result ≡ self.now.processors }
    {
        self.words.processors()
    }

    /// Performs an event under the lock, and appends it to the history and to the actor's calls. A
    /// refused event is appended like any other. A fault changes nothing: `AbsorbEvent` for an
    /// absorb; `Full` if the history has 65,536 entries; `Memory` if an allocation fails.
    ///
    /// This does not check that the actor belongs to this board. `settle` finds a call on another
    /// board only where the lists of calls or their totals then differ: two boards whose actors 0
    /// each performed the same call on the other both settle.
    pub fn perform<R: Wait>(
        &self,
        rt: &R,
        actor: &mut Actor,
        event: Event,
    ) -> Result<Reply, CallFault>
        ensures ok { IfOk result
            (λ r. actor.new ≡ acting actor.old.of actor.old.number
            (actor.old.calls ++ (event, r) ∷ []) actor.old.actions) }
        ensures fault { OnErr result (actor.new ≡ actor.old) }
        ensures absorb { IsErrOf result CallFault.AbsorbEvent ↔ is_absorb event ≡ true }
    {
        if matches!(event, Event::Absorb { .. }) {
            return Err(CallFault::AbsorbEvent);
        }
        actor.perform(rt, &self.recorded, event)
    }

    /// Sweeps a word of the board's posted words, and performs the absorb of its bits, under the
    /// lock. If the absorb is refused, since the board has no processor `vp` or `part` is above 3,
    /// nothing is swept and its bits are 0. The sweep happens under the lock, so the history has
    /// the sweeps of a word in the order in which they happened. The faults are `Full` and `Memory`.
    /// Requires an actor of this board.
    pub fn absorb<R: Wait>(
        &self,
        rt: &R,
        actor: &mut Actor,
        vp: u8,
        part: u8,
    ) -> Result<Reply, CallFault>
        requires own { actor.old.of ≡ self.now.name }
        ensures ok { IfOk result (λ r. (bits : ℕ)
            × (actor.new ≡ acting actor.old.of actor.old.number (actor.old.calls ++ (Absorb vp part bits, r) ∷ [])
            (sweep_in (Absorb vp part bits) r ++ actor.old.actions))) }
        ensures refused { IfOk result
            (λ r. is_refusal r ≡ true → actor.new.calls ≡ actor.old.calls ++ (Absorb vp part 0, r) ∷ []) }
        ensures fault { OnErr result (actor.new ≡ actor.old) }
        ensures event { ¬ (IsErrOf result CallFault.AbsorbEvent) }
    {
        actor.absorb(rt, &self.recorded, &self.words, vp, part)
    }

    /// Raises a vector of a processor, by one atomic step without the lock. `Fresh` if its bit was
    /// clear; `PostedWords::raise` says what is proved of this. Requires a line of this board, and
    /// a processor on the board.
    pub fn raise(&self, line: &mut Line, vp: Vp, vector: Vector) -> Raised
        requires own { line.old.of ≡ self.now.name }
        requires there { vp < self.now.processors }
        ensures { line.new ≡ with_last_step line.old (raise_of vp vector (is_fresh result)) }
    {
        self.words.raise(line, vp, vector)
    }

    /// Ends the board, and returns a run of one thread from the state in which it was opened or shared:
    /// each actor's calls are in its history, in order, and each `Fresh` raise was absorbed once or its
    /// bit is set. `Mismatch` if an actor or a line is missing, or if the history is not exactly the
    /// calls of these actors; then everything is dropped. Requires actors and lines of this board.
    pub fn settle(self, actors: Vec<Actor>, lines: Vec<Line>) -> Result<Ended, SettleFault>
        requires actors { All (λ a. a.of ≡ self.name) actors.items }
        requires lines { All (λ l. l.of ≡ self.name) lines.items }
        requires raises { All (λ l. only_raises l.actions ≡ true) lines.items }
        ensures settled { IfOk result (IsSettled S.start) }
        ensures actors { IfOk result (λ e. map calls_given e.actors.items ≡ map calls_held actors.items) }
        ensures raises { IfOk result
            (λ e. AreAbsorbed (4 * self.processors) (map actions_of lines.items) e.history.items e.standing) }
    {
        let RecordedBoard {
            alloc,
            words,
            recorded,
        } = self;
        let (sweepers, actors) = split_all(alloc, actors)?;
        let standing = words.gather(sweepers, lines)?;
        recorded.into_inner().end(alloc, actors, standing)
    }
}
