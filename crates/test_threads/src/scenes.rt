// A shared board that owns two actors and a line, so that a scene has no precondition.
ghost use Rattle.std.specs.Prelude.{◌≡◌, true, IfOk, All, length};
ghost use Rattle.posted_words.specs.Words.{IsOf};
ghost use Rattle.synic_board.specs.State.{processors};
ghost use Rattle.actor_calls.specs.Absorbed.{only_raises};

use crate::boards::{Smallest, opened, shared, take_actor, take_line};
use board_terms::{Refusal, Vector, Vp};
use board_threads::{Actor, CallFault, Ended, Line, Origin, Raised, RecordedBoard, SettleFault};
use std::alloc::Global;
use std::sync::Wait;
use synic_board::{Board, Event, Reply};

/// A board with one processor, its actors and its line.
#[derive(Drop)]
pub(crate) struct Scene<S: Origin> {
    board: RecordedBoard<S>,
    /// Number 0.
    actor: Actor,
    /// Number 1.
    other: Actor,
    line: Line,
    ghost processor: { board.processors ≡ 1 },
    ghost own_actor: { actor.of ≡ board.name },
    ghost own_other: { other.of ≡ board.name },
    ghost own_line: { line.of ≡ board.name },
    ghost raises: { only_raises line.actions ≡ true },
}

/// A call of one thread in a scene. All except the raises are calls of the first actor, unless
/// noted.
#[derive(Clone, Copy)]
pub(crate) enum Call {
    /// The line raises a vector of processor 0.
    Raise(u8),
    Absorb { vp: u8, part: u8 },
    /// The second actor absorbs part 1 of processor 0.
    AbsorbAsOther,
    /// Performs an absorb of bit 32 of part 1 as an event.
    PerformAbsorb,
    Take { vp: u8 },
    /// That many ticks to time 0.
    Ticks(u32),
    /// A tick on another board, which is settled afterwards.
    TickElsewhere,
}

/// The result of a call.
#[derive(Clone, Copy, PartialEq, Eq, Debug)]
pub(crate) enum Answer {
    Raised(Raised),
    /// The entry has these bits.
    Absorbed(u64),
    Taken(Option<u8>),
    /// That many ticks were done.
    Ticked(u32),
    Refused(Refusal),
    Failed(CallFault),
    Unsettled(SettleFault),
    Otherwise,
}

/// How many actors and lines are returned when the board is settled.
#[derive(Clone, Copy)]
pub(crate) struct Back {
    pub(crate) actors: usize,
    pub(crate) lines: usize,
}

pub(crate) const ALL: Back = Back {
    actors: 2,
    lines: 1,
};

impl Scene<Smallest> {
    /// `None` if an allocation fails.
    pub(crate) fn open(alloc: Global) -> Option<Scene<Smallest>> {
        let (board, actors, lines) = opened(alloc, 2, 1)?;
        Scene::of(board, actors, lines)
    }
}

impl<S: Origin> Scene<S> {
    /// A scene of a board that is given. `None` if an allocation fails.
    pub(crate) fn share(alloc: Global, board: Board) -> Option<Scene<S>>
        requires start { board.state ≡ S.start }
        requires processor { processors board.state ≡ 1 }
    {
        let (board, actors, lines) = shared(alloc, board, 2, 1)?;
        Scene::of(board, actors, lines)
    }

    fn of(board: RecordedBoard<S>, mut actors: Vec<Actor>, mut lines: Vec<Line>) -> Option<Scene<S>>
        requires processor { board.processors ≡ 1 }
        requires actors { All (λ a. a.of ≡ board.name) actors.items }
        requires lines { All (IsOf board.name) lines.items }
        requires raises { All (λ l. only_raises l.actions ≡ true) lines.items }
    {
        match (
            take_actor(&board, &mut actors),
            take_actor(&board, &mut actors),
            take_line(&board, &mut lines),
        ) {
            (Some(other), Some(actor), Some(line)) => Some(Scene {
                board,
                actor,
                other,
                line,
            }),
            _ => None,
        }
    }

    pub(crate) fn answer<R: Wait>(&mut self, rt: &R, alloc: Global, call: Call) -> Answer {
        match call {
            Call::Raise(number) => self.raise(number),
            Call::Absorb { vp, part } => self.absorb(rt, vp, part),
            Call::AbsorbAsOther => self.absorb_as_other(rt),
            Call::PerformAbsorb => {
                let (vp, part, bits) = (0, 1, 1 << 32);
                self.perform(rt, Event::Absorb { vp, part, bits })
            }
            Call::Take { vp } => self.perform(rt, Event::Take { vp }),
            Call::Ticks(times) => self.tick(rt, times),
            Call::TickElsewhere => self.tick_elsewhere(rt, alloc),
        }
    }

    fn raise(&mut self, number: u8) -> Answer {
        match Vector::new(number) {
            Some(vector) => {
                let vp = Vp::new(0).unwrap();
                Answer::Raised(self.board.raise(&mut self.line, vp, vector))
            }
            None => Answer::Otherwise,
        }
    }

    // README board_threads: begin
    fn absorb<R: Wait>(&mut self, rt: &R, vp: u8, part: u8) -> Answer {
        let absorbed = self.board.absorb(rt, &mut self.actor, vp, part);
        answer_to_absorb(absorbed, self.actor.calls())
    }
    // README board_threads: end

    fn absorb_as_other<R: Wait>(&mut self, rt: &R) -> Answer {
        let absorbed = self.board.absorb(rt, &mut self.other, 0, 1);
        answer_to_absorb(absorbed, self.other.calls())
    }

    // README board_threads: begin
    fn perform<R: Wait>(&mut self, rt: &R, event: Event) -> Answer {
        answer_to(self.board.perform(rt, &mut self.actor, event))
    }
    // README board_threads: end

    fn tick<R: Wait>(&mut self, rt: &R, times: u32) -> Answer {
        for _ in 0..times {
            let answer = self.perform(rt, Event::Tick { moment: 0 });
            if answer != Answer::Ticked(1) {
                return answer;
            }
        }
        Answer::Ticked(times)
    }

    fn tick_elsewhere<R: Wait>(&mut self, rt: &R, alloc: Global) -> Answer {
        let Some(elsewhere) = Scene::open(alloc) else {
            return Answer::Otherwise;
        };
        let tick = Event::Tick { moment: 0 };
        let answer = answer_to(elsewhere.board.perform(rt, &mut self.actor, tick));
        match elsewhere.settle(alloc, ALL) {
            Err(fault) if answer == Answer::Ticked(1) => Answer::Unsettled(fault),
            _ => Answer::Otherwise,
        }
    }

    /// Returns the remaining actors and lines, and settles the board.
    pub(crate) fn settle(self, alloc: Global, back: Back) -> Result<Ended, SettleFault>
        ensures { IfOk result (λ e. length e.standing ≡ 4) }
    {
        let Scene {
            board,
            actor,
            other,
            line,
        } = self;
        // README board_threads: begin
        let Ok(mut actors) = Vec::from_array(alloc, [actor, other]) else {
            return Err(SettleFault::Memory);
        };
        let Ok(mut lines) = Vec::from_array(alloc, [line]) else {
            return Err(SettleFault::Memory);
        };
        actors.truncate(back.actors);
        lines.truncate(back.lines);
        board.settle(actors, lines)
        // README board_threads: end
    }
}

fn answer_to(performed: Result<Reply, CallFault>) -> Answer {
    match performed {
        Ok(Reply::Done) => Answer::Ticked(1),
        Ok(Reply::Taken(taken)) => Answer::Taken(taken.map(|vector| vector.number())),
        Ok(Reply::Refused(refusal)) => Answer::Refused(refusal),
        Ok(_) => Answer::Otherwise,
        Err(fault) => Answer::Failed(fault),
    }
}

/// The bits of an absorb are in the last call of its actor.
fn answer_to_absorb(absorbed: Result<Reply, CallFault>, calls: &[(Event, Reply)]) -> Answer {
    match (absorbed, calls.last()) {
        (Ok(Reply::Done), Some((Event::Absorb { bits, .. }, _))) => Answer::Absorbed(*bits),
        (Ok(Reply::Refused(refusal)), _) => Answer::Refused(refusal),
        (Err(fault), _) => Answer::Failed(fault),
        _ => Answer::Otherwise,
    }
}
