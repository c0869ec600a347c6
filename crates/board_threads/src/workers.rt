// The work of actor 0 and of the workers, each in its thread.
ghost use Rattle.std.specs.Prelude.{◌≡◌, ◌<◌, ◌≤◌, ◌++◌, [], List, IfOk};
ghost use Rattle.actor_calls.specs.Calls.{Call};
ghost use Rattle.board_threads.specs.Crew.{AreSteps, acts, last_steps};
ghost use Rattle.board_threads.specs.inside.Work.{IsThere, HasActed, HasRaised};

use crate::actor::{Actor, CallFault};
use crate::fault::WorkFault;
use crate::gate::{Gate, Worker};
use crate::origin::Origin;
use crate::recorded_board::RecordedBoard;
use crate::script::Step;
use board_terms::{Vector, Vp};
use posted_words::{Line, Raised};
use std::alloc::Global;
use std::sync::Wait;
use synic_board::Event;

/// The setup: actor 0 performs its events.
pub(crate) fn perform_setup<S: Origin, R: Wait>(
    rt: &R,
    board: &RecordedBoard<S>,
    mut actor: Actor,
    events: &[Event],
) -> Result<Actor, CallFault>
    requires new { actor.calls ≡ [] }
    ensures of { IfOk result (λ a. a.of ≡ actor.of) }
    ensures number { IfOk result (λ a. a.number ≡ actor.number) }
    ensures calls { IfOk result (λ a. AreSteps (acts events.now) a.calls) }
{
    for event in events {
        board.perform(rt, &mut actor, event.copy())?;
    }
    Ok(actor)
}

/// The last absorbs: actor 0 absorbs parts 0 to 3 of each processor, in order.
pub(crate) fn absorb_all<S: Origin, R: Wait>(
    rt: &R,
    board: &RecordedBoard<S>,
    mut actor: Actor,
) -> Result<Actor, CallFault>
    requires own { actor.of ≡ board.now.name }
    requires bound { board.now.processors ≤ 64 }
    ensures of { IfOk result (λ a. a.of ≡ actor.of) }
    ensures number { IfOk result (λ a. a.number ≡ actor.number) }
    ensures calls { IfOk result
        (λ a. (more : List Call) × (a.calls ≡ actor.calls ++ more) × AreSteps (last_steps board.now.processors) more) }
{
    for place in 0..4 * u16::from(board.processors()) {
        board.absorb(rt, &mut actor, (place / 4) as u8, (place % 4) as u8)?;
    }
    Ok(actor)
}

/// An actor runs its script, each call between the two hooks of the gate.
pub(crate) fn act<S: Origin, R: Wait, G: Gate>(
    rt: &R,
    board: &RecordedBoard<S>,
    gate: &G,
    mut actor: Actor,
    script: &[Step],
) -> Result<Actor, WorkFault>
    requires own { actor.of ≡ board.now.name }
    requires new { actor.calls ≡ [] }
    ensures { IfOk result (HasActed board.now.name actor.number script.now) }
{
    let who = Worker::Acts(actor.number());
    let mut call = 0;
    for step in script {
        gate.enter(rt, who, call);
        match step {
            Step::Act(event) => board.perform(rt, &mut actor, event.copy())?,
            Step::Sweep { vp, part } => board.absorb(rt, &mut actor, *vp, *part)?,
        };
        gate.leave(rt, who, call);
        call += 1;
    }
    Ok(actor)
}

/// A line raises its vectors, each between the two hooks of the gate, and returns their results.
pub(crate) fn raise<S: Origin, R: Wait, G: Gate>(
    rt: &R,
    alloc: Global,
    board: &RecordedBoard<S>,
    gate: &G,
    who: Worker,
    mut line: Line,
    script: &[(Vp, Vector)],
) -> Result<(Line, Vec<Raised>), WorkFault>
    requires own { line.of ≡ board.now.name }
    requires new { line.actions ≡ [] }
    requires there { IsThere board.now.processors script.now }
    ensures { IfOk result (λ r. HasRaised board.now.name script.now r.0 r.1.items) }
{
    let mut answers = Vec::new(alloc);
    let mut call = 0;
    for (vp, vector) in script {
        if answers.reserve(1).is_err() {
            return Err(WorkFault::Memory);
        }
        gate.enter(rt, who, call);
        answers.push_reserved(board.raise(&mut line, *vp, *vector));
        gate.leave(rt, who, call);
        call += 1;
    }
    Ok((line, answers))
}
