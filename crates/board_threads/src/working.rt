// The work of a crew on a shared board, and its end.
ghost use Rattle.std.specs.Prelude.{◌≡◌, ◌≤◌, ◌+◌, ◌*◌, false, length, IfOk, All, map, vec_len, Vec};
ghost use Rattle.std.specs.Global.{Global};
ghost use Rattle.std.specs.List.{range_with_len};
ghost use Rattle.posted_words.specs.Words.{Token};
ghost use Rattle.posted_words.specs.declared.line.Raised.{Raised};
ghost use Rattle.board_threads.specs.Sharing.{new_actor};
ghost use Rattle.board_threads.specs.Judging.{AreScriptSizes, has_bad_step};
ghost use Rattle.board_threads.specs.inside.Work.{IsNewLine, HaveWorked, InPlace};
ghost use Rattle.board_threads.specs.Crew.{IsCrewEnd};

use crate::actor::Actor;
use crate::crew::CrewEnd;
use crate::fault::WorkFault;
use crate::gate::Gate;
use crate::origin::Origin;
use crate::places::are_in_place;
use crate::recorded_board::RecordedBoard;
use crate::script::{Scripts, Setup};
use crate::settling::Ended;
use crate::threads::run_all;
use crate::workers::{absorb_all, perform_setup};
use posted_words::{Line, Raised};
use std::alloc::{AllocError, Global};
use std::sync::Wait;
use std::thread::Threads;

/// The actors and the lines when all threads have ended, with the results of the lines' raises.
#[derive(Drop)]
pub(crate) struct Worked {
    pub(crate) actors: Vec<Actor>,
    pub(crate) lines: Vec<Line>,
    pub(crate) raised: Vec<Vec<Raised>>,
}

/// The setup, then all scripts at once, then the last absorbs.
pub(crate) fn work<S: Origin, R: Threads + Wait + Sync, G: Gate + Sync>(
    rt: &R,
    alloc: Global,
    board: &RecordedBoard<S>,
    setup: &Setup,
    scripts: &Scripts,
    gate: &G,
    mut actors: Vec<Actor>,
    lines: Vec<Line>,
) -> Result<Worked, WorkFault>
    requires size { AreScriptSizes setup.now scripts.now }
    requires bound { setup.now.processors ≤ 64 }
    requires step { has_bad_step setup.now scripts.now ≡ false }
    requires board { board.now.processors ≡ setup.now.processors }
    requires actors { actors.items
        ≡ map (new_actor board.now.name) (range_with_len 0 (vec_len scripts.now.actors + 1)) }
    requires lines { All (IsNewLine board.now.name) lines.items }
    requires each { vec_len lines ≡ vec_len scripts.now.lines }
    ensures worked { IfOk result
        (λ w. HaveWorked board.now.name setup.now scripts.now w.actors.items w.lines.items w.raised.items) }
{
    let Ok(others) = actors.split_off(1) else {
        return Err(WorkFault::Memory);
    };
    let Some(main) = actors.pop() else {
        unreachable!()
    };
    let main = perform_setup(rt, board, main, setup.events.as_slice())?;
    let (mut others, ran) = run_all(rt, alloc, board, gate, scripts, others, lines)?;
    let main = absorb_all(rt, board, main)?;
    if actors.push(main).is_err() || actors.append(&mut others).is_err() {
        return Err(WorkFault::Memory);
    }
    let (lines, raised) = split_lines(alloc, ran)?;
    Ok(Worked {
        actors,
        lines,
        raised,
    })
}

/// The lines, and the results of their raises.
fn split_lines(
    alloc: Global,
    ran: Vec<(Line, Vec<Raised>)>,
) -> Result<(Vec<Line>, Vec<Vec<Raised>>), AllocError>
    ensures lines { IfOk result (λ r. r.0.items ≡ map (λ (x : Token × Vec Raised Global). x.0) ran.items) }
    ensures answers { IfOk result (λ r. r.1.items ≡ map (λ (x : Token × Vec Raised Global). x.1) ran.items) }
{
    let mut lines = Vec::new(alloc);
    let mut answers = Vec::new(alloc);
    for (line, raised) in ran {
        lines.reserve(1)?;
        answers.reserve(1)?;
        lines.push_reserved(line);
        answers.push_reserved(raised);
    }
    Ok((lines, answers))
}

/// Settles a board, and checks where the calls of actor 0 are in its history.
pub(crate) fn finish<S: Origin>(
    board: RecordedBoard<S>,
    setup: &Setup,
    scripts: &Scripts,
    worked: Worked,
) -> Result<CrewEnd, WorkFault>
    requires worked { HaveWorked board.name setup.now scripts.now worked.actors.items worked.lines.items
        worked.raised.items }
    requires processors { board.processors ≡ setup.now.processors }
    ensures { IfOk result (IsCrewEnd S.start setup.now scripts.now) }
{
    let Worked {
        actors,
        lines,
        raised,
    } = worked;
    let ended = board.settle(actors, lines)?;
    crew_end(setup, ended, raised)
}

/// The result of a crew, if the first and the last entries of its history are by actor 0, and the
/// last absorbs left no bit.
fn crew_end(setup: &Setup, ended: Ended, raised: Vec<Vec<Raised>>) -> Result<CrewEnd, WorkFault>
    ensures ended { IfOk result (λ c. c.ended ≡ ended) }
    ensures raised { IfOk result (λ c. c.raised ≡ raised) }
    ensures placed { IfOk result
        (λ _. InPlace (length setup.now.events.items) (4 * setup.now.processors) ended.history.items) }
    ensures clear { IfOk result (λ _. All (λ word. word ≡ 0) ended.standing) }
{
    let ends = 4 * usize::from(setup.processors);
    if !are_in_place(ended.history.as_slice(), setup.events.len(), ends)
        || !ended.standing.is_clear()
    {
        return Err(WorkFault::Unsettled);
    }
    Ok(CrewEnd { ended, raised })
}
