// A crew of actors and lines on one board.
ghost use Rattle.std.specs.Prelude.{◌≡◌, ◌↔◌, ◌≤◌, true, false, IfOk, OnOk, IsErrOf};
ghost use Rattle.synic_board.specs.State.{opened, processors};
ghost use Rattle.board_threads.specs.Judging.{IsSized, IsSizedOn, has_bad_step};
ghost use Rattle.board_threads.specs.Crew.{IsCrewEnd};

use crate::fault::WorkFault;
use crate::gate::Gate;
use crate::origin::Origin;
use crate::recorded_board::RecordedBoard;
use crate::script::{Scripts, Setup, has_bad, is_sized, is_sized_on};
use crate::settling::Ended;
use crate::working::{finish, work};
use posted_words::Raised;
use std::alloc::Global;
use std::marker::Brand;
use std::sync::Wait;
use std::thread::Threads;
use synic_board::Board;
use thiserror::Error;

/// Why a crew has no result. `BadSize` is checked first, then `BadStep`; that no thread is started
/// then is shown by tests.
#[derive(Clone, Copy, PartialEq, Eq, Debug, Drop, Error)]
pub enum CrewFault {
    /// A board's size is outside its limits, or a board that is given has another number of
    /// processors, or there are more than 15 actors' scripts, more than 16 lines, or more than 65,536
    /// entries with the setup and the last absorbs.
    #[error("the sizes are outside the limits")]
    BadSize = 1,
    /// An event is an absorb, or a line raises at a processor that is not on the board.
    #[error("a step is none of a crew")]
    BadStep = 2,
    /// An allocation failed.
    #[error("out of memory")]
    Memory = 3,
    /// The calls of the threads are no history of the crew.
    #[error("the history is not settled")]
    Unsettled = 4,
    /// A thread could not be started.
    #[error("no thread")]
    NoThread = 5,
}

/// The result of a crew: that of settling the board, and for each line the results of its raises.
#[derive(Drop)]
pub struct CrewEnd {
    pub ended: Ended,
    pub raised: Vec<Vec<Raised>>,
}

/// Runs a crew on a board of its own. Actor 0 performs the setup; then each actor from 1 on and
/// each line from 0 on runs its script, concurrently: the first of them in the caller's thread, each
/// other in a thread of its own. When all have ended, actor 0 absorbs parts 0 to 3 of each processor
/// in order. Then the board is settled.
pub fn run_crew<R: Threads + Wait + Sync, G: Gate + Sync>(
    rt: &R,
    alloc: Global,
    setup: &Setup,
    scripts: &Scripts,
    gate: &G,
) -> Result<CrewEnd, CrewFault>
    ensures size { IsErrOf result CrewFault.BadSize ↔ (¬ IsSized setup.now scripts.now) }
    ensures step { IsErrOf result CrewFault.BadStep ↔ IsSized setup.now scripts.now
        × (has_bad_step setup.now scripts.now ≡ true) }
    ensures ended { IfOk result
        (IsCrewEnd (opened setup.now.processors setup.now.pages setup.now.first_ticket) setup.now scripts.now) }
{
    let fits = is_sized(setup, scripts);
    check_crew(fits, setup, scripts)?;
    let opened = Board::open(alloc, setup.processors, setup.pages, setup.first_ticket);
    let Ok(board) = opened else {
        return Err(CrewFault::Memory);
    };
    Ok(run_checked::<Brand, _, _>(rt, alloc, board, setup, scripts, gate)?)
}

/// Runs a crew on a board in the state that it is in, as `run_crew` does on one of its own. Of the
/// setup only the processors, which must be those of the board, and the events are used; the pages and
/// the first ticket are not.
pub fn run_crew_on<R: Threads + Wait + Sync, G: Gate + Sync>(
    rt: &R,
    alloc: Global,
    board: Board,
    setup: &Setup,
    scripts: &Scripts,
    gate: &G,
) -> Result<CrewEnd, CrewFault>
    ensures size { IsErrOf result CrewFault.BadSize ↔ (¬ IsSizedOn (processors board.state) setup.now scripts.now) }
    ensures step { IsErrOf result CrewFault.BadStep ↔ IsSizedOn (processors board.state) setup.now scripts.now
        × (has_bad_step setup.now scripts.now ≡ true) }
    ensures ended { IfOk result (IsCrewEnd board.state setup.now scripts.now) }
{
    let fits = is_sized_on(board.processors(), setup, scripts);
    check_crew(fits, setup, scripts)?;
    Ok(run_checked::<Brand, _, _>(rt, alloc, board, setup, scripts, gate)?)
}

/// Whether a crew may run. `fits` is whether its sizes are within the limits.
fn check_crew(fits: bool, setup: &Setup, scripts: &Scripts) -> Result<(), CrewFault>
    ensures size { IsErrOf result CrewFault.BadSize ↔ (fits ≡ false) }
    ensures step { IsErrOf result CrewFault.BadStep ↔ (fits ≡ true) × (has_bad_step setup.now scripts.now ≡ true) }
    ensures ok { OnOk result ((fits ≡ true) × (has_bad_step setup.now scripts.now ≡ false)) }
{
    if !fits {
        return Err(CrewFault::BadSize);
    }
    if has_bad(setup, scripts) {
        return Err(CrewFault::BadStep);
    }
    Ok(())
}

/// Runs a crew with valid sizes and steps on a board.
fn run_checked<S: Origin, R: Threads + Wait + Sync, G: Gate + Sync>(
    rt: &R,
    alloc: Global,
    board: Board,
    setup: &Setup,
    scripts: &Scripts,
    gate: &G,
) -> Result<CrewEnd, WorkFault>
    requires start { board.state ≡ S.start }
    requires size { IsSizedOn (processors board.state) setup.now scripts.now }
    requires bound { setup.now.processors ≤ 64 }
    requires step { has_bad_step setup.now scripts.now ≡ false }
    ensures { IfOk result (IsCrewEnd S.start setup.now scripts.now) }
{
    let Ok((board, actors, lines)) = RecordedBoard::<S>::share(
        alloc,
        board,
        scripts.actors.len() as u8 + 1,
        scripts.lines.len() as u8,
    ) else {
        return Err(WorkFault::Memory);
    };
    let worked = work(rt, alloc, &board, setup, scripts, gate, actors, lines)?;
    finish(board, setup, scripts, worked)
}
