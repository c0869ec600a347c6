// Running a crew script from a reader, and writing the trace of its crew.
ghost use Rattle.std.specs.Prelude.{None, Some, IfOk, IfErr};
ghost use Rattle.text_base.specs.Streams.{ReadsUpTo};
ghost use Rattle.text_crew.specs.Crew.{finished};
ghost use Rattle.text_crew.specs.Running.{IsKnownOutput, Writes, most_read, StopsNear};
ghost use Rattle.text_crew.specs.inside.Good.{IsGoodOn};
ghost use Rattle.text_crew.specs.inside.Reporting.{IsWhole, Refusal, Report, most_taken};
ghost use Rattle.text_crew.specs.inside.View.{crew_of, state_in};

use crate::held::CrewScript;
use crate::judge::CrewJudge;
use crate::outcome::{Outcome, prepare};
use board_threads::Gate;
use std::alloc::Global;
use std::io::{Read, Write};
use std::sync::Wait;
use std::thread::Threads;
use synic_board::Board;
use text_driver::{End, close, drive};
use text_lines::{ScriptFault, put_fault};

/// The result of a crew script.
#[derive(Clone, Copy, PartialEq, Eq, Debug)]
pub enum CrewRun {
    /// The crew was run, and the trace of its history was written.
    Done,
    /// A line of the script is wrong; tests show that no thread is started then. Lines are counted
    /// from 1.
    Script { line: u64, fault: ScriptFault },
    /// The calls of the threads are no history of the crew.
    Unsettled,
    /// An allocation failed.
    Memory,
    /// A thread could not be started.
    NoThread,
    /// A read failed, or the input has more than 1,073,741,824 bytes.
    Reading,
    /// A write or a flush failed, or a write returned 0.
    Writing,
}

/// Reads a whole crew script, runs its crew on a board of its own, the actors and lines concurrently,
/// and writes the trace of the run: of format 3 if the board is sparse or the run has a send, otherwise
/// of format 2. If a line is wrong, writes only its fault.
/// The gate is called around each call of an actor or a line. The script and the history are kept in
/// memory.
pub fn crew<T: Threads + Wait + Sync, R: Read, W: Write, G: Gate + Sync>(
    rt: &T,
    alloc: Global,
    reader: &mut R,
    writer: &mut W,
    gate: &G,
) -> CrewRun
    ensures text { Writes (IsKnownOutput None (R.remaining reader.old)) result (W.contents writer.old)
        (W.contents writer.new) }
    ensures limit { ReadsUpTo (most_read result) (R.remaining reader.old) (R.remaining reader.new) }
    ensures near { StopsNear result (R.remaining reader.old) (R.remaining reader.new) }
{
    run_script(rt, alloc, None, reader, writer, gate)
}

/// Runs a crew on a board that is open, such as one that was restored. The script has no board line,
/// and the trace, of format 3, begins with the image of the board, which it also allocates. Otherwise
/// the same as `crew`.
pub fn crew_on<T: Threads + Wait + Sync, R: Read, W: Write, G: Gate + Sync>(
    rt: &T,
    alloc: Global,
    board: Board,
    reader: &mut R,
    writer: &mut W,
    gate: &G,
) -> CrewRun
    ensures text { Writes (IsKnownOutput (Some board.state) (R.remaining reader.old)) result (W.contents writer.old)
        (W.contents writer.new) }
    ensures limit { ReadsUpTo (most_read result) (R.remaining reader.old) (R.remaining reader.new) }
    ensures near { StopsNear result (R.remaining reader.old) (R.remaining reader.new) }
{
    run_script(rt, alloc, Some(board), reader, writer, gate)
}

/// Runs the crew of a script on this board, or on the one that its first line opens.
fn run_script<T: Threads + Wait + Sync, R: Read, W: Write, G: Gate + Sync>(
    rt: &T,
    alloc: Global,
    board: Option<Board>,
    reader: &mut R,
    writer: &mut W,
    gate: &G,
) -> CrewRun
    ensures text { Writes (IsKnownOutput (state_in board) (R.remaining reader.old)) result (W.contents writer.old)
        (W.contents writer.new) }
    ensures limit { ReadsUpTo (most_read result) (R.remaining reader.old) (R.remaining reader.new) }
    ensures near { StopsNear result (R.remaining reader.old) (R.remaining reader.new) }
{
    match read_script(alloc, &board, reader, writer) {
        Ok(script) => run(rt, alloc, board, script, writer, gate),
        Err(end) => end,
    }
}

/// Reads a whole crew script, for this board or for one that its first line opens. Returns how the run ends if
/// there is no such script, and then its fault's line was written.
fn read_script<R: Read, W: Write>(
    alloc: Global,
    board: &Option<Board>,
    reader: &mut R,
    writer: &mut W,
) -> Result<CrewScript, CrewRun>
    ensures whole { IfOk result (λ script. IsWhole (state_in board.now) (crew_of script) (R.remaining reader.old)
        (W.contents writer.old) (W.contents writer.new)) }
    ensures text { IfErr result (λ end. Writes (IsKnownOutput (state_in board.now) (R.remaining reader.old)) end
        (W.contents writer.old) (W.contents writer.new)) }
    ensures limit { ReadsUpTo (most_taken result) (R.remaining reader.old) (R.remaining reader.new) }
    ensures near { IfErr result (λ end. StopsNear end (R.remaining reader.old) (R.remaining reader.new)) }
{
    let mut judge = CrewJudge {
        alloc,
        script: CrewScript::on(alloc, board),
    };
    match drive(alloc, reader, writer, &mut judge) {
        End::Last { line } => match judge.script {
            Some(script) => Ok(script),
            None => Err(refuse(alloc, writer, line, ScriptFault::First)),
        },
        End::Wrong { line, fault } => Err(refuse(alloc, writer, line, fault)),
        End::Long { line } => Err(refuse(alloc, writer, line, ScriptFault::Long)),
        End::Cut { line } => Err(refuse(alloc, writer, line, ScriptFault::Cut)),
        End::Memory => Err(CrewRun::Memory),
        End::Reading => Err(CrewRun::Reading),
        End::Writing => Err(CrewRun::Writing),
    }
}

/// Writes a fault's line.
fn refuse<W: Write>(alloc: Global, writer: &mut W, line: u64, fault: ScriptFault) -> CrewRun
    ensures { Writes (Refusal line fault) result (W.contents writer.old) (W.contents writer.new) }
{
    let mut out = Vec::new(alloc);
    if put_fault(&mut out, line, fault).is_err() {
        return CrewRun::Memory;
    }
    if !close(writer, out.as_slice()) {
        return CrewRun::Writing;
    }
    CrewRun::Script { line, fault }
}

/// Runs the crew of a script, and writes the result. The whole text is formatted before its first
/// byte is written, so that an allocation failure leaves no partial text.
fn run<T: Threads + Wait + Sync, W: Write, G: Gate + Sync>(
    rt: &T,
    alloc: Global,
    board: Option<Board>,
    mut script: CrewScript,
    writer: &mut W,
    gate: &G,
) -> CrewRun
    requires good { IsGoodOn (state_in board) (finished (crew_of script)) }
    ensures { Writes (Report (state_in board) (finished (crew_of script))) result (W.contents writer.old)
        (W.contents writer.new) }
{
    if script.close().is_err() {
        return CrewRun::Memory;
    }
    let mut out = Vec::new(alloc);
    match prepare(rt, alloc, board, &script, gate, &mut out) {
        Outcome::Memory => CrewRun::Memory,
        Outcome::NoThread => CrewRun::NoThread,
        Outcome::Unsettled => {
            if !close(writer, b"! settle\n") {
                return CrewRun::Writing;
            }
            CrewRun::Unsettled
        }
        Outcome::Done => {
            if !close(writer, out.as_slice()) {
                return CrewRun::Writing;
            }
            CrewRun::Done
        }
    }
}
