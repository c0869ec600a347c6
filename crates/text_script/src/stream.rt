// Replaying a script from a reader to a writer.
ghost use Rattle.text_base.specs.Streams.{ReadsUpTo};
ghost use Rattle.std.specs.Prelude.{Some};
ghost use Rattle.text_script.specs.Streams.{Replays, ReplaysOn, SavesText, most_read, StopsNear};
ghost use Rattle.text_script.specs.inside.Judging.{machine_of, conclusion, Concludes, Finishes, SavesEnd, SavesImage};

use crate::judge::{SaveJudge, ScriptJudge};
use board_terms::Notices;
use std::alloc::Global;
use std::io::{self, Read, Write};
use synic_board::Board;
use text_driver::{End, close, drive};
use text_image::{SaveEnd, save};
use text_lines::{ScriptFault, put_fault};

/// How a replay or a save ends.
#[derive(Clone, Copy, PartialEq, Eq, Debug)]
pub enum ReplayEnd {
    /// The whole script was performed.
    Done,
    /// A line is wrong; no line after it was performed. Lines are counted from 1.
    Script { line: u64, fault: ScriptFault },
    /// An allocation failed.
    Memory,
    /// A read failed, or the input has more than 1,073,741,824 bytes.
    Reading,
    /// A write or a flush failed, or a write returned 0.
    Writing,
}

/// Performs the script of the reader on a board of its own, and writes its output: the answers to
/// the lines in order, and the fault of a wrong line. What was answered is written, and the writer
/// flushed, before each read and at the end. The memory that this allocates does not depend on the
/// length of the script.
pub fn replay<R: Read, W: Write>(alloc: Global, reader: &mut R, writer: &mut W) -> ReplayEnd
    ensures text { Replays result (R.remaining reader.old) (R.remaining reader.new) (W.contents writer.old)
        (W.contents writer.new) }
    ensures limit { ReadsUpTo (most_read result) (R.remaining reader.old) (R.remaining reader.new) }
    ensures near { StopsNear result (R.remaining reader.old) (R.remaining reader.new) }
{
    perform_script(alloc, None, reader, writer)
}

/// Performs the script of the reader on a board that is open, such as one that was restored. The
/// script has no board line. Otherwise the same as `replay`.
pub fn replay_on<R: Read, W: Write>(
    alloc: Global,
    board: Board,
    reader: &mut R,
    writer: &mut W,
) -> ReplayEnd
    ensures text { ReplaysOn (Some board.state) result (R.remaining reader.old) (R.remaining reader.new)
        (W.contents writer.old) (W.contents writer.new) }
    ensures limit { ReadsUpTo (most_read result) (R.remaining reader.old) (R.remaining reader.new) }
    ensures near { StopsNear result (R.remaining reader.old) (R.remaining reader.new) }
{
    perform_script(alloc, Some(board), reader, writer)
}

/// Performs a script on this board, or on the one that its first line opens.
fn perform_script<R: Read, W: Write>(
    alloc: Global,
    board: Option<Board>,
    reader: &mut R,
    writer: &mut W,
) -> ReplayEnd
    ensures text { ReplaysOn (machine_of board) result (R.remaining reader.old) (R.remaining reader.new)
        (W.contents writer.old) (W.contents writer.new) }
    ensures limit { ReadsUpTo (most_read result) (R.remaining reader.old) (R.remaining reader.new) }
    ensures near { StopsNear result (R.remaining reader.old) (R.remaining reader.new) }
{
    let Ok(notices) = Notices::open(alloc) else {
        return ReplayEnd::Memory;
    };
    let mut judge = ScriptJudge {
        alloc,
        board,
        notices,
    };
    // README text_driver: begin
    let end = drive(alloc, reader, writer, &mut judge);
    // README text_driver: end
    conclude(alloc, writer, end, judge.board.is_some())
}

/// Writes what is left to write when reading ends. It is separate from `perform_script`, so that one owner
/// drops everything.
fn conclude<W: Write>(
    alloc: Global,
    writer: &mut W,
    end: End<ScriptFault>,
    is_open: bool,
) -> ReplayEnd
    ensures { Concludes (conclusion end is_open) result (W.contents writer.old) (W.contents writer.new) }
{
    match end {
        End::Last { .. } if is_open => finish(alloc, writer, None),
        End::Last { line } => finish(alloc, writer, Some((line, ScriptFault::First))),
        End::Wrong { line, fault } => finish(alloc, writer, Some((line, fault))),
        End::Long { line } => finish(alloc, writer, Some((line, ScriptFault::Long))),
        End::Cut { line } => finish(alloc, writer, Some((line, ScriptFault::Cut))),
        End::Memory => ReplayEnd::Memory,
        End::Reading => ReplayEnd::Reading,
        End::Writing => ReplayEnd::Writing,
    }
}

/// Writes the fault's line, if there is a fault, and flushes.
fn finish<W: Write>(alloc: Global, writer: &mut W, fault: Option<(u64, ScriptFault)>) -> ReplayEnd
    ensures { Finishes result fault (W.contents writer.old) (W.contents writer.new) }
{
    let mut out = Vec::new(alloc);
    if let Some((line, fault)) = fault {
        if put_fault(&mut out, line, fault).is_err() {
            return ReplayEnd::Memory;
        }
    }
    if !close(writer, out.as_slice()) {
        return ReplayEnd::Writing;
    }
    match fault {
        Some((line, fault)) => ReplayEnd::Script { line, fault },
        None => ReplayEnd::Done,
    }
}

/// Performs the script of the reader on a board of its own, and writes the image of the board at its
/// end. If a line is wrong, writes only its fault. Nothing is written before the whole script is
/// read, and the writer is flushed at the end.
pub fn save_script<R: Read, W: Write>(alloc: Global, reader: &mut R, writer: &mut W) -> ReplayEnd
    ensures text { SavesText result (R.remaining reader.old) (R.remaining reader.new) (W.contents writer.old)
        (W.contents writer.new) }
    ensures limit { ReadsUpTo (most_read result) (R.remaining reader.old) (R.remaining reader.new) }
    ensures near { StopsNear result (R.remaining reader.old) (R.remaining reader.new) }
{
    let Ok(notices) = Notices::open(alloc) else {
        return ReplayEnd::Memory;
    };
    let script = ScriptJudge {
        alloc,
        board: None,
        notices,
    };
    let mut judge = SaveJudge { script };
    let end = drive(alloc, reader, &mut io::sink(), &mut judge);
    conclude_save(alloc, writer, end, &judge.script.board)
}

/// Writes the image of the board, or the fault's line. It is separate from `save_script`, so that one
/// owner drops everything.
fn conclude_save<W: Write>(
    alloc: Global,
    writer: &mut W,
    end: End<ScriptFault>,
    board: &Option<Board>,
) -> ReplayEnd
    ensures { SavesEnd end (machine_of board.now) result (W.contents writer.old) (W.contents writer.new) }
{
    match end {
        End::Last { .. } => match board {
            Some(board) => save_board(writer, board),
            None => conclude(alloc, writer, end, false),
        },
        _ => conclude(alloc, writer, end, false),
    }
}

/// Writes the image of a board, and flushes.
fn save_board<W: Write>(writer: &mut W, board: &Board) -> ReplayEnd
    ensures { SavesImage result board.now.state (W.contents writer.old) (W.contents writer.new) }
{
    match save(board, writer) {
        SaveEnd::Done => ReplayEnd::Done,
        SaveEnd::Writing => ReplayEnd::Writing,
    }
}
