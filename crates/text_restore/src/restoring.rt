// Restoring a board from the image of a reader.
ghost use Rattle.std.specs.Prelude.{IfSome};
ghost use Rattle.text_base.specs.Streams.{ReadsUpTo};
ghost use Rattle.text_restore.specs.Images.{EndsRestore, most_read, StopsNear};
ghost use Rattle.text_restore.specs.Taking.{stage_of};
ghost use Rattle.text_restore.specs.inside.Concluding.{Concludes, Finishes};

use crate::judge::ImageJudge;
use crate::stage::{Stage, board_of};
use std::alloc::Global;
use std::io::{self, Read};
use synic_board::Board;
use text_driver::{End, drive};

/// How a restore ends.
#[derive(Drop)]
pub enum RestoreEnd {
    /// The input is an image, and this is its board.
    Restored(Board),
    /// The input is no image; this line is the first wrong one. Lines are counted from 1.
    Refused(u64),
    /// An allocation failed.
    Memory,
    /// A read failed, or the input has more than 1,073,741,824 bytes.
    Reading,
}

/// Restores a board from the image that `save` wrote. Each line is checked when it is read, against
/// the lines before it: an image that was cut, changed or forged is refused at its first wrong line,
/// or leads to a board on which everything holds that holds on an opened one. Allocates the board,
/// and 8 bytes for each message.
pub fn restore<R: Read>(alloc: Global, reader: &mut R) -> RestoreEnd
    ensures text { IfSome (R.remaining reader.old) (EndsRestore result) }
    ensures limit { ReadsUpTo (most_read result) (R.remaining reader.old) (R.remaining reader.new) }
    ensures near { StopsNear result (R.remaining reader.old) (R.remaining reader.new) }
{
    let mut judge = ImageJudge {
        alloc,
        stage: Stage::Untitled,
    };
    let end = drive(alloc, reader, &mut io::sink(), &mut judge);
    conclude(end, judge.stage)
}

/// The result of a drive that left this stage. A write to the sink never fails.
fn conclude(end: End<()>, stage: Stage) -> RestoreEnd
    ensures { Concludes end (stage_of stage) result }
{
    match end {
        End::Last { line } => finish(line, stage),
        End::Wrong { line, .. } | End::Long { line } | End::Cut { line } => {
            RestoreEnd::Refused(line)
        }
        End::Memory | End::Writing => RestoreEnd::Memory,
        End::Reading => RestoreEnd::Reading,
    }
}

/// The board of a complete image, whose next line would be that one.
fn finish(line: u64, stage: Stage) -> RestoreEnd
    ensures { Finishes line (stage_of stage) result }
{
    match board_of(stage) {
        Some(board) => RestoreEnd::Restored(board),
        None => RestoreEnd::Refused(line),
    }
}
