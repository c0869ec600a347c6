// The stages of a trace's check, and its board.
ghost use Rattle.std.specs.Prelude.{◌≡◌, ◌<◌, ◌-◌, ◌^◌, [], IfOk, None};
ghost use Rattle.std.specs.Str.{bytes_eq};
ghost use Rattle.text_base.specs.Fields.{spaced};
ghost use Rattle.text_lines.specs.Performing.{PerformsLine};
ghost use Rattle.text_lines.specs.Printing.{reply_fields};
ghost use Rattle.text_history.specs.Trace.{end_fields};
ghost use Rattle.text_driver.specs.Judging.{Judges};
ghost use Rattle.text_restore.specs.Taking.{stage_of as image_stage_of};
ghost use Rattle.text_trace.specs.inside.Stages.{Title, Opening, Running, Over, entry_at, board_at, begins_image, stage_of, count, IsGood, IsWrong, Opens, Reads, HasImage, has_fields, started, Runs, IsOver};

use board_terms::{Notices, Ticket};
use std::alloc::{AllocError, Global};
use std::mem::replace;
use synic_board::{Board, OpenFault, Reply};
use text_base::Fields;
use text_driver::Taken;
use text_history::{Format, put_end};
use text_lines::{open_board, opening_of, perform_event, put_reply, u8_of};
use text_restore::{Stage as ImageStage, board_of, has_ended, take_line as take_image_line};

/// Which line of a trace comes next.
#[derive(Drop)]
pub(crate) enum Stage {
    /// The title.
    Title,
    /// The board line, or the first line of an image.
    Opening(Format),
    /// A line of the image, of which these were read.
    Image(Format, ImageStage),
    /// The reply that is due, or else an event or the end line, after that many entries.
    Running {
        format: Format,
        board: Board,
        entries: u64,
        due: Option<Reply>,
    },
    /// Nothing, after that many entries.
    Over(u64),
}

/// The result of a board line.
#[derive(Drop)]
enum Opened {
    Board(Board),
    Wrong,
    Memory,
}

/// The result of a line of an image, or after the beginning of a trace.
#[derive(Clone, Copy)]
enum Ran {
    On,
    End,
    Wrong,
    Memory,
}

/// Takes a line, if it is allowed here.
pub(crate) fn take_line(
    alloc: Global,
    stage: &mut Stage,
    line: &[u8],
    notices: &mut Notices,
    out: &mut Vec<u8>,
) -> Taken<()>
    requires bound { count (stage_of stage.old) < 2 ^ 64 - 1 }
    ensures { Judges IsGood IsWrong result (stage_of stage.old) (stage_of stage.new) line.now [] }
{
    match stage {
        Stage::Title => take_title(stage, line),
        Stage::Opening(format) => {
            let format = *format;
            take_opening(alloc, stage, format, line)
        }
        Stage::Image(_, image) => match read_line(alloc, image, line) {
            Ran::On => Taken::Good,
            Ran::End => {
                start(stage);
                Taken::Good
            }
            Ran::Wrong => Taken::Wrong(()),
            Ran::Memory => Taken::Memory,
        },
        Stage::Running {
            format,
            board,
            entries,
            due,
        } => match run_line(*format, board, entries, due, line, notices, out) {
            Ran::On => Taken::Good,
            Ran::End => {
                let all = *entries;
                close(stage, all);
                Taken::Good
            }
            Ran::Wrong => Taken::Wrong(()),
            Ran::Memory => Taken::Memory,
        },
        Stage::Over(_) => Taken::Wrong(()),
    }
}

// Stages are written in separate functions: where one is constructed its memory is zeroed first,
// which must not happen for each line.

/// Takes the title.
#[inline(never)]
fn take_title(stage: &mut Stage, line: &[u8]) -> Taken<()>
    requires { stage_of stage.old ≡ Title }
    ensures { Judges IsGood IsWrong result (stage_of stage.old) (stage_of stage.new) line.now [] }
{
    let format = if line == b"trace 1".as_slice() {
        Format::One
    } else if line == b"trace 2".as_slice() {
        Format::Two
    } else if line == b"trace 3".as_slice() {
        Format::Three
    } else {
        return Taken::Wrong(());
    };
    set(stage, Stage::Opening(format));
    Taken::Good
}

/// Takes the board line, or the first line of an image.
#[inline(never)]
fn take_opening(alloc: Global, stage: &mut Stage, format: Format, line: &[u8]) -> Taken<()>
    requires { stage_of stage.old ≡ Opening format }
    ensures { Judges IsGood IsWrong result (stage_of stage.old) (stage_of stage.new) line.now [] }
{
    if begins_image(format, line) {
        set(stage, Stage::Image(format, ImageStage::Titled));
        return Taken::Good;
    }
    match open(alloc, format, line) {
        Opened::Board(board) => {
            set(stage, begun(format, board));
            Taken::Good
        }
        Opened::Wrong => Taken::Wrong(()),
        Opened::Memory => Taken::Memory,
    }
}

/// Whether a line is the first of an image, with which a trace of this format may begin.
fn begins_image(format: Format, line: &[u8]) -> bool
    ensures { result ≡ begins_image format line.now }
{
    format.may_restore() && line == b"image 1".as_slice()
}

/// Takes a line of the image, and returns whether it is the end.
fn read_line(alloc: Global, image: &mut ImageStage, line: &[u8]) -> Ran
    ensures { Reads result (image_stage_of image.old) (image_stage_of image.new) line.now }
{
    match take_image_line(alloc, image, line) {
        Taken::Good => {}
        Taken::Wrong(()) => return Ran::Wrong,
        Taken::Memory => return Ran::Memory,
    }
    if has_ended(image) { Ran::End } else { Ran::On }
}

/// Starts the history, on the board of the image.
#[inline(never)]
fn start(stage: &mut Stage)
    requires whole { HasImage (stage_of stage.old) }
    ensures { stage_of stage.new ≡ started (stage_of stage.old) }
{
    let Stage::Image(format, image) = replace(stage, Stage::Title) else {
        unreachable!()
    };
    let Some(board) = board_of(image) else {
        unreachable!()
    };
    set(stage, begun(format, board));
}

/// Ends the trace after that many entries.
#[inline(never)]
fn close(stage: &mut Stage, entries: u64)
    ensures { stage_of stage.new ≡ Over entries }
{
    set(stage, Stage::Over(entries));
}

/// The stage in which a history begins on this board.
fn begun(format: Format, board: Board) -> Stage
    ensures { stage_of result ≡ Running format board.state 0 None }
{
    Stage::Running {
        format,
        board,
        entries: 0,
        due: None,
    }
}

/// Replaces the stage. Only here is one dropped, since what drops a board takes long to prove.
fn set(stage: &mut Stage, next: Stage)
    ensures { stage.new ≡ next }
{
    *stage = next;
}

/// The number of entries of a complete trace.
pub(crate) fn entries_of(stage: &Stage) -> Option<u64>
    ensures { IsOver result (stage_of stage.now) }
{
    match stage {
        Stage::Over(entries) => Some(*entries),
        _ => None,
    }
}

/// Opens the board of a board line, if the line may be in this format.
#[tactic(auto, unfolding(crate::specs::inside::Stages::board_at))]
fn open(alloc: Global, format: Format, line: &[u8]) -> Opened
    ensures { Opens result format line.now }
{
    let mut fields = Fields::new(line);
    let Some(word) = fields.next() else {
        return Opened::Wrong;
    };
    if word != b"board".as_slice() {
        return Opened::Wrong;
    }
    let Some((processors, pages, ticket)) = opening_of(&mut fields) else {
        return Opened::Wrong;
    };
    if !format.may_open(pages) {
        return Opened::Wrong;
    }
    match open_board(alloc, processors, pages, ticket) {
        Ok(board) => Opened::Board(board),
        Err(OpenFault::BadSize) => Opened::Wrong,
        Err(OpenFault::Memory) => Opened::Memory,
    }
}

/// Takes a line after the board line: the reply that is due, an event, which is performed, or the
/// end line.
fn run_line(
    format: Format,
    board: &mut Board,
    entries: &mut u64,
    due: &mut Option<Reply>,
    line: &[u8],
    notices: &mut Notices,
    out: &mut Vec<u8>,
) -> Ran
    requires bound { entries.old < 2 ^ 64 - 1 }
    ensures { Runs result format board.old.state entries.old due.old board.new.state entries.new due.new line.now }
{
    if let Some(reply) = due.take() {
        return match is_reply(reply, line, out) {
            Ok(true) => Ran::On,
            Ok(false) => Ran::Wrong,
            Err(_) => Ran::Memory,
        };
    }
    match is_end(format, *entries, board.next_ticket(), line, out) {
        Ok(true) => return Ran::End,
        Ok(false) => {}
        Err(_) => return Ran::Memory,
    }
    let Some(reply) = perform_entry(format, line, board, notices) else {
        return Ran::Wrong;
    };
    *due = Some(reply);
    *entries += 1;
    Ran::On
}

/// Whether a line is the line of this reply.
fn is_reply(reply: Reply, line: &[u8], out: &mut Vec<u8>) -> Result<bool, AllocError>
    ensures { IfOk result (λ is. is ≡ bytes_eq line.now (spaced (reply_fields reply))) }
{
    out.clear();
    put_reply(out, reply)?;
    let text = out.as_slice();
    Ok(line == &text[..text.len() - 1])
}

/// Whether a line is the end line after that many entries, with this next ticket.
fn is_end(
    format: Format,
    entries: u64,
    next: Ticket,
    line: &[u8],
    out: &mut Vec<u8>,
) -> Result<bool, AllocError>
    ensures { IfOk result (λ is. is ≡ bytes_eq line.now (spaced (end_fields format entries next))) }
{
    if line.first() != Some(&b'e') {
        return Ok(false);
    }
    out.clear();
    put_end(out, format, entries, next)?;
    Ok(line == out.as_slice())
}

/// Performs the event of a line after an actor's number, if it has a line in the format, and returns
/// its reply.
#[tactic(auto, unfolding(crate::specs::inside::Stages::entry_at))]
fn perform_entry(
    format: Format,
    line: &[u8],
    board: &mut Board,
    notices: &mut Notices,
) -> Option<Reply>
    ensures { PerformsLine result (entry_at format line.now) board.old board.new notices.new }
{
    let mut fields = Fields::new(line);
    u8_of(&mut fields)?;
    if !has_fields(format, &fields) {
        return None;
    }
    perform_event(&fields, board, notices, |reply| reply)
}

/// Whether an event whose line has these fields has a line in this format.
fn has_fields(format: Format, fields: &Fields<'_>) -> bool
    ensures { result ≡ has_fields format fields.now }
{
    match format {
        Format::One => fields.after(b"reset").is_none() && fields.after(b"send").is_none(),
        Format::Two => fields.after(b"send").is_none(),
        Format::Three => true,
    }
}
