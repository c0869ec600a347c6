// Performing a line, and its answer.
ghost use Rattle.std.specs.Prelude.{◌≡◌, ◌≤◌, [], ◌∷◌, ◌++◌, length, map, MatchBool, IfOk, OnOk, true, None, Some};
ghost use Rattle.text_base.specs.Fields.{fields_of};
ghost use Rattle.text_lines.specs.Items.{Summary};
ghost use Rattle.text_lines.specs.Reading.{opening_item, parse_event, parse_item};
ghost use Rattle.text_lines.specs.Printing.{text_of, reply_fields, notice_fields};
ghost use Rattle.text_lines.specs.declared.fault.ScriptFault.TheVariants.{Form};
ghost use Rattle.text_script.specs.Script.{item_fault};
ghost use Rattle.text_script.specs.inside.Judging.{IsAnswered, Advances, IsFaulty, AnswersItem, PutsAnswer, PassesItem, machine_of};
ghost use Rattle.text_driver.specs.Judging.{Judges, Answers};

use board_terms::{Notice, Notices};
use std::alloc::Global;
use synic_board::{Board, OpenFault, Reply};
use text_base::{Fields, Sink};
use text_driver::Taken;
use text_lines::{
    ScriptFault, open_board, opening_of, perform_event, put_notices, put_reply, put_summary, skips,
};

/// Validates a line, performs it, and appends the answer to `out`.
#[inline(always)]
pub(crate) fn respond<S: Sink>(
    alloc: Global,
    board: &mut Option<Board>,
    line: &[u8],
    notices: &mut Notices,
    out: &mut S,
) -> Result<Taken<ScriptFault>, S::Error>
    requires { length line.now ≤ 640 }
    ensures { IfOk result (λ taken. Answers IsAnswered IsFaulty taken (machine_of board.old) (machine_of board.new)
        line.now (S.text out.old) (S.text out.new)) }
{
    if skips(line) {
        return Ok(Taken::Good);
    }
    match board {
        Some(board) => take_line(board, line, notices, out),
        None => Ok(open(alloc, board, line)),
    }
}

/// Validates a line and performs it, without an answer.
#[inline(always)]
pub(crate) fn advance(
    alloc: Global,
    board: &mut Option<Board>,
    line: &[u8],
    notices: &mut Notices,
) -> Taken<ScriptFault>
    requires short { length line.now ≤ 640 }
    ensures { Judges (λ old text answer new. Advances old text new) IsFaulty result (machine_of board.old)
        (machine_of board.new) line.now [] }
{
    if skips(line) {
        return Taken::Good;
    }
    match board {
        Some(board) => pass_line(board, line, notices),
        None => open(alloc, board, line),
    }
}

/// Takes the first item, which must be a board line. Out of line, since it has a board on its stack: other
/// lines need not make room for one.
#[inline(never)]
fn open(alloc: Global, board: &mut Option<Board>, line: &[u8]) -> Taken<ScriptFault>
    requires { board.old ≡ None }
    ensures { AnswersItem result (parse_item (fields_of line.now)) None (machine_of board.new) [] }
{
    match Fields::new(line).after(b"board") {
        Some(mut sizes) => open_sized(alloc, board, &mut sizes),
        None => Taken::Wrong(ScriptFault::First),
    }
}

/// Opens the board with the sizes in the fields.
fn open_sized(
    alloc: Global,
    board: &mut Option<Board>,
    fields: &mut Fields<'_>,
) -> Taken<ScriptFault>
    requires { board.old ≡ None }
    ensures { AnswersItem result (opening_item fields.old) None (machine_of board.new) [] }
{
    let Some((processors, pages, ticket)) = opening_of(fields) else {
        return Taken::Wrong(ScriptFault::First);
    };
    match open_board(alloc, processors, pages, ticket) {
        Ok(opened) => {
            *board = Some(opened);
            Taken::Good
        }
        Err(OpenFault::BadSize) => Taken::Wrong(ScriptFault::Size),
        Err(OpenFault::Memory) => Taken::Memory,
    }
}

/// Takes the line of an event or the line `summary`.
#[inline(always)]
fn take_line<S: Sink>(
    board: &mut Board,
    line: &[u8],
    notices: &mut Notices,
    out: &mut S,
) -> Result<Taken<ScriptFault>, S::Error>
    ensures { IfOk result (λ taken. PutsAnswer taken (parse_item (fields_of line.now)) (Some board.old.state)
        (Some board.new.state) (S.text out.old) (S.text out.new)) }
{
    // README text_lines: begin
    let performed = perform_event(&Fields::new(line), board, notices, |reply| reply);
    let Some(reply) = performed else {
        return take_summary(board, line, out);
    };
    put_outcome(out, reply, notices.as_slice())?;
    Ok(Taken::Good)
    // README text_lines: end
}

/// Takes the same lines without an answer.
#[inline(always)]
fn pass_line(board: &mut Board, line: &[u8], notices: &mut Notices) -> Taken<ScriptFault>
    ensures { PassesItem result (parse_item (fields_of line.now)) (Some board.old.state) (Some board.new.state) }
{
    match perform_event(&Fields::new(line), board, notices, |_| ()) {
        Some(()) => Taken::Good,
        None if is_summary(line) => Taken::Good,
        None => Taken::Wrong(ScriptFault::Form),
    }
}

/// Takes the line `summary`, or a line that has no event.
#[inline(never)]
fn take_summary<S: Sink>(
    board: &Board,
    line: &[u8],
    out: &mut S,
) -> Result<Taken<ScriptFault>, S::Error>
    requires { parse_event (fields_of line.now) ≡ None }
    ensures { IfOk result (λ taken. PutsAnswer taken (parse_item (fields_of line.now)) (Some board.now.state)
        (Some board.now.state) (S.text out.old) (S.text out.new)) }
{
    if !is_summary(line) {
        return Ok(Taken::Wrong(ScriptFault::Form));
    }
    put_summary(out, board.summary(), board.processors(), board.pages())?;
    Ok(Taken::Good)
}

/// Whether a line that has no event is the line `summary`.
fn is_summary(line: &[u8]) -> bool
    requires { parse_event (fields_of line.now) ≡ None }
    ensures { MatchBool result (parse_item (fields_of line.now) ≡ Some Summary)
        (item_fault true (parse_item (fields_of line.now)) ≡ Some Form) }
{
    match Fields::new(line).after(b"summary") {
        Some(rest) => rest.is_empty(),
        None => false,
    }
}

/// Appends a reply, and a line for each notice, to `out`.
#[inline(always)]
fn put_outcome<S: Sink>(out: &mut S, reply: Reply, notices: &[Notice]) -> Result<(), S::Error>
    ensures { OnOk result (S.text out.new
        ≡ S.text out.old ++ text_of (reply_fields reply ∷ map notice_fields notices.now)) }
{
    put_reply(out, reply)?;
    put_notices(out, notices)
}
