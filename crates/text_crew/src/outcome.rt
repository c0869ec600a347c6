// Running the crew of a whole script, and its trace.
ghost use Rattle.std.specs.Prelude.{◌≡◌, ◌≢◌, ◌<◌, ◌^◌, [], None, Some, IfOk, IfSome};
ghost use Rattle.synic_board.specs.State.{IsWithinLimits, opened};
ghost use Rattle.text_image.specs.Image.{image};
ghost use Rattle.text_restore.specs.Images.{IsImage};
ghost use Rattle.text_crew.specs.Running.{line_pages};
ghost use Rattle.text_crew.specs.inside.Good.{HasBoard, IsGoodOn};
ghost use Rattle.text_crew.specs.inside.Reporting.{Prepares};
ghost use Rattle.text_crew.specs.inside.Tracing.{Begins, IsTraced, begun_pages, begun_text};
ghost use Rattle.text_crew.specs.inside.View.{crew_of, image_in, state_in};

use crate::held::CrewScript;
use board_threads::{CrewFault, Ended, Gate, Setup, run_crew_on};
use law_images::laws::a_board_is_restored_from_its_image;
use std::alloc::{AllocError, Global};
use std::sync::Wait;
use std::thread::Threads;
use synic_board::{Board, OpenFault};
use text_history::{put_trace, put_trace_from_image};
use text_image::put_image;
use text_lines::open_board;

/// The result of running a crew.
#[derive(Clone, Copy)]
pub(crate) enum Outcome {
    Done,
    Unsettled,
    Memory,
    NoThread,
}

/// The board of a crew, and its image if it was given: then the trace begins with it.
#[derive(Drop)]
struct Begun {
    board: Board,
    image: Option<Vec<u8>>,
}

/// Runs the crew of a script, on a board that is given or that the script opens, and appends its trace to
/// `out`.
pub(crate) fn prepare<T: Threads + Wait + Sync, G: Gate + Sync>(
    rt: &T,
    alloc: Global,
    board: Option<Board>,
    script: &CrewScript,
    gate: &G,
    out: &mut Vec<u8>,
) -> Outcome
    requires empty { out.old.items ≡ [] }
    requires good { IsGoodOn (state_in board) (crew_of script.now) }
    ensures { Prepares (state_in board) result (crew_of script.now) out.new.items }
{
    let Some(begun) = begin(alloc, board, &script.setup) else {
        return Outcome::Memory;
    };
    let Begun { board, image } = begun;
    match run_crew_on(rt, alloc, board, &script.setup, &script.scripts, gate) {
        Ok(end) => put_ended(&script.setup, &image, &end.ended, out),
        Err(fault) => outcome_of(fault),
    }
}

/// The board that is given, with its image, or the one that a script opens. `None` if an allocation failed.
fn begin(alloc: Global, board: Option<Board>, setup: &Setup) -> Option<Begun>
    requires { HasBoard (state_in board) setup.now.processors setup.now.pages }
    ensures { IfSome result (λ b. Begins (state_in board) setup.now (image_in b.image) b.board.state) }
{
    let Some(board) = board else {
        let board = open_for(alloc, setup)?;
        return Some(Begun { board, image: None });
    };
    let Ok(image) = image_of(alloc, &board) else {
        return None;
    };
    let image = Some(image);
    Some(Begun { board, image })
}

/// Opens the board of a script.
fn open_for(alloc: Global, setup: &Setup) -> Option<Board>
    requires { IsWithinLimits setup.now.processors setup.now.pages }
    ensures opened { IfSome result
        (λ board. board.state ≡ opened setup.now.processors setup.now.pages setup.now.first_ticket) }
    ensures ticket { setup.now.first_ticket < 2 ^ 64 }
{
    let pages = line_pages(setup.pages);
    match open_board(alloc, setup.processors, pages, setup.first_ticket) {
        Ok(board) => Some(board),
        Err(OpenFault::BadSize) => unreachable!(),
        Err(OpenFault::Memory) => None,
    }
}

/// The pages in the board line of a board that holds so many; a sparse board holds none.
fn line_pages(pages: u8) -> Option<u8>
    ensures { result ≡ line_pages pages }
{
    match pages {
        0 => None,
        _ => Some(pages),
    }
}

/// The image of a board.
fn image_of(alloc: Global, board: &Board) -> Result<Vec<u8>, AllocError>
    ensures text { IfOk result (λ text. text.items ≡ image board.now.state) }
    ensures image { IsImage (image board.now.state) board.now.state }
{
    a_board_is_restored_from_its_image(board);
    let mut text = Vec::new(alloc);
    put_image(&mut text, board)?;
    Ok(text)
}

/// Appends the trace of a crew that has ended. It is separate from `prepare`, so that one owner drops the
/// crew.
fn put_ended(setup: &Setup, image: &Option<Vec<u8>>, ended: &Ended, out: &mut Vec<u8>) -> Outcome
    ensures { IsTraced (begun_pages (image_in image.now) setup.now.pages)
        (begun_text (image_in image.now) setup.now) result ended.now out.old.items out.new.items }
{
    let (history, next) = (ended.history.as_slice(), ended.board.next_ticket());
    let done = match image {
        Some(image) => put_trace_from_image(out, image.as_slice(), history, next),
        None => put_trace(
            out,
            setup.processors,
            line_pages(setup.pages),
            setup.first_ticket,
            history,
            next,
        ),
    };
    match done {
        Ok(()) => Outcome::Done,
        Err(_) => Outcome::Memory,
    }
}

/// The outcome for a fault of a crew. Its sizes and steps were validated line by line.
fn outcome_of(fault: CrewFault) -> Outcome
    requires size { fault ≢ CrewFault.BadSize }
    requires step { fault ≢ CrewFault.BadStep }
    ensures memory { fault ≡ CrewFault.Memory → result ≡ Outcome.Memory }
    ensures unsettled { fault ≡ CrewFault.Unsettled → result ≡ Outcome.Unsettled }
    ensures thread { fault ≡ CrewFault.NoThread → result ≡ Outcome.NoThread }
    ensures never_done { result ≢ Outcome.Done }
{
    match fault {
        CrewFault::BadSize | CrewFault::BadStep => unreachable!(),
        CrewFault::Memory => Outcome::Memory,
        CrewFault::NoThread => Outcome::NoThread,
        CrewFault::Unsettled => Outcome::Unsettled,
    }
}
