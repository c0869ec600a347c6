// Opening, restoring and closing boards.
ghost use Rattle.std.specs.Prelude.{◌≡◌, ◌≢◌, ◌<◌, ◌↔◌, true, [], ◌∷◌, IsSome, IfSome, IsErrOf, None};
ghost use Rattle.synic_board.specs.State.{AreSizes, IsCount};
ghost use Rattle.text_restore.specs.Images.{FirstWrong};
ghost use Rattle.c_handles.specs.declared.any_board.AnyBoard.TheVariants.{Plain};
ghost use Rattle.c_calls.specs.Opened.{IsNewBoard, IsRestoredBoard};
ghost use Rattle.c_calls.specs.inside.Opening.{IsPut};
ghost use Rattle.c_calls.specs.Outcomes.{is_among};

use crate::texts::{CEnd, not_written};
use board_terms::Notices;
use c_handles::{AnyBoard, BoardHandle, BoardWithNotices};
use std::alloc::Global;
use synic_board::{Board, OpenFault};
use text_restore::{RestoreEnd, restore};

/// Opens a board of that many processors and guest pages at time 0, in a closed handle. The first
/// message that it accepts gets the ticket `first_ticket`. Returns 0; or 1 unless there are 1 to 8
/// processors and 1 to 64 pages, 2 if an allocation fails, 3 if the handle is open. Allocates all
/// memory that events need.
#[unsafe(no_mangle)]
pub extern "C" fn synicboard_open(
    alloc: Global,
    handle: &mut BoardHandle,
    processors: u8,
    pages: u8,
    first_ticket: u64,
) -> u8
    ensures answers { result < 4 }
    ensures before { (result ≡ 3) ↔ IsSome handle.old.board }
    ensures size { (result ≡ 1) ↔ ((handle.old.board ≡ None) × (¬ AreSizes processors pages)) }
    ensures opened { result ≡ 0 → IsNewBoard processors pages first_ticket handle.new.board }
    ensures not_opened { result ≢ 0 → handle.new.board ≡ handle.old.board }
{
    if let Some(board) = handle.take(alloc) {
        let _ = handle.put(alloc, board);
        return 3;
    }
    let opened = BoardWithNotices::open(alloc, processors, pages, first_ticket);
    put_opened(alloc, handle, opened)
}

/// Opens a sparse board of that many processors at time 0, in a closed handle: its guest's pages are in
/// the caller's memory. The first message that it accepts gets the ticket `first_ticket`. Returns 0; or 1
/// unless there are 1 to 64 processors, 2 if an allocation fails, 3 if the handle is open. Allocates all
/// memory that events need.
#[unsafe(no_mangle)]
pub extern "C" fn synicboard_open_sparse(
    alloc: Global,
    handle: &mut BoardHandle,
    processors: u8,
    first_ticket: u64,
) -> u8
    ensures answers { result < 4 }
    ensures before { (result ≡ 3) ↔ IsSome handle.old.board }
    ensures size { (result ≡ 1) ↔ ((handle.old.board ≡ None) × (¬ IsCount processors)) }
    ensures opened { result ≡ 0 → IsNewBoard processors 0 first_ticket handle.new.board }
    ensures not_opened { result ≢ 0 → handle.new.board ≡ handle.old.board }
{
    if let Some(board) = handle.take(alloc) {
        let _ = handle.put(alloc, board);
        return 3;
    }
    let opened = BoardWithNotices::open_sparse(alloc, processors, first_ticket);
    put_opened(alloc, handle, opened)
}

/// Puts a board that was opened into a closed handle. Returns 0, or why there is none: 1 for its sizes, 2
/// for an allocation that failed.
fn put_opened(
    alloc: Global,
    handle: &mut BoardHandle,
    opened: Result<BoardWithNotices, OpenFault>,
) -> u8
    requires closed { handle.old.board ≡ None }
    ensures answers { result < 3 }
    ensures size { (result ≡ 1) ↔ IsErrOf opened OpenFault.BadSize }
    ensures put { result ≡ 0 → IsPut opened handle.new.board }
    ensures not_put { result ≢ 0 → handle.new.board ≡ None }
{
    let board = match opened {
        Ok(board) => board,
        Err(OpenFault::BadSize) => return 1,
        Err(OpenFault::Memory) => return 2,
    };
    match Box::new(alloc, AnyBoard::Plain(board)) {
        Ok(board) => {
            let _ = handle.put(alloc, board);
            0
        }
        Err(_) => 2,
    }
}

/// Restores a board from an image, in a closed handle. The result has kind 0; or 10 and the first wrong
/// line if the text is no image, 2 if an allocation fails, 3 if the handle is open, and 11 for a text
/// of more than 1,073,741,824 bytes.
#[unsafe(no_mangle)]
pub extern "C" fn synicboard_restore(alloc: Global, handle: &mut BoardHandle, image: &[u8]) -> CEnd
    ensures kinds { is_among (0 ∷ 2 ∷ 3 ∷ 10 ∷ 11 ∷ []) result.kind ≡ true }
    ensures before { (result.kind ≡ 3) ↔ IsSome handle.old.board }
    ensures restored { result.kind ≡ 0 → IsRestoredBoard image.now handle.new.board }
    ensures wrong { result.kind ≡ 10 → FirstWrong image.now result.line }
    ensures line { result.kind ≢ 10 → result.line ≡ 0 }
    ensures length { result.length ≡ 0 }
    ensures not_restored { result.kind ≢ 0 → handle.new.board ≡ handle.old.board }
{
    if let Some(board) = handle.take(alloc) {
        let _ = handle.put(alloc, board);
        return not_written(3, 0);
    }
    // README text_restore: begin
    let mut reader = image;
    let board = match restore(alloc, &mut reader) {
        RestoreEnd::Restored(board) => board,
        RestoreEnd::Refused(line) => return not_written(10, line),
        RestoreEnd::Memory => return not_written(2, 0),
        RestoreEnd::Reading => return not_written(11, 0),
    };
    // README text_restore: end
    match without_notices(alloc, board) {
        Some(owned) => {
            let _ = handle.put(alloc, owned);
            not_written(0, 0)
        }
        None => not_written(2, 0),
    }
}

/// A board without notices, as a handle owns it; `None` if an allocation failed.
fn without_notices(alloc: Global, board: Board) -> Option<Box<AnyBoard>>
    ensures { IfSome result (λ boxed. boxed.value ≡ Plain (record { board = board; notices = [] })) }
{
    let Ok(notices) = Notices::open(alloc) else {
        return None;
    };
    Box::new(alloc, AnyBoard::Plain(BoardWithNotices { board, notices })).ok()
}

/// Frees the board of a handle, and closes the handle.
#[unsafe(no_mangle)]
pub extern "C" fn synicboard_close(alloc: Global, handle: &mut BoardHandle)
    ensures { handle.new.board ≡ None }
{
    let _ = handle.take(alloc);
}
