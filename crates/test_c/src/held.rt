// Open and closed handles. That a handle is `Send` is checked by the prover, at `crosses`: a
// closure for a thread would have to be dropped, which a handle does not allow.
use c_handles::{AnyBoard, BoardHandle, BoardWithNotices, LineHandle, OwnedLine};
use std::alloc::Global;

fn crosses<T: Send>(value: T) -> T {
    value
}

/// The number of processors of the board that a handle owns: borrowed, and then taken out.
fn processors_behind(mut handle: BoardHandle, alloc: Global) -> (Option<u8>, Option<u8>) {
    // README c_handles: begin
    let borrowed = match handle.board_mut() {
        Some(board) => Some(board.board().processors()),
        None => None,
    };
    let taken = match handle.into_board(alloc) {
        Some(board) => Some(board.board().processors()),
        None => None,
    };
    (borrowed, taken)
    // README c_handles: end
}

/// The handle of a board, or a closed one if an allocation fails.
fn board_handle(alloc: Global, processors: u8) -> BoardHandle {
    match BoardWithNotices::open(alloc, processors, 1, 0) {
        Ok(board) => match Box::new(alloc, AnyBoard::Plain(board)) {
            Ok(board) => BoardHandle::holding(board),
            Err(_) => BoardHandle::closed(),
        },
        Err(_) => BoardHandle::closed(),
    }
}

#[test]
fn a_board_crosses_with_its_handle(rt: HostRuntime) {
    let alloc = rt.alloc();
    let open = crosses(board_handle(alloc, 3));
    assert_eq!(rt; processors_behind(open, alloc), (Some(3), Some(3)));
    let closed = crosses(BoardHandle::closed());
    assert_eq!(rt; processors_behind(closed, alloc), (None, None));
}

/// The handle of a line, or a closed one if an allocation fails.
fn line_handle(alloc: Global, processors: u8) -> LineHandle {
    match OwnedLine::open(alloc, processors) {
        Ok(line) => match Box::new(alloc, line) {
            Ok(line) => LineHandle::holding(line),
            Err(_) => LineHandle::closed(),
        },
        Err(_) => LineHandle::closed(),
    }
}

/// Whether the line of a handle, once taken out, raises a vector of a processor; and whether the
/// handle has a line afterwards.
fn raises_behind(mut handle: LineHandle, alloc: Global, vp: u8) -> (Option<bool>, bool) {
    let raises = match handle.take(alloc) {
        Some(mut line) => Some(line.raise(vp, 0x60).is_some()),
        None => None,
    };
    (raises, handle.into_line(alloc).is_some())
}

#[test]
fn a_line_crosses_with_its_handle(rt: HostRuntime) {
    let alloc = rt.alloc();
    for (vp, raises) in [(2, true), (3, false)] {
        let open = crosses(line_handle(alloc, 3));
        assert_eq!(rt; raises_behind(open, alloc, vp), (Some(raises), false));
    }
    let closed = crosses(LineHandle::closed());
    assert_eq!(rt; raises_behind(closed, alloc, 0), (None, false));
}
