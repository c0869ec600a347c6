// Boards with a history: the trace of events that were performed, refused and absorbed, and that a
// handle crosses to another thread.
use c_handles::{BoardWithNotices, History, OwnedLine, RecordedHandle};
use c_terms::trace_of;
use std::alloc::Global;
use synic_board::Event;

fn crosses<T: Send>(value: T) -> T {
    value
}

/// Whether a handle has a board and a history, before they are freed.
fn has_both(handle: RecordedHandle, alloc: Global) -> bool {
    let RecordedHandle { board, history } = handle;
    let has_board = board.into_board(alloc).is_some();
    history.into_history(alloc).is_some() && has_board
}

/// The handle of a board with its history, or a closed one if an allocation fails.
fn recorded_handle(alloc: Global) -> RecordedHandle {
    match RecordedHandle::open(alloc, 8, 64, 0) {
        Ok(handle) => handle,
        Err(_) => RecordedHandle::closed(),
    }
}

#[test]
fn a_recorded_board_crosses_with_its_handle(rt: HostRuntime) {
    let alloc = rt.alloc();
    let open = crosses(recorded_handle(alloc));
    assert!(rt; has_both(open, alloc));
    let closed = crosses(RecordedHandle::closed());
    assert!(rt; !has_both(closed, alloc));
}

/// The trace of an event that is refused, and of an absorb of what a line raised. `None` if an
/// allocation fails.
fn trace_of_two(alloc: Global) -> Option<Vec<u8>> {
    let mut line = OwnedLine::open(alloc, 2).ok()?;
    let _ = line.raise(1, 0x41);
    // README c_handles: begin
    let mut board = BoardWithNotices::open(alloc, 2, 1, 7).ok()?;
    let mut history = History::new(alloc, 2, 1, 7);
    let _ = history.act(&mut board, 255, &Event::Take { vp: 2 }).ok()?;
    let _ = history.absorb(&mut board, 0, &mut line, 1, 1).ok()?;
    // README c_handles: end
    trace_of(alloc, &history, board.board.next_ticket()).ok()
}

#[test]
fn a_history_has_what_was_refused_and_absorbed(rt: HostRuntime) {
    let trace = trace_of_two(rt.alloc());
    let text = b"trace 2\nboard 2 1 7\n255 take 2\n= refused 14\n0 absorb 1 1 2\n= done\nend 2 7\n";
    assert!(rt; trace.is_some_and(|trace| trace.as_slice() == text.as_slice()));
}
