// Performing an event on a board.
ghost use Rattle.std.specs.Prelude.{◌≡◌, None, Some};
ghost use Rattle.c_handles.specs.declared.any_board.AnyBoard.TheVariants.{Plain, Live};
ghost use Rattle.c_calls.specs.Performing.{IsPerformed};

use c_handles::{AnyBoard, BoardHandle, BoardWithNotices, LiveWithNotices};
use c_terms::{CReply, Fault, fault_to_c, reply_to_c};
use synic_board::Event;

/// Performs an event on a board.
pub(crate) fn perform_in(board: &mut AnyBoard, event: &Event) -> CReply
    ensures { IsPerformed (Some event.now) (Some board.old) (Some board.new) result }
{
    match board {
        AnyBoard::Plain(board) => perform_plain(board, event),
        AnyBoard::Live(board) => perform_live(board, event),
    }
}

/// Performs an event on a board without live pages. Inlined in each call, where the kind of the event is a
/// constant.
#[inline(always)]
pub(crate) fn perform_plain(board: &mut BoardWithNotices, event: &Event) -> CReply
    ensures { IsPerformed (Some event.now) (Some (Plain board.old)) (Some (Plain board.new)) result }
{
    let reply = board.perform(event);
    reply_to_c(reply, board.notices.as_slice().len() as u16)
}

/// Performs an event on a board with live pages. Out of line, since it has the code of all kinds.
#[inline(never)]
pub(crate) fn perform_live(board: &mut LiveWithNotices, event: &Event) -> CReply
    ensures { IsPerformed (Some event.now) (Some (Live board.old)) (Some (Live board.new)) result }
{
    let reply = board.perform(event);
    reply_to_c(reply, board.notices.as_slice().len() as u16)
}

/// The reply of a call whose arguments encode no event.
pub(crate) fn no_event(handle: &mut BoardHandle) -> CReply
    ensures board { handle.new.board ≡ handle.old.board }
    ensures performed { IsPerformed None handle.old.board handle.new.board result }
{
    // README c_handles: begin
    match handle.board_mut() {
        Some(_) => fault_to_c(Fault::NoEvent),
        None => fault_to_c(Fault::Closed),
    }
    // README c_handles: end
}
