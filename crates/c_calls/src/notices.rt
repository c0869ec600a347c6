// The notices of the last event.
ghost use Rattle.std.specs.Prelude.{◌≡◌, length};
ghost use Rattle.c_terms.specs.Rooms.{Fronts};
ghost use Rattle.c_calls.specs.Looks.{notices_of};

use c_handles::BoardHandle;
use c_terms::{CNotice, put_plain};

/// Copies the notices of the last event, as many as fit, and returns how many there are. No event
/// emits more than 276.
#[unsafe(no_mangle)]
pub extern "C" fn synicboard_notices(handle: &mut BoardHandle, room: &mut [CNotice]) -> usize
    ensures board { handle.new.board ≡ handle.old.board }
    ensures count { result ≡ length (notices_of handle.old.board) }
    ensures copied { Fronts (notices_of handle.old.board) room.old room.new }
{
    let Some(board) = handle.board_mut() else {
        return 0;
    };
    let notices = board.notices();
    put_plain(notices, room);
    notices.len()
}
