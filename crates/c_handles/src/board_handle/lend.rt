// Borrowing the board of a handle.
ghost use Rattle.std.specs.Prelude.{◌≡◌, None, Some, MatchOption};
ghost use Rattle.std.specs.Borrow.{sem, LendsSo};
ghost use Rattle.c_handles.specs.contracts.any_board.AnyBoard.{the_row as board_row};
ghost use Rattle.c_handles.specs.contracts.board_handle.BoardHandle.{the_row as handle_row};

use super::BoardHandle;
use crate::AnyBoard;

impl BoardHandle {
    /// A mutable reference to the board, if the handle is open. After the borrow the handle owns the
    /// board's final value.
    pub fn board_mut(&mut self) -> Option<&mut AnyBoard>
        ensures* writes_back { sem 𝓛
            (LendsSo handle_row board_row self.entry result (λ after board. after.board ≡ Some board)
            (λ after. after.board ≡ None)) }
        ensures found { MatchOption result (self.old.board ≡ None) (λ board. self.old.board ≡ Some board.now) }
    {
        if !self.is_open {
            return None;
        }
        let board = self.at as *mut AnyBoard;
        Some(unsafe { &mut *board })
    }
}
