// A C handle of a board.
ghost use Rattle.std.specs.Prelude.{◌≡◌, Option, None, Some, IfSome, IfNone};
ghost use Rattle.c_handles.specs.contracts.any_board.AnyBoard.{the_row as board_row};
ghost use Rattle.c_handles.specs.declared.any_board.AnyBoard.{AnyBoard as BoardValue};
ghost use Rattle.c_handles.specs.inside.Owned.{owned, code_of};

mod lend;

use crate::AnyBoard;
use std::alloc::Global;
use std::marker::Model;
use std::mem::replace;
use std::ptr;

/// A C handle that owns an optional board: its address, if it is open.
#[repr(C)]
pub struct BoardHandle {
    at: *mut u8,
    is_open: bool,
    pub ghost board: { Option BoardValue } by { code_of board_row },
}

impl Model for BoardHandle {
    ghost also_owns = { λ h. owned board_row h.is_open h.at h.board };
}

// It owns at most a `Box<AnyBoard>`, which is `Send`.
unsafe impl Send for BoardHandle {}

impl BoardHandle {
    /// A closed handle.
    pub fn closed() -> BoardHandle
        ensures { result.board ≡ None }
    {
        BoardHandle {
            at: ptr::null_mut(),
            is_open: false,
        }
    }

    /// A handle that owns this board.
    pub fn holding(board: Box<AnyBoard>) -> BoardHandle
        ensures { result.board ≡ Some board.value }
    {
        let at = Box::into_raw(board);
        BoardHandle {
            at: at as *mut u8,
            is_open: true,
        }
    }

    /// The board of the handle, if it is open.
    pub fn into_board(self, alloc: Global) -> Option<Box<AnyBoard>>
        ensures found { IfSome result (λ b. self.board ≡ Some b.value) }
        ensures none { IfNone result (self.board ≡ None) }
    {
        let BoardHandle { at, is_open } = self;
        if !is_open {
            return None;
        }
        let board = unsafe { Box::from_raw(alloc, at as *mut AnyBoard) };
        Some(board)
    }

    /// Removes the board and closes the handle.
    pub fn take(&mut self, alloc: Global) -> Option<Box<AnyBoard>>
        ensures found { IfSome result (λ b. self.old.board ≡ Some b.value) }
        ensures none { IfNone result (self.old.board ≡ None) }
        ensures after { self.new.board ≡ None }
    {
        replace(self, BoardHandle::closed()).into_board(alloc)
    }

    /// Stores a board, and returns the previous one.
    pub fn put(&mut self, alloc: Global, board: Box<AnyBoard>) -> Option<Box<AnyBoard>>
        ensures found { IfSome result (λ b. self.old.board ≡ Some b.value) }
        ensures none { IfNone result (self.old.board ≡ None) }
        ensures after { self.new.board ≡ Some board.value }
    {
        replace(self, BoardHandle::holding(board)).into_board(alloc)
    }
}
