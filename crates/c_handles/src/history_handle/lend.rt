// Borrowing the history of a handle.
ghost use Rattle.std.specs.Prelude.{◌≡◌, None, Some, MatchOption};
ghost use Rattle.std.specs.Borrow.{sem, LendsSo};
ghost use Rattle.c_handles.specs.contracts.history.History.{the_row as history_row};
ghost use Rattle.c_handles.specs.contracts.history_handle.HistoryHandle.{the_row as handle_row};

use super::HistoryHandle;
use crate::History;

impl HistoryHandle {
    /// A mutable reference to the history, if the handle is open. After the borrow the handle owns the
    /// history's final value. The handle's own bytes are not written.
    pub fn history_mut(&mut self) -> Option<&mut History>
        ensures* writes_back { sem 𝓛
            (LendsSo handle_row history_row self.entry result (λ after history. after.history ≡ Some history)
            (λ after. after.history ≡ None)) }
        ensures found { MatchOption result (self.old.history ≡ None) (λ history. self.old.history ≡ Some history.now) }
    {
        if !self.is_open {
            return None;
        }
        let history = self.at as *mut History;
        Some(unsafe { &mut *history })
    }
}
