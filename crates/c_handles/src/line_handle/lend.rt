// Borrowing the line of a handle.
ghost use Rattle.std.specs.Prelude.{◌≡◌, None, Some, MatchOption};
ghost use Rattle.std.specs.Borrow.{sem, LendsSo};
ghost use Rattle.c_handles.specs.contracts.line.OwnedLine.{the_row as line_row};
ghost use Rattle.c_handles.specs.contracts.line_handle.LineHandle.{the_row as handle_row};

use super::LineHandle;
use crate::OwnedLine;

impl LineHandle {
    /// A mutable reference to the line, if the handle is open. After the borrow the handle owns the
    /// line's final value. The handle's own bytes are not written.
    pub fn line_mut(&mut self) -> Option<&mut OwnedLine>
        ensures* writes_back { sem 𝓛
            (LendsSo handle_row line_row self.entry result (λ after line. after.line ≡ Some line)
            (λ after. after.line ≡ None)) }
        ensures found { MatchOption result (self.old.line ≡ None) (λ line. self.old.line ≡ Some line.now) }
    {
        if !self.is_open {
            return None;
        }
        let line = self.at as *mut OwnedLine;
        Some(unsafe { &mut *line })
    }
}
