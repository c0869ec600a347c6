// A C handle of a line.
ghost use Rattle.std.specs.Prelude.{◌≡◌, Option, None, Some, IfSome, IfNone};
ghost use Rattle.c_handles.specs.contracts.line.OwnedLine.{the_row as line_row};
ghost use Rattle.c_handles.specs.Lines.{LineModel};
ghost use Rattle.c_handles.specs.inside.Owned.{owned, code_of};

mod lend;

use crate::OwnedLine;
use std::alloc::Global;
use std::marker::Model;
use std::mem::replace;
use std::ptr;

/// A C handle that owns an optional line: its address, if it is open.
#[repr(C)]
pub struct LineHandle {
    at: *mut u8,
    is_open: bool,
    pub ghost line: { Option LineModel } by { code_of line_row },
}

impl Model for LineHandle {
    ghost also_owns = { λ h. owned line_row h.is_open h.at h.line };
}

// It owns at most a `Box<OwnedLine>`, which is `Send`.
unsafe impl Send for LineHandle {}

impl LineHandle {
    /// A closed handle.
    pub fn closed() -> LineHandle
        ensures { result.line ≡ None }
    {
        LineHandle {
            at: ptr::null_mut(),
            is_open: false,
        }
    }

    /// A handle that owns this line.
    pub fn holding(line: Box<OwnedLine>) -> LineHandle
        ensures { result.line ≡ Some line.value }
    {
        let at = Box::into_raw(line);
        LineHandle {
            at: at as *mut u8,
            is_open: true,
        }
    }

    /// The line of the handle, if it is open.
    pub fn into_line(self, alloc: Global) -> Option<Box<OwnedLine>>
        ensures found { IfSome result (λ b. self.line ≡ Some b.value) }
        ensures none { IfNone result (self.line ≡ None) }
    {
        let LineHandle { at, is_open } = self;
        if !is_open {
            return None;
        }
        let line = unsafe { Box::from_raw(alloc, at as *mut OwnedLine) };
        Some(line)
    }

    /// Removes the line and closes the handle.
    pub fn take(&mut self, alloc: Global) -> Option<Box<OwnedLine>>
        ensures found { IfSome result (λ b. self.old.line ≡ Some b.value) }
        ensures none { IfNone result (self.old.line ≡ None) }
        ensures after { self.new.line ≡ None }
    {
        replace(self, LineHandle::closed()).into_line(alloc)
    }

    /// Stores a line, and returns the previous one.
    pub fn put(&mut self, alloc: Global, line: Box<OwnedLine>) -> Option<Box<OwnedLine>>
        ensures found { IfSome result (λ b. self.old.line ≡ Some b.value) }
        ensures none { IfNone result (self.old.line ≡ None) }
        ensures after { self.new.line ≡ Some line.value }
    {
        replace(self, LineHandle::holding(line)).into_line(alloc)
    }
}
