// A C handle of a history.
ghost use Rattle.std.specs.Prelude.{◌≡◌, Option, None, Some, IfSome, IfNone};
ghost use Rattle.c_handles.specs.contracts.history.History.{the_row as history_row};
ghost use Rattle.c_handles.specs.Histories.{HistoryModel};
ghost use Rattle.c_handles.specs.inside.Owned.{owned, code_of};

mod lend;

use crate::History;
use std::alloc::Global;
use std::marker::Model;
use std::ptr;

/// A C handle that owns an optional history: its address, if it is open.
#[repr(C)]
pub struct HistoryHandle {
    at: *mut u8,
    is_open: bool,
    pub ghost history: { Option HistoryModel } by { code_of history_row },
}

impl Model for HistoryHandle {
    ghost also_owns = { λ h. owned history_row h.is_open h.at h.history };
}

// It owns at most a `Box<History>`, which is `Send`.
unsafe impl Send for HistoryHandle {}

impl HistoryHandle {
    /// A closed handle.
    pub fn closed() -> HistoryHandle
        ensures { result.history ≡ None }
    {
        HistoryHandle {
            at: ptr::null_mut(),
            is_open: false,
        }
    }

    /// A handle that owns this history.
    pub fn holding(history: Box<History>) -> HistoryHandle
        ensures { result.history ≡ Some history.value }
    {
        let at = Box::into_raw(history);
        HistoryHandle {
            at: at as *mut u8,
            is_open: true,
        }
    }

    /// The history of the handle, if it is open.
    pub fn into_history(self, alloc: Global) -> Option<Box<History>>
        ensures found { IfSome result (λ b. self.history ≡ Some b.value) }
        ensures none { IfNone result (self.history ≡ None) }
    {
        let HistoryHandle { at, is_open } = self;
        if !is_open {
            return None;
        }
        let history = unsafe { Box::from_raw(alloc, at as *mut History) };
        Some(history)
    }
}
