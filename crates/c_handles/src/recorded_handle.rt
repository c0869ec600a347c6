// A C handle of a board with its history.
ghost use Rattle.c_handles.specs.inside.Leading.{LeadsTo, LeadsTo-prop};

use crate::{AnyBoard, BoardHandle, BoardWithNotices, History, HistoryHandle};
use board_terms::Ticket;
use std::alloc::Global;
use synic_board::OpenFault;

/// A C handle that owns an optional board with its history. Invariant: there are both or neither,
/// and the history, which is legal, leads to the state of the board, which has no live pages.
#[repr(C)]
pub struct RecordedHandle {
    /// The board.
    pub board: BoardHandle,
    /// Its history.
    pub history: HistoryHandle,
    pub ghost leads: { LeadsTo history.history board.board } by { LeadsTo-prop history.history board.board },
}

impl RecordedHandle {
    ghost use Rattle.std.specs.Prelude.{◌≡◌, ◌↔◌, None, IfOk, IsErrOf};
    ghost use Rattle.synic_board.specs.State.{AreSizes};
    ghost use Rattle.c_handles.specs.Recorded.{recorded_of, IsNewlyRecorded};

    /// A closed handle.
    pub fn closed() -> RecordedHandle
        ensures { recorded_of result ≡ None }
    {
        RecordedHandle {
            board: BoardHandle::closed(),
            history: HistoryHandle::closed(),
        }
    }

    /// Opens a board of that many processors and guest pages at time 0, with an empty history. The
    /// first message that it accepts gets the ticket `first_ticket`. `BadSize` unless there are 1 to
    /// 8 processors and 1 to 64 pages.
    pub fn open(
        alloc: Global,
        processors: u8,
        pages: u8,
        first_ticket: Ticket,
    ) -> Result<RecordedHandle, OpenFault>
        ensures size { IsErrOf result OpenFault.BadSize ↔ (¬ AreSizes processors pages) }
        ensures opened { IfOk result (λ h. IsNewlyRecorded processors pages first_ticket (recorded_of h)) }
    {
        let board = BoardWithNotices::open(alloc, processors, pages, first_ticket)?;
        let history = History::new(alloc, processors, pages, first_ticket);
        let (Ok(board), Ok(history)) = (
            Box::new(alloc, AnyBoard::Plain(board)),
            Box::new(alloc, history),
        ) else {
            return Err(OpenFault::Memory);
        };
        Ok(RecordedHandle {
            board: BoardHandle::holding(board),
            history: HistoryHandle::holding(history),
        })
    }

    /// Frees the board and its history.
    pub fn close(self, alloc: Global) {
        let RecordedHandle { board, history } = self;
        let _ = board.into_board(alloc);
        let _ = history.into_history(alloc);
    }
}
