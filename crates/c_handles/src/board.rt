// A board together with the notices of its last event, for one caller.
ghost use Rattle.std.specs.Prelude.{◌≡◌, ◌↔◌, ◌≤◌, [], length, IfOk, IfErr, IsErrOf};
ghost use Rattle.synic_board.specs.declared.event.Event.TheVariants.{Post, Store};
ghost use Rattle.synic_board.specs.Performing.{Performs};
ghost use Rattle.synic_board.specs.State.{AreSizes, IsCount, opened};

use crate::LiveWithNotices;
use board_terms::{Notices, Ticket};
use std::alloc::Global;
use synic_board::{Board, Event, OpenFault, Reply};

/// A board and the notices of its last event.
#[derive(Drop)]
pub struct BoardWithNotices {
    /// The board.
    pub board: Board,
    /// The notices of the last event, in order.
    pub notices: Notices,
}

impl BoardWithNotices {
    /// Opens a board of that many processors and guest pages at time 0, without notices. The first
    /// message that it accepts gets the ticket `first_ticket`. `BadSize` unless there are 1 to 8
    /// processors and 1 to 64 pages. Allocates all memory that events need.
    pub fn open(
        alloc: Global,
        processors: u8,
        pages: u8,
        first_ticket: Ticket,
    ) -> Result<BoardWithNotices, OpenFault>
        ensures size { IsErrOf result OpenFault.BadSize ↔ (¬ AreSizes processors pages) }
        ensures board { IfOk result (λ d. d.board.state ≡ opened processors pages first_ticket) }
        ensures notices { IfOk result (λ d. d.notices ≡ []) }
    {
        let board = Board::open(alloc, processors, pages, first_ticket)?;
        match Notices::open(alloc) {
            Ok(notices) => Ok(BoardWithNotices { board, notices }),
            Err(_) => Err(OpenFault::Memory),
        }
    }

    /// Opens a sparse board of that many processors at time 0, without notices. `BadSize` unless there
    /// are 1 to 64 processors.
    pub fn open_sparse(
        alloc: Global,
        processors: u8,
        first_ticket: Ticket,
    ) -> Result<BoardWithNotices, OpenFault>
        ensures size { IsErrOf result OpenFault.BadSize ↔ (¬ IsCount processors) }
        ensures board { IfOk result (λ d. d.board.state ≡ opened processors 0 first_ticket) }
        ensures notices { IfOk result (λ d. d.notices ≡ []) }
    {
        let board = Board::open_sparse(alloc, processors, first_ticket)?;
        match Notices::open(alloc) {
            Ok(notices) => Ok(BoardWithNotices { board, notices }),
            Err(_) => Err(OpenFault::Memory),
        }
    }

    /// Performs an event and replaces the notices by its own. Never allocates. Inlined, as
    /// `Board::perform` is.
    #[inline(always)]
    pub fn perform(&mut self, event: &Event) -> Reply
        ensures performs { Performs self.old.board event.now self.new.board result self.new.notices }
        ensures most { length self.new.notices ≤ 276 }
    {
        self.board.perform(event, &mut self.notices)
    }

    /// `perform` of a post, with a borrowed payload of at most 240 bytes.
    #[inline(always)]
    pub fn post(&mut self, port: u8, kind: u32, payload: &[u8]) -> Reply
        requires { length payload.now ≤ 240 }
        ensures performs { Performs self.old.board
            (Post port kind (record { items = payload.now })) self.new.board result self.new.notices }
    {
        self.board.post(port, kind, payload, &mut self.notices)
    }

    /// `perform` of a store, with borrowed bytes. With 1 to 8 bytes it is the event `Event::Store`;
    /// no bytes or more than 8 are refused with `BadLength`.
    #[inline(always)]
    pub fn store(&mut self, address: u64, bytes: &[u8]) -> Reply
        ensures performs { Performs self.old.board
            (Store address (record { items = bytes.now })) self.new.board result self.new.notices }
    {
        self.board.store(address, bytes, &mut self.notices)
    }

    /// The board with live pages, without notices. If an allocation fails, returns it unchanged.
    pub fn into_live(self, alloc: Global) -> Result<LiveWithNotices, BoardWithNotices>
        ensures live { IfOk result (λ held. held.live.board ≡ self.board) }
        ensures notices { IfOk result (λ held. held.notices ≡ []) }
        ensures eoms { IfOk result (λ held. held.eoms ≡ 0) }
        ensures kept { IfErr result (λ back. back ≡ self) }
    {
        let BoardWithNotices { board, notices } = self;
        match LiveWithNotices::open(alloc, board) {
            Ok(live) => Ok(live),
            Err(board) => Err(BoardWithNotices { board, notices }),
        }
    }
}
