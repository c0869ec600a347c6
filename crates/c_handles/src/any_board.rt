// A board of either kind.
ghost use Rattle.std.specs.Prelude.{◌≡◌, ◌≤◌, [], length, IfOk, OnErr};
ghost use Rattle.synic_board.specs.declared.event.Event.TheVariants.{Absorb};
ghost use Rattle.synic_board.specs.Performing.{Performs};
ghost use Rattle.c_handles.specs.Kinds.{board_in, notices_in, eoms_in, pages_in, PerformsOn, IsRefreshedOn, IsMadeLive};

use crate::{BoardWithNotices, LiveWithNotices};
use board_terms::Notice;
use std::alloc::{AllocError, Global};
use std::mem::replace;
use synic_board::{Board, Event, Reply};

/// A board, plain or with live pages, and the notices of its last event.
#[derive(Drop)]
pub enum AnyBoard {
    /// A board whose pages only events change.
    Plain(BoardWithNotices),
    /// A board whose message and event flags pages a running guest loads and stores.
    Live(LiveWithNotices),
}

impl AnyBoard {
    /// The board, for its queries.
    pub fn board(&self) -> &Board
        ensures { result.now ≡ board_in self.now }
    {
        match self {
            AnyBoard::Plain(held) => &held.board,
            AnyBoard::Live(held) => held.live.board(),
        }
    }

    /// The notices of the last event.
    pub fn notices(&self) -> &[Notice]
        ensures value { result.now ≡ notices_in self.now }
        ensures bound { length result.now ≤ 22720 }
    {
        match self {
            AnyBoard::Plain(held) => held.notices.as_slice(),
            AnyBoard::Live(held) => held.notices.as_slice(),
        }
    }

    /// The processors of which the board performed an EOM after the last event, since a message waited whose
    /// slot the guest had emptied: bit p for processor p. None of a board without live pages.
    pub fn eoms(&self) -> u64
        ensures { result ≡ eoms_in self.now }
    {
        match self {
            AnyBoard::Plain(_) => 0,
            AnyBoard::Live(held) => held.eoms,
        }
    }

    /// Performs an event, and an EOM of each processor that is owed one after it, and replaces notices and
    /// EOMs by theirs. Never allocates. Inlined, as `Board::perform` is.
    #[inline(always)]
    pub fn perform(&mut self, event: &Event) -> Reply
        ensures { PerformsOn self.old event.now self.new result }
    {
        match self {
            AnyBoard::Plain(held) => held.perform(event),
            AnyBoard::Live(held) => held.perform(event),
        }
    }

    /// Brings the own pages of a board with live pages up to date, as `LiveBoard::refresh_all` does, for an
    /// image; the notices are those of the guest's stores that were found. Does nothing to any other board.
    pub fn refresh_all(&mut self)
        ensures { IsRefreshedOn self.old self.new }
    {
        match self {
            AnyBoard::Plain(_) => {}
            AnyBoard::Live(held) => held.refresh_all(),
        }
    }

    /// Performs `Event::Absorb`, which accesses no page.
    pub fn absorb(&mut self, vp: u8, part: u8, bits: u64) -> Reply
        ensures performs { Performs (board_in self.old) (Absorb vp part bits) (board_in self.new) result
            (notices_in self.new) }
        ensures eoms { eoms_in self.new ≡ 0 }
        ensures pages { pages_in self.new ≡ pages_in self.old }
    {
        let event = Event::Absorb { vp, part, bits };
        match self {
            AnyBoard::Plain(held) => held.perform(&event),
            AnyBoard::Live(held) => held.perform(&event),
        }
    }

    /// Gives a plain board live pages. If an allocation fails, nothing changes.
    pub fn make_live(&mut self, alloc: Global) -> Result<(), AllocError>
        ensures made { IfOk result (λ _. IsMadeLive self.old self.new) }
        ensures kept { OnErr result (self.new ≡ self.old) }
    {
        // it is here while the board itself moves
        let Ok(spare) = BoardWithNotices::open(alloc, 1, 1, 0) else {
            return Err(AllocError);
        };
        let (board, result) = replace(self, AnyBoard::Plain(spare)).with_pages(alloc);
        *self = board;
        result
    }

    /// A plain board with live pages, or a board unchanged.
    fn with_pages(self, alloc: Global) -> (AnyBoard, Result<(), AllocError>)
        ensures made { IfOk result.1 (λ _. IsMadeLive self result.0) }
        ensures kept { OnErr result.1 (result.0 ≡ self) }
    {
        match self {
            AnyBoard::Plain(held) => match held.into_live(alloc) {
                Ok(live) => (AnyBoard::Live(live), Ok(())),
                Err(back) => (AnyBoard::Plain(back), Err(AllocError)),
            },
            AnyBoard::Live(held) => (AnyBoard::Live(held), Ok(())),
        }
    }
}
