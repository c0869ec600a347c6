// A board with live pages together with the notices of its last event, for one caller.
ghost use Rattle.std.specs.Prelude.{◌≡◌, ◌<◌, ◌≤◌, [], length, IfOk, IfErr};
ghost use Rattle.live_board.specs.Acting.{Acts};
ghost use Rattle.live_board.specs.Live.{IsObserved};
ghost use Rattle.live_board.specs.Refreshing.{IsRefreshed, AreAllRefreshed};
ghost use Rattle.synic_board.specs.declared.event.Event.TheVariants.{Post, Store};
ghost use Rattle.synic_board.specs.State.{processors};

use board_terms::{Bytes8, Vp};
use live_board::{LiveBoard, LiveNotices};
use std::alloc::Global;
use synic_board::{Board, Event, Reply};

/// A board with live pages and the notices of its last event.
#[derive(Drop)]
pub struct LiveWithNotices {
    /// The board with its live pages.
    pub live: LiveBoard,
    /// The notices of the last event, and of the EOMs after it, in order.
    pub notices: LiveNotices,
    /// The processors of which the board performed an EOM after the last event: bit p for processor p.
    pub eoms: u64,
}

impl LiveWithNotices {
    /// A live board around a board, without notices. If an allocation fails, returns the board.
    pub fn open(alloc: Global, board: Board) -> Result<LiveWithNotices, Board>
        ensures live { IfOk result (λ held. held.live.board ≡ board) }
        ensures notices { IfOk result (λ held. held.notices ≡ []) }
        ensures eoms { IfOk result (λ held. held.eoms ≡ 0) }
        ensures kept { IfErr result (λ back. back ≡ board) }
    {
        let Ok(notices) = LiveNotices::open(alloc) else {
            return Err(board);
        };
        let (live, _) = LiveBoard::open(alloc, board)?;
        Ok(LiveWithNotices {
            live,
            notices,
            eoms: 0,
        })
    }

    /// Performs an event, and an EOM of each processor that is owed one after it, and replaces notices and
    /// EOMs by theirs. Never allocates. Inlined, as `LiveBoard::perform` is.
    #[inline(always)]
    pub fn perform(&mut self, event: &Event) -> Reply
        ensures { Acts self.old.live event.now self.new.live result self.new.eoms self.new.notices }
    {
        let (reply, eoms) = self.live.perform(event, &mut self.notices);
        self.eoms = eoms;
        reply
    }

    /// `perform` of a post, with a borrowed payload of at most 240 bytes.
    #[inline(always)]
    pub fn post(&mut self, port: u8, kind: u32, payload: &[u8]) -> Reply
        requires { length payload.now ≤ 240 }
        ensures { Acts self.old.live (Post port kind (record { items = payload.now })) self.new.live result
            self.new.eoms self.new.notices }
    {
        self.eoms = 0;
        self.live.post(port, kind, payload, &mut self.notices)
    }

    /// `perform` of a store of at most 8 bytes.
    pub fn store(&mut self, address: u64, bytes: &[u8]) -> Reply
        requires { length bytes.now ≤ 8 }
        ensures { Acts self.old.live (Store address (record { items = bytes.now })) self.new.live result
            self.new.eoms self.new.notices }
    {
        let mut stored = Bytes8::new();
        let Ok(()) = stored.try_extend_from_slice(bytes) else {
            unreachable!()
        };
        let event = Event::Store {
            address,
            bytes: stored,
        };
        self.perform(&event)
    }

    /// Looks at the header of each message slot of a processor, and replaces the notices by those of the
    /// guest's stores that were found.
    pub fn observe(&mut self, vp: Vp)
        requires { vp < processors self.old.live.board.state }
        ensures observed { IsObserved vp self.old.live self.new.live self.new.notices }
        ensures eoms { self.new.eoms ≡ 0 }
    {
        self.eoms = 0;
        self.live.observe(vp, &mut self.notices);
    }

    /// Looks at all words of both live pages of a processor that the guest sees, and replaces the notices
    /// by those of the guest's stores that were found.
    pub fn refresh(&mut self, vp: Vp)
        requires { vp < processors self.old.live.board.state }
        ensures refreshed { IsRefreshed vp self.old.live self.new.live self.new.notices }
        ensures eoms { self.new.eoms ≡ 0 }
    {
        self.eoms = 0;
        self.live.refresh(vp, &mut self.notices);
    }

    /// `refresh` of each processor.
    pub fn refresh_all(&mut self)
        ensures refreshed { AreAllRefreshed self.old.live self.new.live self.new.notices }
        ensures eoms { self.new.eoms ≡ 0 }
    {
        self.eoms = 0;
        self.live.refresh_all(&mut self.notices);
    }

    /// Removes the notices and the EOMs of the last event.
    pub fn clear(&mut self)
        ensures live { self.new.live ≡ self.old.live }
        ensures notices { self.new.notices ≡ [] }
        ensures eoms { self.new.eoms ≡ 0 }
    {
        self.eoms = 0;
        self.notices.clear();
    }
}
