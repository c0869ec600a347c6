// A board with live pages.
ghost use Rattle.std.specs.Prelude.{◌≡◌, ◌≢◌, ℕ, ◌<◌, ◌≤◌, ◌+◌, ◌*◌, nat_lt, length, true, false, IfOk, IfErr, IfSome, IfNone, IsTrue, None, Some, []};
ghost use Rattle.board_terms.specs.declared.pages.Kind.TheVariants.{Sim, Sief};
ghost use Rattle.gpa_space.specs.Space.{overlay_of};
ghost use Rattle.synic_board.specs.declared.event.Event.TheVariants.{Write, Post, Signal};
ghost use Rattle.synic_board.specs.declared.event.Reply.TheVariants.{Done};
ghost use Rattle.synic_board.specs.State.{processors, ports_of};
ghost use Rattle.synic_board.specs.Ranges.{HasRanges};
ghost use Rattle.synic_board.specs.Sound.{IsSound, HasShape};
ghost use Rattle.synic_board.specs.Step.{step};
ghost use Rattle.event_ports.specs.Ports.{port_at};
ghost use Rattle.event_ports.specs.declared.ports.Port.{Port};
ghost use Rattle.live_board.specs.Acting.{IsEnded, HasPlacedAt, AccessesOnly, AccessesOnlyAt};
ghost use Rattle.live_pages.specs.Page.{guest_of};
ghost use Rattle.live_pages.specs.Traces.{IsGuestLoad, IsGuestStore};
ghost use Rattle.live_board.specs.Live.{guests_of, IsGuestOf, IsShown, HasLooked, HasProbed, NoneQueued, log_of, IsLive, IsQuietly, IsTimed, IsTicked, IsReset, IsObserved, Shadows};
ghost use Rattle.live_board.specs.inside.Pages.{logs_of, names_of};
ghost use Rattle.live_board.specs.Refreshing.{IsRefreshed};
ghost use Rattle.live_board.specs.Timers.{is_timer_write, timer_of, is_direct_write};
ghost use Rattle.live_board.specs.inside.Kinds.{IsTimerWriteBy, is_eom, eom_of};
ghost use Rattle.live_board.specs.inside.Parts.{IsShadow, IsCopied, IsStep, IsUnseen};
ghost use Rattle.live_board.specs.Signals.{signal_reply, HasSetAt};

use crate::acting::on_board;
use crate::ending::{end_on, ended_by, is_idle};
use crate::notices::Journal;
use crate::observing::view_slots;
use crate::passing::is_shown;
use crate::performing::perform_write;
use crate::posting::post_to;
use crate::refreshing::refresh_page;
use crate::resetting::{clear, reset_messages};
use crate::signalling::{flag_of, signal_shown, signal_to};
use crate::ticking::{are_all_direct, is_any_due, tick_from, tick_now};
use crate::timing::{is_direct, time_posted, timed_by};
use crate::words::word_at;
use board_terms::{Kind, Moment, Notices, Vp};
use live_pages::{Guest, LivePage, WORDS};
use std::alloc::{AllocError, Global};
use std::marker::Model;
use synic_board::{Board, Event, Reply};
use synic_regs::msr;

/// The greatest number of processors of a live board.
pub const MOST_PROCESSORS: u8 = 64;

/// A board whose message and event flags pages a running guest loads and stores. Its contract shows
/// the board, and the accesses of the host to each of these pages.
#[derive(Drop)]
pub struct LiveBoard {
    board: Board,
    pages: Vec<LivePage>,
    scratch: Notices,
}

impl Model for LiveBoard {
    ghost use Rattle.live_board.specs.Live.{LiveModel, Shadows};
    ghost use Rattle.live_board.specs.inside.Pages.{logs_of, names_of};
    ghost use Rattle.live_board.specs.inside.Codes.{live_code};

    ghost Value = { LiveModel };

    ghost coded = { live_code };

    ghost view = { λ a. record { board = a.board; pages = logs_of a.pages.items; names = names_of a.pages.items } };

    ghost invariant = { λ a. Shadows a.board.state (logs_of a.pages.items) };
}

/// The index of a live page: the message page of a processor, and then its event flags page.
fn index_of(vp: Vp, kind: Kind) -> usize
    ensures { result ≡ overlay_of vp kind }
{
    let first = 2 * usize::from(vp.number());
    match kind {
        Kind::Sim => first,
        Kind::Sief => first + 1,
    }
}

/// A live page with the words of an own page of the board, and its guest.
fn copy_page(
    alloc: Global,
    board: &Board,
    vp: Vp,
    kind: Kind,
) -> Result<(LivePage, Guest), AllocError>
    requires { vp < processors board.now.state }
    ensures page { IfOk result (λ r. IsShadow board.now.state (overlay_of vp kind) r.0.log) }
    ensures guest { IfOk result (λ r. r.1 ≡ guest_of r.0.name []) }
{
    board.facts();
    let Some(own) = board.own_page(vp, kind) else {
        unreachable!()
    };
    let (mut page, guest) = LivePage::open(alloc)?;
    for word in 0..WORDS {
        page.update(word, word_at(own, 8 * word));
    }
    Ok((page, guest))
}

/// Appends the live page of an own page of the board, and its guest.
fn push_page(
    alloc: Global,
    board: &Board,
    vp: Vp,
    kind: Kind,
    pages: &mut Vec<LivePage>,
    guests: &mut Vec<Guest>,
) -> Result<(), AllocError>
    requires { vp < processors board.now.state }
    ensures { IfOk result (λ _. IsCopied board.now.state (overlay_of vp kind) pages.old.items guests.old.items
        pages.new.items guests.new.items) }
{
    let (page, guest) = copy_page(alloc, board, vp, kind)?;
    pages.push(page)?;
    guests.push(guest)?;
    Ok(())
}

/// The live pages of a board, in the order of visibility, and their guests.
fn copy_pages(alloc: Global, board: &Board) -> Result<(Vec<LivePage>, Vec<Guest>), AllocError>
    requires { processors board.now.state ≤ 64 }
    ensures pages { IfOk result (λ r. Shadows board.now.state (logs_of r.0.items)) }
    ensures guests { IfOk result (λ r. r.1.items ≡ guests_of (names_of r.0.items)) }
{
    board.facts();
    let mut pages = Vec::new(alloc);
    let mut guests = Vec::new(alloc);
    for number in 0..board.processors() {
        let Some(vp) = Vp::new(number) else {
            unreachable!()
        };
        push_page(alloc, board, vp, Kind::Sim, &mut pages, &mut guests)?;
        push_page(alloc, board, vp, Kind::Sief, &mut pages, &mut guests)?;
    }
    Ok((pages, guests))
}

impl LiveBoard {
    /// A live board around a board of any kind, with live pages that have the words of the board's own
    /// pages: two blocks of 4096 bytes for each processor, in the order of visibility, the message
    /// page first; and the guest of each page, in this order, which has no bytes. Allocates all memory
    /// that events need. If an allocation fails, returns the board.
    pub fn open(alloc: Global, board: Board) -> Result<(LiveBoard, Vec<Guest>), Board>
        ensures live { IfOk result (λ r. r.0.board ≡ board) }
        ensures guests { IfOk result (λ r. r.1.items ≡ guests_of r.0.names) }
        ensures kept { IfErr result (λ back. back ≡ board) }
    {
        board.facts();
        let (Ok(scratch), Ok((pages, guests))) = (Notices::open(alloc), copy_pages(alloc, &board))
        else {
            return Err(board);
        };
        let live = LiveBoard {
            board,
            pages,
            scratch,
        };
        Ok((live, guests))
    }

    /// A load of the guest from a word, 0 to 511, of its page: it finds what all turns so far left there.
    pub fn guest_load(&mut self, vp: Vp, kind: Kind, guest: Guest, word: usize) -> (u64, Guest)
        requires own { IsGuestOf self.old vp kind guest }
        requires word { word < 512 }
        ensures live { self.new ≡ self.old }
        ensures own { result.1.of ≡ guest.of }
        ensures seen { IsGuestLoad word result.0 (log_of self.old vp kind) guest.seen result.1.seen }
    {
        let page = &mut self.pages[index_of(vp, kind)];
        page.guest_load(guest, word)
    }

    /// A store of the guest to a word, 0 to 511, of its page, of any value. The board does not show it:
    /// its next access to the word finds it.
    pub fn guest_store(
        &mut self,
        vp: Vp,
        kind: Kind,
        guest: Guest,
        word: usize,
        value: u64,
    ) -> Guest
        requires own { IsGuestOf self.old vp kind guest }
        requires word { word < 512 }
        ensures live { self.new ≡ self.old }
        ensures own { result.of ≡ guest.of }
        ensures seen { IsGuestStore word value (log_of self.old vp kind) guest.seen result.seen }
    {
        let page = &mut self.pages[index_of(vp, kind)];
        page.guest_store(guest, word, value)
    }

    /// `post`, with its notices in a short list.
    pub(crate) fn post_in(
        &mut self,
        port: u8,
        kind: u32,
        payload: &[u8],
        notices: &mut Notices,
    ) -> Reply
        requires { length payload.now ≤ 240 }
        ensures live { IsLive self.old (Post port kind (record { items = payload.now })) self.new result notices.new }
        ensures looked { (target : Port) → port_at (ports_of self.old.board.state) port ≡ Some target
            → IsShown self.old.board.state target.vp Sim
            → HasLooked (32 * target.sint) (log_of self.old target.vp Sim) (log_of self.new target.vp Sim) }
        ensures placed { HasPlacedAt port self.old self.new }
        ensures only { AccessesOnly port Sim self.old self.new }
    {
        let LiveBoard {
            board,
            pages,
            scratch,
        } = self;
        board.facts();
        notices.clear();
        let Some(target) = board.port(port) else {
            return board.post(port, kind, payload, notices);
        };
        let page = &mut pages[index_of(target.vp, Kind::Sim)];
        post_to(board, page, &target, port, kind, payload, scratch, notices)
    }

    /// `signal`, with its notices in a short list.
    #[inline(always)]
    pub(crate) fn signal_in(&mut self, port: u8, flag: u16, notices: &mut Notices) -> Reply
        ensures live { IsLive self.old (Signal port flag) self.new result notices.new }
        ensures set { HasSetAt port flag self.old self.new result }
        ensures only { AccessesOnly port Sief self.old self.new }
    {
        match self.signal_seen(port, flag, notices) {
            Some(true) => Reply::FlagWasSet,
            Some(false) => Reply::FlagWasClear,
            None => self.signal_unseen(port, flag, notices),
        }
    }

    /// The same, if the board accepts the signal and the guest sees the event flags page: returns whether
    /// the flag was set. Any other signal is left to the caller. Out of line, with a result in a register.
    #[inline(never)]
    fn signal_seen(&mut self, port: u8, flag: u16, notices: &mut Notices) -> Option<bool>
        ensures some { IfSome result
            (λ was. IsLive self.old (Signal port flag) self.new (signal_reply was) notices.new) }
        ensures set { IfSome result (λ was. HasSetAt port flag self.old self.new (signal_reply was)) }
        ensures only { IfSome result (λ _. AccessesOnly port Sief self.old self.new) }
        ensures left { IfNone result (self.new ≡ self.old) }
        ensures unseen { IfNone result (IsUnseen self.old.board.state port flag) }
    {
        let LiveBoard {
            board,
            pages,
            scratch,
        } = self;
        board.facts();
        let Some(target) = board.port(port) else {
            return None;
        };
        let Some(place) = flag_of(board, port, flag, &target) else {
            return None;
        };
        if !is_shown(board, target.vp, Kind::Sief) {
            return None;
        }
        notices.clear();
        let page = &mut pages[index_of(target.vp, Kind::Sief)];
        let was = signal_shown(board, page, &target, port, flag, place, scratch, notices);
        Some(was)
    }

    /// The same for a signal that the board refuses, or of a page that the guest does not see.
    #[inline(never)]
    fn signal_unseen(&mut self, port: u8, flag: u16, notices: &mut Notices) -> Reply
        requires { IsUnseen self.old.board.state port flag }
        ensures live { IsLive self.old (Signal port flag) self.new result notices.new }
        ensures set { HasSetAt port flag self.old self.new result }
        ensures only { AccessesOnly port Sief self.old self.new }
    {
        let LiveBoard {
            board,
            pages,
            scratch,
        } = self;
        board.facts();
        notices.clear();
        let Some(target) = board.port(port) else {
            return board.perform(&Event::Signal { port, flag }, notices);
        };
        let page = &mut pages[index_of(target.vp, Kind::Sief)];
        signal_to(board, page, &target, port, flag, scratch, notices)
    }

    /// Performs an event that changes no own page, without an access to a live page. Out of line: it has
    /// the code of all kinds, and its callers are inlined.
    #[inline(never)]
    pub(crate) fn perform_apart(&mut self, event: &Event, notices: &mut Notices) -> Reply
        requires { (step self.old.board.state event.now).0.own ≡ self.old.board.state.own }
        ensures { IsQuietly self.old event.now self.new result notices.new }
    {
        let LiveBoard { board, .. } = self;
        board.perform(event, notices)
    }

    /// Performs a write of a register that changes no own page, without an access to a live page, and
    /// appends its notices to those that are there.
    pub(crate) fn write_after(
        &mut self,
        vp: u8,
        register: u32,
        value: u64,
        notices: &mut Notices,
    ) -> Reply
        requires own { (step self.old.board.state (Write vp register value)).0.own ≡ self.old.board.state.own }
        requires room { length notices.old + 192 ≤ 320 }
        ensures pages { self.new.pages ≡ self.old.pages }
        ensures names { self.new.names ≡ self.old.names }
        ensures step { IsStep self.old.board.state (Write vp register value) self.new.board.state result
            notices.old notices.new }
    {
        let LiveBoard { board, scratch, .. } = self;
        perform_write(board, vp, register, value, scratch, notices)
    }

    /// Performs an EOM of a processor. If none of its messages is queued, nothing changes, and no page is
    /// accessed. In line, so that this has no call.
    #[inline(always)]
    pub(crate) fn end_message(&mut self, vp: u8, value: u64, notices: &mut Notices) -> Reply
        ensures { IsEnded vp self.old (Write vp 0x40000084 value) self.new result notices.new }
    {
        if is_idle(self.board(), vp) {
            notices.clear();
            return Reply::Done;
        }
        self.end_queued(vp, value, notices)
    }

    /// Performs an EOM of a processor for which messages are queued, or which is not on the board.
    #[inline(never)]
    fn end_queued(&mut self, vp: u8, value: u64, notices: &mut Notices) -> Reply
        requires { vp < processors self.old.board.state → NoneQueued self.old.board.state vp → ⊥ }
        ensures { IsEnded vp self.old (Write vp 0x40000084 value) self.new result notices.new }
    {
        let register = msr::EOM;
        let event = Event::Write {
            vp,
            register,
            value,
        };
        self.end_event(&event, notices)
    }

    /// Performs an EOM. Before it the host looks at the header of the slot of each source that waits:
    /// the SynIC and its message page are enabled, and a message is queued. If the slot is occupied and
    /// not marked, the host sets MessagePending by an atomic or, and what that found decides. After it,
    /// the host stores the messages that the board placed, each header last. Replaces `notices` by those
    /// of the guest's stores that were found, and then those of the event.
    fn end_event(&mut self, event: &Event, notices: &mut Notices) -> Reply
        requires { IsTrue (is_eom event.now) }
        ensures live { IsLive self.old event.now self.new result notices.new }
        ensures probed { (p : ℕ) → eom_of self.old.board.state event.now ≡ Some p → IsShown self.old.board.state p Sim
            → HasProbed self.old.board.state p (log_of self.old p Sim) (log_of self.new p Sim) }
        ensures nowhere { eom_of self.old.board.state event.now ≡ None → self.new.pages ≡ self.old.pages }
        ensures only { (p : ℕ) → eom_of self.old.board.state event.now ≡ Some p
            → AccessesOnlyAt p Sim self.old self.new }
    {
        let LiveBoard {
            board,
            pages,
            scratch,
        } = self;
        board.facts();
        notices.clear();
        let Some(vp) = ended_by(board, event) else {
            return board.perform(event, notices);
        };
        let page = &mut pages[index_of(vp, Kind::Sim)];
        end_on(board, page, vp, event, scratch, notices)
    }

    /// Performs a write of a timer's CONFIG or COUNT that is in message mode then, or of a processor that is
    /// not on the board. If the guest sees the message page of the processor, the host looks at the header
    /// of each slot first. After the event it stores a message that the board placed, the header last, or
    /// sets MessagePending by an atomic or where the board has set it. If the guest has emptied that slot
    /// since the look, it may not see MessagePending: then the second answer is true, and the processor is
    /// owed an EOM, which places the message. Replaces `notices` by those of the guest's stores that the
    /// looks found, of the event, and of the stores that the or found.
    pub(crate) fn write_posted(&mut self, event: &Event, notices: &mut Notices) -> (Reply, bool)
        requires { IsTrue (is_timer_write event.now) }
        ensures timed { (p : ℕ) → timer_of self.old.board.state event.now ≡ Some p
            → IsTimed p self.old event.now self.new result.0 result.1 notices.new }
        ensures refused { timer_of self.old.board.state event.now ≡ None
            → IsQuietly self.old event.now self.new result.0 notices.new × (result.1 ≡ false) }
    {
        let LiveBoard {
            board,
            pages,
            scratch,
        } = self;
        board.facts();
        notices.clear();
        let Some(vp) = timed_by(board, event) else {
            return (board.perform(event, notices), false);
        };
        let page = &mut pages[index_of(vp, Kind::Sim)];
        time_posted(board, page, vp, event, scratch, notices)
    }

    /// Performs a write of a timer that is in direct mode then, of a processor on the board, without an
    /// access to a live page. Any other is left to the caller. Out of line, with a result in a register:
    /// the reply is known.
    #[inline(never)]
    pub(crate) fn write_direct(
        &mut self,
        number: u8,
        register: u32,
        value: u64,
        notices: &mut Notices,
    ) -> bool
        requires { IsTimerWriteBy number (Write number register value) }
        ensures done { result ≡ true → (nat_lt number (processors self.old.board.state) ≡ true)
            × (is_direct_write self.old.board.state (Write number register value) ≡ true)
            × IsQuietly self.old (Write number register value) self.new Done notices.new }
        ensures left { result ≡ false → self.new ≡ self.old }
        ensures posted { result ≡ false → (p : ℕ)
            → timer_of self.old.board.state (Write number register value) ≡ Some p
            → is_direct_write self.old.board.state (Write number register value) ≡ false }
    {
        let LiveBoard { board, .. } = self;
        board.facts();
        let Some(vp) = on_board(board, number) else {
            return false;
        };
        if !is_direct(board, vp, register, value) {
            return false;
        }
        let event = Event::Write {
            vp: number,
            register,
            value,
        };
        let _ = board.perform(&event, notices);
        true
    }

    /// Moves the clock, if it does not go back and all timers that are due then are in direct mode, without
    /// an access to a live page. Any other tick is left to the caller. Out of line, with a result in a
    /// register: the reply is known, and no processor is owed an EOM.
    #[inline(never)]
    pub(crate) fn tick_directly(&mut self, moment: Moment, notices: &mut Notices) -> bool
        ensures done { result ≡ true → IsTicked self.old moment self.new Done 0 notices.new }
        ensures left { result ≡ false → self.new ≡ self.old }
    {
        let LiveBoard { board, .. } = self;
        board.facts();
        if moment < board.moment() {
            return false;
        }
        if !is_any_due(board, moment) {
            let _ = board.perform(&Event::Tick { moment }, notices);
            return true;
        }
        if !are_all_direct(board, moment) {
            return false;
        }
        let _ = board.perform(&Event::Tick { moment }, notices);
        true
    }

    /// The same for any tick. If a timer is due, the host looks at the header of each slot of the message
    /// page of each processor of which a due timer is in message mode, if the guest sees the page. After the
    /// tick it stores there the messages that the board placed, each header last, and sets MessagePending by
    /// an atomic or where the board has set it. If the guest has emptied such a slot since the look, it may
    /// not see MessagePending: then the processor is owed an EOM, which places the message. The notices are
    /// those of the guest's stores that the looks found, of the tick, and of the stores that the ors found.
    /// `part` is empty before and after.
    pub(crate) fn tick_any(
        &mut self,
        moment: Moment,
        part: &mut Notices,
        notices: &mut Journal,
    ) -> (Reply, u64)
        requires part { part.old ≡ [] }
        requires notices { notices.old ≡ [] }
        ensures ticked { IsTicked self.old moment self.new result.0 result.1 notices.new }
        ensures part { part.new ≡ [] }
        ensures few { length notices.new ≤ 2240 }
        ensures processors { processors self.new.board.state ≡ processors self.old.board.state }
    {
        let LiveBoard {
            board,
            pages,
            scratch,
        } = self;
        board.facts();
        if !is_any_due(board, moment) {
            return (tick_now(board, moment, part, notices), 0);
        }
        tick_from(board, pages, 0, moment, scratch, part, notices)
    }

    /// `reset`, with its notices in a short list.
    pub(crate) fn reset_in(&mut self, vp: Vp, notices: &mut Notices) -> Reply
        requires { vp < processors self.old.board.state }
        ensures { IsReset vp self.old self.new result notices.new }
    {
        let LiveBoard {
            board,
            pages,
            scratch,
        } = self;
        board.facts();
        notices.clear();
        let event = Event::Reset { vp: vp.number() };
        let messages = &mut pages[index_of(vp, Kind::Sim)];
        let reply = reset_messages(board, messages, vp, &event, scratch, notices);
        let flags = &mut pages[index_of(vp, Kind::Sief)];
        clear(flags);
        reply
    }

    /// Looks at the header of each message slot of a processor, if the guest sees its message page.
    pub(crate) fn observe_own(&mut self, vp: Vp, notices: &mut Notices)
        requires { vp < processors self.old.board.state }
        ensures { IsObserved vp self.old self.new notices.new }
    {
        let LiveBoard {
            board,
            pages,
            scratch,
        } = self;
        board.facts();
        notices.clear();
        let page = &mut pages[index_of(vp, Kind::Sim)];
        view_slots(board, page, vp, scratch, notices);
    }

    /// Loads each word of both live pages of a processor that the guest sees, the message page first.
    pub(crate) fn refresh_own(&mut self, vp: Vp, notices: &mut Notices)
        requires { vp < processors self.old.board.state }
        ensures { IsRefreshed vp self.old self.new notices.new }
    {
        let LiveBoard {
            board,
            pages,
            scratch,
        } = self;
        board.facts();
        notices.clear();
        let sim = &mut pages[index_of(vp, Kind::Sim)];
        refresh_page(board, sim, vp, Kind::Sim, scratch, notices);
        let sief = &mut pages[index_of(vp, Kind::Sief)];
        refresh_page(board, sief, vp, Kind::Sief, scratch, notices);
    }

    /// What holds between calls: each word of the board's own pages is what the host last found or wrote in
    /// the live page, and what holds for every board. Does nothing.
    pub fn facts(&self)
        ensures shadows { Shadows self.now.board.state self.now.pages }
        ensures sound { IsSound self.now.board.state }
        ensures shape { HasShape self.now.board.state }
        ensures ranges { HasRanges self.now.board.state }
        ensures few { processors self.now.board.state ≤ 64 }
    {
        self.board.facts();
    }

    /// The board, without its live pages.
    pub(crate) fn alone(self) -> Board
        ensures { result ≡ self.board }
    {
        let LiveBoard { board, .. } = self;
        board
    }

    /// The board, by reference, for its queries.
    pub fn board(&self) -> &Board
        ensures { result.now ≡ self.now.board }
    {
        &self.board
    }
}
