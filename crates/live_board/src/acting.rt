// Any event of a board with live pages.
ghost use Rattle.std.specs.Prelude.{◌≡◌, ◌⊎◌, ℕ, ◌/◌, ◌+◌, ◌<◌, ◌≤◌, nat_lt, true, false, List, [], ◌++◌, length, Some, IfSome, IfNone};
ghost use Rattle.board_terms.specs.declared.notices.Notice.{Notice};
ghost use Rattle.std.specs.Option.{option_map_or};
ghost use Rattle.gpa_space.specs.Space.{is_covered, owner_of};
ghost use Rattle.synic_regs.specs.Registers.{register_of};
ghost use Rattle.synic_board.specs.declared.event.Event.TheVariants.{Write, Post, Signal};
ghost use Rattle.synic_board.specs.State.{processors, space_of};
ghost use Rattle.synic_board.specs.Step.{step};
ghost use Rattle.live_board.specs.Acting.{Acts, IsAccess, IsRegisterWrite, IsTimedWrite, IsTickedPaid, IsPaid, ArePaid};
ghost use Rattle.live_board.specs.Live.{IsQuietly, IsReset, IsObserved};
ghost use Rattle.live_board.specs.Refreshing.{IsRefreshed};
ghost use Rattle.live_board.specs.Timers.{timer_of, is_direct_write};
ghost use Rattle.live_board.specs.Hiding.{IsHiding, IsRefreshedIf, IsRefreshedUnder};
ghost use Rattle.live_board.specs.inside.Kinds.{IsTimerWriteBy, owes_nothing, accessed_at, is_quiet_register};

use crate::live::LiveBoard;
use crate::notices::{Journal, LiveNotices, move_all, move_to};
use crate::owing::{has_processor, with_owed};
use crate::timing::is_timer;
use board_terms::{Moment, Notices, Owner, Refusal, Vp};
use synic_board::{Board, Event, Reply};
use synic_regs::msr;

impl LiveBoard {
    /// Performs an event, and then an EOM of each processor that is owed one. Returns the reply to the
    /// event, and which processors were owed an EOM: bit p for processor p. Replaces `notices` by those of
    /// the guest's stores that were found before the event, of the event, of the stores that were found
    /// after it, and of each EOM in the same way.
    ///
    /// Before a tick at which a timer in message mode is due, and a write of such a timer, the host looks at
    /// the header of each slot of the processor's message page, if the guest sees it. After the event it
    /// stores the messages that the board placed, each header last, and sets MessagePending by an atomic or
    /// where the board has set it. If the guest has emptied such a slot since the look, it may not see
    /// MessagePending: then its processor is owed an EOM, which places the message. Only these two events
    /// owe one, and they access no live page if the timers are in direct mode.
    ///
    /// `Post`, `Signal`, `Reset` and an EOM are as `post`, `signal`, `reset` and `end_message` describe. A
    /// write of SIMP or SIEFP refreshes the live pages that it may hide first. A load or a store at a page
    /// where the guest sees a live page is refused as `Elsewhere`: the caller makes it in the live page. No
    /// other event accesses a live page. Inlined, so that a caller that constructs one kind of event has the
    /// code of that kind only, and the event is not in memory.
    #[inline(always)]
    pub fn perform(&mut self, event: &Event, notices: &mut LiveNotices) -> (Reply, u64)
        ensures { Acts self.old event.now self.new result.0 result.1 notices.new }
    {
        let LiveNotices { few, many } = notices;
        many.clear();
        match event {
            Event::Write {
                vp,
                register,
                value,
            } => self.write(*vp, *register, *value, few, many),
            Event::Tick { moment } => self.tick(*moment, few, many),
            _ => (self.act(event, few), 0),
        }
    }

    /// Performs a post with a borrowed payload of at most 240 bytes. The host looks at the header of
    /// the port's slot first. If the slot is empty and the board places a message there, the host
    /// stores all words of the slot in the live page, the header last. If the slot is occupied and the post makes an
    /// attempt, the host sets MessagePending by an atomic or, and what that found decides. Replaces
    /// `notices` by those of the guest's stores that were found, and then those of the post.
    #[inline(always)]
    pub fn post(&mut self, port: u8, kind: u32, payload: &[u8], notices: &mut LiveNotices) -> Reply
        requires { length payload.now ≤ 240 }
        ensures { Acts self.old (Post port kind (record { items = payload.now })) self.new result 0 notices.new }
    {
        let LiveNotices { few, many } = notices;
        many.clear();
        self.post_in(port, kind, payload, few)
    }

    /// Performs a signal. If the board accepts it, the host sets the event flag in the live page by an
    /// atomic or first, and the board learns what the word was. So the reply says whether the flag was
    /// clear in the live page. Replaces `notices` by those of the guest's stores that were found, and
    /// then those of the signal.
    #[inline(always)]
    pub fn signal(&mut self, port: u8, flag: u16, notices: &mut LiveNotices) -> Reply
        ensures { Acts self.old (Signal port flag) self.new result 0 notices.new }
    {
        let LiveNotices { few, many } = notices;
        many.clear();
        self.signal_in(port, flag, few)
    }

    /// Resets a processor on the board. The host looks at the header of each slot first, so that what
    /// the guest has consumed is not withdrawn, and stores zero to all words of both live pages after
    /// the event. Replaces `notices` by those of the guest's stores that were found, and then those of
    /// the event.
    pub fn reset(&mut self, vp: Vp, notices: &mut LiveNotices) -> Reply
        requires { vp < processors self.old.board.state }
        ensures { IsReset vp self.old self.new result notices.new }
    {
        let LiveNotices { few, many } = notices;
        many.clear();
        self.reset_in(vp, few)
    }

    /// Looks at the header of each message slot of a processor, if the guest sees its message page.
    /// Replaces `notices` by those of the messages that the guest has consumed since the last look. Requires
    /// that the processor is on the board.
    pub fn observe(&mut self, vp: Vp, notices: &mut LiveNotices)
        requires { vp < processors self.old.board.state }
        ensures { IsObserved vp self.old self.new notices.new }
    {
        let LiveNotices { few, many } = notices;
        many.clear();
        self.observe_own(vp, few);
    }

    /// Loads each word of both live pages of a processor that the guest sees, the message page first, so
    /// that the board's own pages have what the guest stored: for an image of the board. Replaces `notices`
    /// by those of the guest's stores that were found. Requires that the processor is on the board.
    pub fn refresh(&mut self, vp: Vp, notices: &mut LiveNotices)
        requires { vp < processors self.old.board.state }
        ensures { IsRefreshed vp self.old self.new notices.new }
    {
        let LiveNotices { few, many } = notices;
        many.clear();
        self.refresh_own(vp, few);
    }

    /// Performs an event that is neither a tick nor a write of a register.
    #[inline(always)]
    fn act(&mut self, event: &Event, notices: &mut Notices) -> Reply
        requires { owes_nothing event.now ≡ true }
        ensures { Acts self.old event.now self.new result 0 notices.new }
    {
        match event {
            Event::Post {
                port,
                kind,
                payload,
            } => self.post_in(*port, *kind, payload.as_slice(), notices),
            Event::Signal { port, flag } => self.signal_in(*port, *flag, notices),
            Event::Store { address, .. } | Event::Load { address, .. } => {
                self.access(*address, event, notices)
            }
            Event::Reset { vp } => match self.on_board(*vp) {
                Some(vp) => self.reset_in(vp, notices),
                None => self.perform_apart(event, notices),
            },
            Event::Write { .. } | Event::Tick { .. } => unreachable!(),
            _ => self.perform_apart(event, notices),
        }
    }

    /// Performs a write of a register. In line, so that a caller that writes one register has the code of
    /// that kind of register only; with numbers in place of the event, which is not in memory then. Its
    /// notices are in one of two lists.
    #[inline(always)]
    fn write(
        &mut self,
        vp: u8,
        register: u32,
        value: u64,
        few: &mut Notices,
        many: &mut Journal,
    ) -> (Reply, u64)
        requires { many.old ≡ [] }
        ensures written { IsRegisterWrite (register_of register) vp self.old
            (Write vp register value) self.new result.0 result.1 (few.new ++ many.new) }
        ensures one { (few.new ≡ []) ⊎ (many.new ≡ []) }
    {
        if register == msr::EOM {
            return (self.end_message(vp, value, few), 0);
        }
        if is_timer(register) {
            return self.write_timer(vp, register, value, few, many);
        }
        if register == msr::SIMP {
            return (self.write_page(vp, register, value, few, many), 0);
        }
        if register == msr::SIEFP {
            return (self.write_page(vp, register, value, few, many), 0);
        }
        (self.write_apart(vp, register, value, few), 0)
    }

    /// Performs a write of SIMP or SIEFP. The live pages of the processor, and of the one whose page the
    /// guest sees at the new page number, are refreshed first: the guest may not see them afterwards.
    #[inline(never)]
    fn write_page(
        &mut self,
        vp: u8,
        register: u32,
        value: u64,
        part: &mut Notices,
        notices: &mut Journal,
    ) -> Reply
        requires quiet { option_map_or is_quiet_register (register_of register) true ≡ true }
        requires empty { notices.old ≡ [] }
        ensures page { IsHiding vp value self.old (Write vp register value) self.new result notices.new }
        ensures empty { part.new ≡ [] }
    {
        self.refresh_if(vp, part);
        move_to(part, notices);
        self.refresh_under(value / 4096, part);
        move_to(part, notices);
        let reply = self.write_after(vp, register, value, part);
        move_to(part, notices);
        reply
    }

    /// Refreshes the live pages of a processor, if it is on the board.
    fn refresh_if(&mut self, vp: u8, notices: &mut Notices)
        ensures refreshed { IsRefreshedIf (nat_lt vp (processors self.old.board.state)) vp self.old self.new
            notices.new }
        ensures few { length notices.new ≤ 32 }
    {
        notices.clear();
        if let Some(vp) = self.on_board(vp) {
            self.refresh_own(vp, notices);
        }
    }

    /// Refreshes the live pages of the processor whose page the guest sees at a page number, if there is one.
    fn refresh_under(&mut self, page: u64, notices: &mut Notices)
        ensures refreshed { IsRefreshedUnder (owner_of (space_of self.old.board.state) page) self.old self.new
            notices.new }
        ensures few { length notices.new ≤ 32 }
    {
        match self.board().owner(page) {
            Owner::Sim(vp) => self.refresh_if(vp.number(), notices),
            Owner::Sief(vp) => self.refresh_if(vp.number(), notices),
            Owner::Guest | Owner::Nothing => notices.clear(),
        }
    }

    /// Performs a write of a register that changes no own page.
    #[inline(never)]
    fn write_apart(&mut self, vp: u8, register: u32, value: u64, notices: &mut Notices) -> Reply
        requires { (step self.old.board.state (Write vp register value)).0.own ≡ self.old.board.state.own }
        ensures { IsQuietly self.old (Write vp register value) self.new result notices.new }
    {
        let event = Event::Write {
            vp,
            register,
            value,
        };
        self.perform_apart(&event, notices)
    }

    /// Performs a write of a timer of a processor. One in direct mode comes first: its reply is known.
    #[inline(always)]
    fn write_timer(
        &mut self,
        vp: u8,
        register: u32,
        value: u64,
        few: &mut Notices,
        many: &mut Journal,
    ) -> (Reply, u64)
        requires timer { IsTimerWriteBy vp (Write vp register value) }
        requires empty { many.old ≡ [] }
        ensures written { IsTimedWrite (nat_lt vp (processors self.old.board.state))
            (is_direct_write self.old.board.state (Write vp register value)) vp self.old
            (Write vp register value) self.new result.0 result.1 (few.new ++ many.new) }
        ensures one { (few.new ≡ []) ⊎ (many.new ≡ []) }
    {
        if self.write_direct(vp, register, value, few) {
            return (Reply::Done, 0);
        }
        self.write_timer_of(vp, register, value, few, many)
    }

    /// Performs a write of a timer of a processor, in message mode. Out of line, with numbers in place of
    /// the event: it has a frame of its own, and no event in memory.
    #[inline(never)]
    fn write_timer_of(
        &mut self,
        vp: u8,
        register: u32,
        value: u64,
        few: &mut Notices,
        many: &mut Journal,
    ) -> (Reply, u64)
        requires timer { IsTimerWriteBy vp (Write vp register value) }
        requires posted { (p : ℕ) → timer_of self.old.board.state (Write vp register value) ≡ Some p
            → is_direct_write self.old.board.state (Write vp register value) ≡ false }
        requires empty { many.old ≡ [] }
        ensures written { IsTimedWrite (nat_lt vp (processors self.old.board.state))
            (is_direct_write self.old.board.state (Write vp register value)) vp self.old
            (Write vp register value) self.new result.0 result.1 (few.new ++ many.new) }
        ensures one { (few.new ≡ []) ⊎ (many.new ≡ []) }
    {
        self.facts();
        let target = self.on_board(vp);
        let event = Event::Write {
            vp,
            register,
            value,
        };
        let (reply, is_owed) = self.write_posted(&event, few);
        let Some(vp) = target else {
            return (reply, 0);
        };
        if !is_owed {
            return (reply, 0);
        }
        self.facts();
        move_all(few, many);
        self.pay(vp, few, many);
        (reply, with_owed(0, vp, true))
    }

    /// Moves the clock, in units of 100 ns, and performs the EOMs that processors are owed. Its notices are
    /// in one of two lists.
    #[inline(always)]
    fn tick(&mut self, moment: Moment, few: &mut Notices, many: &mut Journal) -> (Reply, u64)
        requires { many.old ≡ [] }
        ensures ticked { IsTickedPaid self.old moment self.new result.0 result.1 (few.new ++ many.new) }
        ensures one { (few.new ≡ []) ⊎ (many.new ≡ []) }
    {
        if self.tick_directly(moment, few) {
            return (Reply::Done, 0);
        }
        self.tick_paid(moment, few, many)
    }

    /// The same for any tick. `part` is empty after it.
    #[inline(never)]
    fn tick_paid(
        &mut self,
        moment: Moment,
        part: &mut Notices,
        notices: &mut Journal,
    ) -> (Reply, u64)
        requires { notices.old ≡ [] }
        ensures ticked { IsTickedPaid self.old moment self.new result.0 result.1 notices.new }
        ensures empty { part.new ≡ [] }
    {
        part.clear();
        let (reply, owed) = self.tick_any(moment, part, notices);
        self.pay_all(owed, part, notices);
        (reply, owed)
    }

    /// Performs an EOM of each processor that is owed one, and appends the notices. `part` is empty before
    /// and after.
    fn pay_all(&mut self, owed: u64, part: &mut Notices, notices: &mut Journal)
        requires empty { part.old ≡ [] }
        requires capacity { length notices.old ≤ 2240 }
        ensures paid { (last : List Notice) × ArePaid owed (processors self.old.board.state) self.old self.new last
            × (notices.new ≡ notices.old ++ last) }
        ensures empty { part.new ≡ [] }
    {
        self.facts();
        for number in 0..self.board().processors() {
            if has_processor(owed, number) {
                let Some(vp) = Vp::new(number) else {
                    unreachable!()
                };
                self.pay(vp, part, notices);
            }
        }
    }

    /// Performs an EOM of a processor that is owed one, and appends its notices. `part` is empty after it.
    #[cold]
    #[inline(never)]
    fn pay(&mut self, vp: Vp, part: &mut Notices, notices: &mut Journal)
        requires on { vp < processors self.old.board.state }
        requires capacity { length notices.old + 320 ≤ 22720 }
        ensures paid { (last : List Notice) × IsPaid true vp self.old self.new last
            × (notices.new ≡ notices.old ++ last) × (length last ≤ 320) }
        ensures processors { processors self.new.board.state ≡ processors self.old.board.state }
        ensures empty { part.new ≡ [] }
    {
        self.facts();
        let _ = self.end_message(vp.number(), 0, part);
        self.facts();
        move_all(part, notices);
    }

    /// Performs an access of the guest to memory, unless it sees a live page there.
    fn access(&mut self, address: u64, event: &Event, notices: &mut Notices) -> Reply
        requires { accessed_at event.now ≡ Some address }
        ensures { IsAccess (is_covered (space_of self.old.board.state) (address / 4096)) self.old event.now self.new
            result notices.new }
    {
        notices.clear();
        if self.is_live_at(address) {
            return Reply::Refused(Refusal::Elsewhere);
        }
        self.perform_apart(event, notices)
    }

    /// Whether the guest sees a live page at an address.
    fn is_live_at(&self, address: u64) -> bool
        ensures { result ≡ is_covered (space_of self.now.board.state) (address / 4096) }
    {
        matches!(
            self.board().owner(address / 4096),
            Owner::Sim(_) | Owner::Sief(_)
        )
    }

    /// A processor, if it is on the board.
    fn on_board(&self, vp: u8) -> Option<Vp>
        ensures some { IfSome result (λ p. (p ≡ vp) × (nat_lt vp (processors self.now.board.state) ≡ true)) }
        ensures none { IfNone result (nat_lt vp (processors self.now.board.state) ≡ false) }
    {
        on_board(self.board(), vp)
    }
}

/// A processor, if it is on a board.
#[inline(always)]
pub(crate) fn on_board(board: &Board, vp: u8) -> Option<Vp>
    ensures some { IfSome result (λ p. (p ≡ vp) × (nat_lt vp (processors board.now.state) ≡ true)) }
    ensures none { IfNone result (nat_lt vp (processors board.now.state) ≡ false) }
{
    board.facts();
    if vp < board.processors() {
        Vp::new(vp)
    } else {
        None
    }
}
