// Opening and closing ports, posts and signals.
ghost use Rattle.std.specs.Prelude.{◌≡◌, ◌<◌, ◌≤◌, ◌+◌, [], ◌++◌, length, map, true, IfNone};
ghost use Rattle.event_ports.specs.Shapes.{fits, takes_messages};
ghost use Rattle.message_queues.specs.Queues.{port_used};
ghost use Rattle.synic_board.specs.State.{processors};
ghost use Rattle.synic_board.specs.inside.Effected.{preceded};
ghost use Rattle.synic_board.specs.inside.Unless.{unless_refused};
ghost use Rattle.synic_board.specs.Posts.{opened_port, closed, withdrawn, post_refusal, posted, signalled};

use crate::event::Reply;
use crate::machine::Machine;
use crate::summary::Entry;
use board_terms::{Notice, Notices, PortShape, Refusal, Sint, Ticket, Vp};
use event_ports::Port;

impl Machine {
    /// Opens a port.
    #[inline(always)]
    pub(crate) fn open_port(&mut self, port: u8, vp: u8, sint: u8, shape: PortShape) -> Reply
        ensures step { (self.new.state, result, []) ≡ opened_port self.old.state port vp sint shape }
        ensures writes { self.new.writes ≡ self.old.writes }
    {
        match self.ports.open_port(port, vp, sint, shape) {
            Ok(()) => Reply::Done,
            Err(refusal) => Reply::Refused(refusal),
        }
    }

    /// Closes a port, and withdraws its queued messages, front first.
    #[inline(always)]
    pub(crate) fn close_port(&mut self, port: u8, notices: &mut Notices) -> Reply
        requires { notices.old ≡ [] }
        ensures step { (self.new.state, result, notices.new) ≡ closed self.old.state port }
        ensures writes_monotone { self.old.writes ≤ self.new.writes }
        ensures bound { self.new.writes ≤ self.old.writes + 1 }
    {
        let target = match self.ports.close_port(port) {
            Ok(target) => target,
            Err(refusal) => return Reply::Refused(refusal),
        };
        self.withdraw(target.vp, target.sint, port, notices);
        Reply::Done
    }

    /// Withdraws the queued messages of a port, front first.
    #[inline(never)]
    #[tactic(auto, using(crate::proofs::Rules::lists))]
    fn withdraw(&mut self, vp: Vp, sint: Sint, port: u8, notices: &mut Notices)
        requires on { vp < processors self.old.state }
        requires room { length notices.old + 16 ≤ 320 }
        ensures effect { (self.new.state, notices.new) ≡ preceded notices.old (withdrawn self.old.state vp sint port) }
        ensures writes { self.new.writes ≡ self.old.writes + 1 }
    {
        let tickets = self.queues.withdraw_port(vp, sint, port);
        let left = self.queues.count(vp, sint);
        self.summary.write(Entry::Reduced(vp, sint, left));
        emit_withdrawn(vp, sint, tickets.as_slice(), notices);
    }

    /// Posts a message to a port.
    #[inline(always)]
    pub(crate) fn post(
        &mut self,
        port: u8,
        kind: u32,
        payload: &[u8],
        notices: &mut Notices,
    ) -> Reply
        requires none { notices.old ≡ [] }
        requires fits { length payload.now ≤ 240 }
        ensures step { (self.new.state, result, notices.new)
            ≡ posted self.old.state port kind (record { items = payload.now }) }
        ensures writes_monotone { self.old.writes ≤ self.new.writes }
        ensures bound { self.new.writes ≤ self.old.writes + length notices.new }
    {
        let ticket = self.next_ticket;
        match self.try_post(port, kind, payload, notices) {
            None => Reply::Accepted(ticket),
            Some(refusal) => Reply::Refused(refusal),
        }
    }

    /// Posts a message to a port and returns why the post is refused, if it is. Out of line, so that no
    /// other event reserves stack for its buffer, with a result in registers.
    #[inline(never)]
    fn try_post(
        &mut self,
        port: u8,
        kind: u32,
        payload: &[u8],
        notices: &mut Notices,
    ) -> Option<Refusal>
        requires none { notices.old ≡ [] }
        requires fits { length payload.now ≤ 240 }
        ensures step { (
          self.new.state,
          unless_refused (Reply.Accepted self.old.state.next_ticket) result,
          notices.new,
        ) ≡ posted self.old.state port kind (record { items = payload.now }) }
        ensures writes_monotone { self.old.writes ≤ self.new.writes }
        ensures bound { self.new.writes ≤ self.old.writes + length notices.new }
    {
        let Port { vp, sint, shape } = match self.ports.message_target(port, kind) {
            Ok(target) => target,
            Err(refusal) => return Some(refusal),
        };
        if let Some(refusal) = self.post_refusal(port, vp, shape) {
            return Some(refusal);
        }
        self.deliver_post(vp, sint, port, kind, payload, notices);
        None
    }

    /// Why a post to an open port is refused.
    fn post_refusal(&self, port: u8, vp: Vp, shape: PortShape) -> Option<Refusal>
        requires on { vp < processors self.now.state }
        requires in_range { fits shape ≡ true }
        requires messages { takes_messages shape ≡ true }
        ensures answer { result ≡ post_refusal self.now.state port vp shape }
        ensures buffer { IfNone result (port_used self.now.state.queues port < 16) }
        ensures ticket { IfNone result (self.now.state.next_ticket < 0xffffffffffffffff) }
    {
        if !self.regs[vp.number() as usize].is_enabled() {
            return Some(Refusal::SynicOff);
        }
        let buffers = match shape {
            PortShape::Messages { buffers } => buffers,
            PortShape::Flags { .. } => unreachable!(),
        };
        if self.queues.port_used(port) >= buffers {
            return Some(Refusal::NoBuffers);
        }
        if self.next_ticket == Ticket::MAX {
            return Some(Refusal::TicketsSpent);
        }
        None
    }

    /// Signals an event flag of a port.
    #[inline(always)]
    pub(crate) fn signal(&mut self, port: u8, flag: u16, notices: &mut Notices) -> Reply
        requires { notices.old ≡ [] }
        ensures step { (self.new.state, result, notices.new) ≡ signalled self.old.state port flag }
        ensures writes_monotone { self.old.writes ≤ self.new.writes }
        ensures bound { self.new.writes ≤ self.old.writes + length notices.new }
    {
        let (vp, sint, place) = match self.ports.flag_place(port, flag) {
            Ok(place) => place,
            Err(refusal) => return Reply::Refused(refusal),
        };
        let regs = &self.regs[vp.number() as usize];
        if !(regs.is_enabled() && regs.sief_is_enabled()) {
            return Reply::Refused(Refusal::SynicOff);
        }
        if !self.space.set_flag(vp, sint, place) {
            return Reply::FlagWasSet;
        }
        notices.push(Notice::FlagSet {
            vp,
            sint,
            flag: place,
        });
        self.raise(vp, sint, notices);
        Reply::FlagWasClear
    }
}

/// Emits a notice for each withdrawn message.
pub(crate) fn emit_withdrawn(vp: Vp, sint: Sint, tickets: &[Ticket], notices: &mut Notices)
    requires { length notices.old + length tickets.now ≤ 320 }
    ensures { notices.new ≡ notices.old ++ map (λ t. Notice.Withdrawn vp sint t) tickets.now }
{
    for ticket in tickets {
        notices.push(Notice::Withdrawn {
            ticket: *ticket,
            vp,
            sint,
        });
    }
}
