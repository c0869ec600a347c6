// A board that is being restored.
ghost use Rattle.std.specs.Prelude.{ℕ, ◌≡◌, ◌≢◌, ◌↔◌, ◌<◌, ◌≤◌, ◌+◌, IsTrue, IfOk, OnErr, IsErrOf, Some, [], length, if◌then◌else◌};
ghost use Rattle.std.specs.List.{All};
ghost use Rattle.board_terms.specs.Messages.{ticket_of};
ghost use Rattle.message_queues.specs.Queues.{queue_of};
ghost use Rattle.synic_board.specs.Timed.{HasExpired, IsNear};
ghost use Rattle.synic_regs.specs.Regs.{after_write, with_value};
ghost use Rattle.synic_regs.specs.declared.register.Register.TheVariants as register;
ghost use Rattle.event_ports.specs.Ports.{is_posted_type};
ghost use Rattle.synic_board.specs.Registers.{stored};
ghost use Rattle.synic_board.specs.State.{IsWithinLimits, opened, processors, regs_of, slot_of, with_regs, with_slot_ticket};
ghost use Rattle.synic_board.specs.Posts.{opened_port};
ghost use Rattle.synic_board.specs.Timers.{at_moment};
ghost use Rattle.synic_board.specs.Sound.{IsMessage};
ghost use Rattle.synic_board.specs.Buffers.{IsHome, SendsTo};
ghost use Rattle.synic_board.specs.Restoring.{overlay_register, with_processor, with_saved_timer, with_own_bytes, with_guest_bytes, with_message, HasNoTickets, IsUnplaced, HasFreeBuffer, IsWithinShare, MayCount, MayJoin, MayOccupy};

use crate::board::{Board, OpenFault};
use crate::event::Reply;
use crate::machine::Machine;
use board_terms::{Kind, Message, Moment, PortShape, Sint, Ticket, TimerId, Vp};
use event_ports::Port;
use lapic_core::Lapic;
use std::alloc::{AllocError, Global};
use std::marker::Model;

/// From here on a message type is reserved for the hypervisor (TLFS, "Message Types").
const RESERVED: u32 = 0x8000_0000;

/// A board that is being restored, piece by piece. It is the state of a board at any time, so a piece
/// that no board can have together with the earlier pieces is refused, and then nothing changes. The
/// pages of a processor come before the tickets of its slots.
#[derive(Drop)]
pub struct Draft {
    machine: Machine,
    /// The tickets of all messages in queues and slots.
    tickets: Vec<Ticket>,
}

impl Model for Draft {
    ghost use Rattle.synic_board.specs.State.{State};
    ghost use Rattle.synic_board.specs.inside.Codes.{state_code};

    ghost Value = { State };

    ghost coded = { state_code };

    ghost use Rattle.synic_board.specs.inside.Drafts.{IsDraft};

    ghost view = { λ a. a.machine.state };

    ghost invariant = { λ a. IsDraft a.machine.state a.tickets.items };
}

impl Draft {
    /// A newly opened board whose next accepted message gets the ticket `next_ticket`; with 0 pages it is
    /// sparse. `BadSize` unless there are 1 to 8 processors and at most 64 pages, or 1 to 64 processors
    /// and no page.
    pub fn open(
        alloc: Global,
        processors: u8,
        pages: u8,
        next_ticket: Ticket,
    ) -> Result<Draft, OpenFault>
        ensures size { IsErrOf result OpenFault.BadSize ↔ (¬ IsWithinLimits processors pages) }
        ensures opened { IfOk result (λ d. d ≡ opened processors pages next_ticket) }
    {
        let most_processors = if pages == 0 { 64 } else { 8 };
        if processors < 1 || processors > most_processors || pages > 64 {
            return Err(OpenFault::BadSize);
        }
        match Machine::open(alloc, processors, pages, next_ticket) {
            Ok(machine) => Ok(Draft {
                machine,
                tickets: Vec::new(alloc),
            }),
            Err(_) => Err(OpenFault::Memory),
        }
    }

    /// The number of processors on the board: at most 64, and at most 8 if it is not sparse.
    pub fn processors(&self) -> u8
        ensures count { result ≡ processors self.now }
        ensures bound { result ≤ 64 }
        ensures dense { length self.now.pages ≢ 0 → result ≤ 8 }
    {
        self.machine.processors()
    }

    /// The number of guest pages that the board holds; 0 iff it is sparse.
    pub fn pages(&self) -> u8
        ensures { result ≡ length self.now.pages }
    {
        self.machine.page_count
    }

    /// Sets the present time, in units of 100 ns, unless it would go back, and returns whether it did.
    pub fn set_moment(&mut self, moment: Moment) -> bool
        ensures valid { IsTrue result ↔ (self.old.moment ≤ moment) }
        ensures restored { self.new ≡ (if result then at_moment self.old moment else self.old) }
    {
        if moment < self.machine.moment() {
            return false;
        }
        self.machine.restore_moment(moment);
        true
    }

    /// Sets the local APIC of a processor. The processor's timers are suspended iff the local APIC is.
    pub fn set_lapic(&mut self, vp: Vp, lapic: Lapic)
        requires { vp < processors self.old }
        ensures { self.new ≡ with_processor self.old vp lapic }
    {
        self.machine.restore_lapic(vp, lapic);
    }

    /// Sets SCONTROL.
    pub fn set_control(&mut self, vp: Vp, value: u64)
        requires { vp < processors self.old }
        ensures { self.new ≡ with_regs self.old vp (with_value (regs_of self.old vp) register.Control value) }
    {
        self.machine.write_control(vp, value);
    }

    /// Sets SIMP or SIEFP.
    pub fn set_overlay(&mut self, vp: Vp, kind: Kind, value: u64)
        requires { vp < processors self.old }
        ensures { self.new ≡ with_regs self.old vp (after_write (regs_of self.old vp) (overlay_register kind) value) }
    {
        self.machine.write_overlay(vp, kind, value);
    }

    /// Sets a SINT register. `GeneralProtection` iff its vector is below 16 and it is not masked.
    pub fn set_source(&mut self, vp: Vp, sint: Sint, value: u64) -> Reply
        requires { vp < processors self.old }
        ensures { (self.new, result, []) ≡ stored self.old vp (register.Source sint) value }
    {
        self.machine.write_source(vp, sint, value)
    }

    /// Opens a port. The reply is that of the event.
    pub fn open_port(&mut self, port: u8, vp: u8, sint: u8, shape: PortShape) -> Reply
        ensures { (self.new, result, []) ≡ opened_port self.old port vp sint shape }
    {
        self.machine.open_port(port, vp, sint, shape)
    }

    /// Sets bytes of a processor's message or event flags page, from offset `at` on, if no slot of the
    /// processor holds a ticket yet, and returns whether none does.
    pub fn set_own(&mut self, vp: Vp, kind: Kind, at: usize, bytes: &[u8]) -> bool
        requires on { vp < processors self.old }
        requires inside { at + length bytes.now ≤ 4096 }
        ensures valid { IsTrue result ↔ HasNoTickets self.old vp }
        ensures restored { self.new ≡ (if result then with_own_bytes self.old vp kind at bytes.now else self.old) }
    {
        if !self.machine.has_no_tickets(vp) {
            return false;
        }
        self.machine.restore_own(vp, kind, at, bytes);
        true
    }

    /// Sets bytes of a guest page, from offset `at` on.
    pub fn set_guest(&mut self, page: u8, at: usize, bytes: &[u8])
        requires page { page < length self.old.pages }
        requires inside { at + length bytes.now ≤ 4096 }
        ensures { self.new ≡ with_guest_bytes self.old page at bytes.now }
    {
        self.machine.restore_guest(page, at, bytes);
    }

    /// Sets the registers and the deadline of a timer, if a timer can have them at the present time, and
    /// returns whether it can.
    pub fn set_timer(&mut self, timer: TimerId, config: u64, count: u64, due: Option<u128>) -> bool
        requires { timer.0 < processors self.old }
        ensures valid { IsTrue result ↔ MayCount self.old (record { config = config; count = count; due = due }) }
        ensures restored { self.new
            ≡ (if result then with_saved_timer self.old timer (record { config = config; count = count; due = due })
            else self.old) }
    {
        is_near(self.machine.moment(), config, count, due)
            && self.machine.restore_timer(timer, config, count, due)
    }

    /// Appends a message to a queue, if it can be queued there, and returns whether it can.
    pub fn push_message(&mut self, vp: Vp, sint: Sint, message: Message) -> Result<bool, AllocError>
        requires { vp < processors self.old }
        ensures valid { IfOk result (λ taken. IsTrue taken ↔ MayJoin self.old vp sint message) }
        ensures restored { IfOk result
            (λ taken. self.new ≡ (if taken then with_message self.old vp sint message else self.old)) }
        ensures err { OnErr result (self.new ≡ self.old) }
    {
        if !self.may_join(vp, sint, &message) {
            return Ok(false);
        }
        self.tickets.push(message.ticket())?;
        self.machine.restore_message(vp, sint, message);
        Ok(true)
    }

    /// Sets the ticket of the message in a slot, if the slot can hold it, and returns whether it can.
    pub fn set_ticket(&mut self, vp: Vp, sint: Sint, ticket: Ticket) -> Result<bool, AllocError>
        requires { vp < processors self.old }
        ensures valid { IfOk result (λ taken. IsTrue taken ↔ MayOccupy self.old vp sint ticket) }
        ensures restored { IfOk result
            (λ taken. self.new ≡ (if taken then with_slot_ticket self.old vp sint (Some ticket) else self.old)) }
        ensures err { OnErr result (self.new ≡ self.old) }
    {
        if !self.may_occupy(vp, sint, ticket) {
            return Ok(false);
        }
        self.tickets.push(ticket)?;
        self.machine.restore_ticket(vp, sint, ticket);
        Ok(true)
    }

    /// Whether a message can be queued at a source, after those that are there.
    fn may_join(&self, vp: Vp, sint: Sint, message: &Message) -> bool
        requires { vp < processors self.now }
        ensures { IsTrue result ↔ MayJoin self.now vp sint message.now }
    {
        if !is_message(message) || !self.is_home(vp, sint, message) {
            return false;
        }
        if !self.machine.has_buffer(message) || !is_timely(self.machine.moment(), sint, message) {
            return false;
        }
        let ticket = message.ticket();
        if !self.is_in_order(vp, sint, ticket) {
            return false;
        }
        self.is_behind_slot(vp, sint, ticket) && self.is_unplaced(ticket)
    }

    /// Whether a ticket is greater than those of all messages in a queue.
    fn is_in_order(&self, vp: Vp, sint: Sint, ticket: Ticket) -> bool
        requires { vp < processors self.now }
        ensures { IsTrue result ↔ All (λ x. ticket_of x < ticket) (queue_of self.now.queues vp sint) }
    {
        match self.machine.last_message(vp, sint) {
            Some(last) => last.ticket() < ticket,
            None => true,
        }
    }

    /// Whether a ticket is greater than the one in a slot, if it holds one.
    fn is_behind_slot(&self, vp: Vp, sint: Sint, ticket: Ticket) -> bool
        requires { vp < processors self.now }
        ensures { IsTrue result ↔ ((t : ℕ) → slot_of self.now vp sint ≡ Some t → t < ticket) }
    {
        match self.machine.slot_ticket(vp, sint) {
            Some(first) => first < ticket,
            None => true,
        }
    }

    /// Whether a ticket is less than those of all messages in a queue.
    fn is_before_queue(&self, vp: Vp, sint: Sint, ticket: Ticket) -> bool
        requires { vp < processors self.now }
        ensures { IsTrue result ↔ All (λ x. ticket < ticket_of x) (queue_of self.now.queues vp sint) }
    {
        match self.machine.first_message(vp, sint) {
            Some(first) => ticket < first.ticket(),
            None => true,
        }
    }

    /// Whether a message is from a port that sends to this source and leaves it within its buffers,
    /// or from a timer of this processor.
    fn is_home(&self, vp: Vp, sint: Sint, message: &Message) -> bool
        ensures { IsTrue result ↔ (IsHome self.now.ports vp sint message.now × IsWithinShare self.now message.now) }
    {
        match message {
            Message::FromPort { port, kind, .. } => {
                if !is_posted_type(*kind) {
                    return false;
                }
                self.has_buffer_for(vp, sint, *port)
            }
            Message::FromTimer { timer, .. } => timer.index() < 4 && timer.vp() == vp,
        }
    }

    /// Whether a port is open for messages to this source, and has a free buffer.
    fn has_buffer_for(&self, vp: Vp, sint: Sint, number: u8) -> bool
        ensures { IsTrue result ↔ (SendsTo self.now.ports number vp sint × HasFreeBuffer self.now number) }
    {
        let Some(port) = self.machine.port(number) else {
            return false;
        };
        let PortShape::Messages { buffers } = port.shape else {
            return false;
        };
        if !targets(port, vp, sint) {
            return false;
        }
        self.machine.port_used(number) < buffers
    }

    /// Whether a slot can hold a ticket.
    fn may_occupy(&self, vp: Vp, sint: Sint, ticket: Ticket) -> bool
        requires { vp < processors self.now }
        ensures { IsTrue result ↔ MayOccupy self.now vp sint ticket }
    {
        !self.machine.is_slot_empty(vp, sint)
            && self.machine.slot_ticket(vp, sint).is_none()
            && self.is_before_queue(vp, sint, ticket)
            && self.is_unplaced(ticket)
    }

    /// Whether a ticket was given, and is in no queue or slot.
    fn is_unplaced(&self, ticket: Ticket) -> bool
        ensures { IsTrue result ↔ IsUnplaced self.now ticket }
    {
        ticket < self.machine.next_ticket() && !self.tickets.contains(&ticket)
    }

    /// The restored board.
    pub fn finish(self) -> Board
        ensures { result.state ≡ self }
    {
        Board::from_machine(self.machine)
    }
}

/// Whether a timer is due no further ahead than its period.
fn is_near(moment: Moment, config: u64, count: u64, due: Option<u128>) -> bool
    ensures { IsTrue result ↔ IsNear moment (record { config = config; count = count; due = due }) }
{
    let is_periodic = config / 2 % 2 == 1;
    match due {
        Some(due) if is_periodic => due <= u128::from(moment) + u128::from(count),
        _ => true,
    }
}

/// Whether a message is at a source that its owner may name, with a time that has passed.
fn is_timely(moment: Moment, sint: Sint, message: &Message) -> bool
    ensures { IsTrue result ↔ HasExpired moment sint message.now }
{
    match message {
        Message::FromPort { .. } => true,
        Message::FromTimer { expiration, .. } => {
            sint.number() > 0 && *expiration > 0 && *expiration <= moment
        }
    }
}

/// Whether a post may have this message type.
fn is_posted_type(kind: u32) -> bool
    ensures { result ≡ is_posted_type kind }
{
    kind != 0 && kind < RESERVED
}

/// Whether a port's target is this source.
fn targets(port: Port, vp: Vp, sint: Sint) -> bool
    ensures { IsTrue result ↔ ((port.vp ≡ vp) × (port.sint ≡ sint)) }
{
    port.vp == vp && port.sint == sint
}

/// Whether the type of a message is not 0, and its payload fits a slot.
fn is_message(message: &Message) -> bool
    ensures { IsTrue result ↔ IsMessage message.now }
{
    match message {
        Message::FromPort { kind, payload, .. } => payload.as_slice().len() <= 240 && *kind != 0,
        Message::FromTimer { .. } => true,
    }
}
