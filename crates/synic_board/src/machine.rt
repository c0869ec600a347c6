// The parts of a board, which together implement the reference model.
ghost use Rattle.std.specs.Prelude.{◌≡◌, ◌≢◌, ◌<◌, ◌≤◌, ◌+◌, ◌↔◌, length, replicate, None, IfOk, IsSome, IfSome};
ghost use Rattle.synic_board.specs.declared.event.Event.TheVariants.{Post, Store};
ghost use Rattle.synic_board.specs.State.{opened, processors};
ghost use Rattle.synic_board.specs.Step.{step};
ghost use Rattle.synic_board.specs.Sound.{IsSound, PayloadFits};
ghost use Rattle.synic_board.specs.Buffers.{HasBuffers};

mod absorbing;
mod alarm;
mod delivery;
mod interrupts;
mod overlays;
mod pages;
mod posts;
mod ranges;
mod reading;
mod registers;
mod resetting;
mod restoring;
mod sending;
mod suspending;
mod timers;

use crate::event::{Event, Reply};
use crate::processors::vec_per_processor;
use crate::summary::Summary;
use board_terms::{Moment, Notices, Refusal, Ticket, Vp};
use event_ports::Ports;
use gpa_space::Space;
use lapic_core::Lapic;
use message_queues::Queues;
use std::alloc::{AllocError, Global};
use std::marker::Model;
use stimer_bank::TimerBank;
use synic_regs::SynicRegs;

/// The parts of a board. The contract shows the state of the reference model, and how often the
/// cached summary was written. `Board` and `Draft` read the parts, and change them by calls alone.
#[derive(Drop)]
pub(crate) struct Machine {
    pub(crate) page_count: u8,
    pub(crate) moment: Moment,
    pub(crate) next_ticket: Ticket,
    pub(crate) lapics: Vec<Lapic>,
    pub(crate) regs: Vec<SynicRegs>,
    pub(crate) space: Space,
    pub(crate) ports: Ports,
    pub(crate) queues: Queues,
    // the ticket in the message slot of each source, those of processor 0 first
    pub(crate) slots: Vec<Option<Ticket>>,
    pub(crate) timers: TimerBank,
    // cache: each event updates the values that it changes, so it always equals the summary
    // computed from scratch
    pub(crate) summary: Summary,
}

impl Model for Machine {
    ghost use Rattle.synic_board.specs.State.{BoardModel};
    ghost use Rattle.synic_board.specs.inside.Codes.{model_code};

    ghost Value = { BoardModel };

    ghost coded = { model_code };

    ghost use Rattle.synic_board.specs.inside.View.{model_of, MachineInvariant};

    ghost view = { model_of };

    ghost invariant = { MachineInvariant };
}

impl Machine {
    /// A newly opened machine; with 0 pages it is sparse. Allocates all memory that events need.
    pub(crate) fn open(
        alloc: Global,
        processors: u8,
        pages: u8,
        first_ticket: Ticket,
    ) -> Result<Machine, AllocError>
        requires some_processor { 1 ≤ processors }
        requires processor_bound { processors ≤ 64 }
        requires dense { pages ≢ 0 → processors ≤ 8 }
        requires page_bound { pages ≤ 64 }
        ensures opened { IfOk result (λ m. m.state ≡ opened processors pages first_ticket) }
        ensures writes { IfOk result (λ m. m.writes ≡ 0) }
    {
        let summary = Summary::open(alloc, processors, pages)?;
        let space = Space::open(alloc, processors, pages)?;
        let ports = Ports::open(alloc, processors, pages == 0)?;
        let timers = TimerBank::open(alloc, processors)?;
        let queues = Queues::open(alloc, processors)?;
        let slots = no_tickets(alloc, 16 * processors as usize)?;
        let lapics = vec_per_processor(alloc, processors, Lapic::new)?;
        let regs = vec_per_processor(alloc, processors, SynicRegs::new)?;
        Ok(Machine {
            page_count: pages,
            moment: 0,
            next_ticket: first_ticket,
            lapics,
            regs,
            space,
            ports,
            queues,
            slots,
            timers,
            summary,
        })
    }

    /// The number of processors on the board.
    pub(crate) fn processors(&self) -> u8
        ensures count { result ≡ processors self.now.state }
        ensures bound { result ≤ 64 }
        ensures dense { length self.now.state.pages ≢ 0 → result ≤ 8 }
    {
        self.lapics.len() as u8
    }

    /// Performs an event, replaces the contents of `notices` by its notices, and returns its reply.
    /// Never allocates.
    #[tactic(auto, unfolding(crate::specs::Step::step))]
    #[inline(always)]
    pub(crate) fn perform(&mut self, event: &Event, notices: &mut Notices) -> Reply
        requires sound { IsSound self.old.state }
        requires buffers { HasBuffers self.old.state }
        ensures step { (self.new.state, result, notices.new) ≡ step self.old.state event.now }
        ensures fits { PayloadFits event.now }
        ensures writes_monotone { self.old.writes ≤ self.new.writes }
        ensures bound { self.new.writes ≤ self.old.writes + (8 + length notices.new) }
    {
        notices.clear();
        match event {
            Event::OpenPort {
                port,
                vp,
                sint,
                shape,
            } => self.open_port(*port, *vp, *sint, *shape),
            Event::ClosePort { port } => self.close_port(*port, notices),
            Event::Write {
                vp,
                register,
                value,
            } => match self.processor(*vp) {
                Some(vp) => self.write(vp, *register, *value, notices),
                None => Reply::Refused(Refusal::NoSuchProcessor),
            },
            Event::Read { vp, register } => match self.processor(*vp) {
                Some(vp) => self.read(vp, *register),
                None => Reply::Refused(Refusal::NoSuchProcessor),
            },
            Event::Post {
                port,
                kind,
                payload,
            } => self.post(*port, *kind, payload.as_slice(), notices),
            Event::Signal { port, flag } => self.signal(*port, *flag, notices),
            Event::Assert { vp, vector } => match self.processor(*vp) {
                Some(vp) => {
                    self.request(vp, *vector, notices);
                    Reply::Done
                }
                None => Reply::Refused(Refusal::NoSuchProcessor),
            },
            Event::Absorb { vp, part, bits } => match self.processor(*vp) {
                Some(vp) => self.absorb(vp, *part, *bits, notices),
                None => Reply::Refused(Refusal::NoSuchProcessor),
            },
            Event::Store { address, bytes } => self.store(*address, bytes.as_slice(), notices),
            Event::Load { address, length } => self.load(*address, *length),
            Event::Tick { moment } => self.tick(*moment, notices),
            Event::Take { vp } => match self.processor(*vp) {
                Some(vp) => Reply::Taken(self.take(vp)),
                None => Reply::Refused(Refusal::NoSuchProcessor),
            },
            Event::Suspend { vp } => match self.processor(*vp) {
                Some(vp) => self.suspend(vp),
                None => Reply::Refused(Refusal::NoSuchProcessor),
            },
            Event::Resume { vp } => match self.processor(*vp) {
                Some(vp) => self.resume(vp),
                None => Reply::Refused(Refusal::NoSuchProcessor),
            },
            Event::Reset { vp } => match self.processor(*vp) {
                Some(vp) => self.reset(vp, notices),
                None => Reply::Refused(Refusal::NoSuchProcessor),
            },
            Event::Send { vector, mask } => self.send(*vector, *mask, notices),
        }
    }

    /// Performs a post with a borrowed payload.
    #[tactic(auto, unfolding(crate::specs::Step::step))]
    #[inline(always)]
    pub(crate) fn perform_post(
        &mut self,
        port: u8,
        kind: u32,
        payload: &[u8],
        notices: &mut Notices,
    ) -> Reply
        requires { length payload.now ≤ 240 }
        ensures step { (self.new.state, result, notices.new)
            ≡ step self.old.state (Post port kind (record { items = payload.now })) }
        ensures writes_monotone { self.old.writes ≤ self.new.writes }
        ensures bound { self.new.writes ≤ self.old.writes + length notices.new }
    {
        notices.clear();
        self.post(port, kind, payload, notices)
    }

    /// Performs a store with borrowed bytes.
    #[tactic(auto, unfolding(crate::specs::Step::step))]
    #[inline(always)]
    pub(crate) fn perform_store(
        &mut self,
        address: u64,
        bytes: &[u8],
        notices: &mut Notices,
    ) -> Reply
        requires { IsSound self.old.state }
        ensures step { (self.new.state, result, notices.new)
            ≡ step self.old.state (Store address (record { items = bytes.now })) }
        ensures writes { self.new.writes ≡ self.old.writes }
    {
        notices.clear();
        self.store(address, bytes, notices)
    }

    /// The processor with this number, if it is on the board.
    #[inline(always)]
    fn processor(&self, number: u8) -> Option<Vp>
        ensures on { IsSome result ↔ (number < processors self.now.state) }
        ensures value { IfSome result (λ vp. vp ≡ number) }
    {
        if number < self.processors() {
            // At most 64 are, so the remainder is the number, and `new` tests nothing.
            Vp::new(number % 64)
        } else {
            None
        }
    }
}

/// Slots without tickets.
fn no_tickets(alloc: Global, slots: usize) -> Result<Vec<Option<Ticket>>, AllocError>
    ensures { IfOk result (λ tickets. tickets.items ≡ replicate slots None) }
{
    vec![in alloc; None; slots]
}
