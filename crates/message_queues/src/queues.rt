// The message queues.
ghost use Rattle.std.specs.Prelude.{◌≡◌, ◌↔◌, IsTrue, ◌<◌, ◌≤◌, [], length, map, take, drop, sum_by, IfOk, slice_get};
ghost use Rattle.std.specs.Option.{option_copied};
ghost use Rattle.std.specs.List.{All};
ghost use Rattle.board_terms.specs.Messages.{ticket_of};
ghost use Rattle.board_terms.specs.declared.messages.Message.TheVariants.{FromPort, FromTimer};
ghost use Rattle.board_terms.specs.Sources.{source_number};
ghost use Rattle.board_terms.specs.Ranges.{HasMessageRanges};
ghost use Rattle.message_queues.specs.Queues.{no_messages, queue_of, with_queue, appended, after_place, after_withdrawal, withdrawn_of, processors_of, most_ports, most_messages, port_used, is_timer_free, HasBuffer};

use crate::chains::{Chain, Neighbours, drop_first, link, message_at, message_in, withdraw};
use crate::messages::{copied, no_message, write_expiry, write_post};
use crate::owners::{PORTS, most_ports, owner_of, owner_of_timer};
use arrayvec::ArrayVec;
use board_terms::{Message, Moment, Sint, Ticket, TimerId, Vp, source_number};
use slab::Slab;
use std::alloc::{AllocError, Global};
use std::marker::Model;

/// The greatest number of buffers of a port.
const PORT_BUFFERS: usize = 16;

/// The greatest number of messages that `withdraw_front` removes.
const FRONT: u16 = 320;

/// The message queues of a board: one for each source of each processor.
#[derive(Drop)]
pub struct Queues {
    /// The neighbours of each queued message: each key is in exactly one chain, once. `append`,
    /// `drop_head` and `withdraw_port` maintain this.
    neighbours: Slab<Neighbours>,
    /// The message at each key. One that left its queue stays until its key is used again.
    messages: Vec<Message>,
    /// The ends and the length of each queue, those of processor 0 first. `append`, `drop_head`
    /// and `withdraw_port` maintain them.
    chains: Vec<Chain>,
    /// How many messages of each owner are queued. `append` increments it, `drop_head`
    /// and `withdraw_port` decrement it.
    in_use: Vec<u8>,
    processors: u8,
}

impl Model for Queues {
    ghost use Rattle.std.specs.Prelude.{List};
    ghost use Rattle.board_terms.specs.declared.messages.Message.{Message};

    ghost Value = { List (List Message) };

    ghost use Rattle.message_queues.specs.inside.View.{queues_of, QueuesInvariant};

    ghost view = { queues_of };

    ghost invariant = { QueuesInvariant };
}

impl Queues {
    /// Empty queues for that many processors, 1 to 64, with capacity for 16 messages of each port and one
    /// of each timer: 16 ports, or four for each processor if these are more. The only call here that
    /// allocates.
    pub fn open(alloc: Global, processors: u8) -> Result<Queues, AllocError>
        requires some { 1 ≤ processors }
        requires bound { processors ≤ 64 }
        ensures { IfOk result (λ q. q ≡ no_messages processors) }
    {
        let timers = 4 * processors as usize;
        let queues = 16 * processors as usize;
        let buffers = PORT_BUFFERS * most_ports(processors);
        let neighbours = Slab::with_capacity(alloc, buffers + timers)?;
        let messages = unused(alloc, neighbours.capacity())?;
        let in_use = vec![in alloc; 0; PORTS + timers]?;
        let mut chains = Vec::with_capacity(alloc, queues)?;
        for _ in 0..queues {
            chains.push_reserved(Chain {
                first: None,
                last: None,
                len: 0,
            });
        }
        Ok(Queues {
            neighbours,
            messages,
            chains,
            in_use,
            processors,
        })
    }

    /// Appends a message to a queue. Never allocates. Requires that the processor has queues here,
    /// and that the message has a free buffer (`has_buffer`).
    pub fn append(&mut self, vp: Vp, sint: Sint, message: Message)
        requires on_the_board { source_number vp sint < length self.old }
        requires buffer { HasBuffer self.old message }
        ensures queued { self.new ≡ appended self.old vp sint message }
        ensures as_many { length self.new ≡ length self.old }
    {
        match &message {
            Message::FromPort {
                ticket,
                port,
                kind,
                payload,
            } => self.append_post(vp, sint, *ticket, *port, *kind, payload.as_slice()),
            Message::FromTimer {
                ticket,
                timer,
                expiration,
            } => self.append_expiry(vp, sint, *ticket, *timer, *expiration),
        }
    }

    /// Appends the message of a post to a queue. Its payload is copied once, to its buffer. Never
    /// allocates. Requires that the port has a free buffer (`port_used`).
    #[inline]
    pub fn append_post(
        &mut self,
        vp: Vp,
        sint: Sint,
        ticket: Ticket,
        port: u8,
        kind: u32,
        payload: &[u8],
    )
        requires on_the_board { source_number vp sint < length self.old }
        requires fits { length payload.now ≤ 240 }
        requires buffer { HasBuffer self.old (FromPort ticket port kind (record { items = payload.now })) }
        ensures queued { self.new
            ≡ appended self.old vp sint (FromPort ticket port kind (record { items = payload.now })) }
        ensures as_many { length self.new ≡ length self.old }
    {
        self.in_use[port as usize] += 1;
        let chain = &mut self.chains[source_number(vp, sint)];
        let key = link(&mut self.neighbours, chain);
        write_post(&mut self.messages[key], ticket, port, kind, payload);
    }

    /// Appends the message of a timer to a queue. Never allocates. Requires that the timer's processor
    /// has queues here, and that its buffer is free (`timer_buffer_free`).
    #[inline]
    pub fn append_expiry(
        &mut self,
        vp: Vp,
        sint: Sint,
        ticket: Ticket,
        timer: TimerId,
        expiration: Moment,
    )
        requires on_the_board { source_number vp sint < length self.old }
        requires buffer { HasBuffer self.old (FromTimer ticket timer expiration) }
        ensures queued { self.new ≡ appended self.old vp sint (FromTimer ticket timer expiration) }
        ensures as_many { length self.new ≡ length self.old }
    {
        self.in_use[owner_of_timer(timer)] += 1;
        let chain = &mut self.chains[source_number(vp, sint)];
        let key = link(&mut self.neighbours, chain);
        write_expiry(&mut self.messages[key], ticket, timer, expiration);
    }

    /// The head of a queue, if there is one. Requires that the processor has queues here.
    #[inline]
    pub fn head(&self, vp: Vp, sint: Sint) -> Option<&Message>
        requires { source_number vp sint < length self.now }
        ensures { option_copied result ≡ slice_get (queue_of self.now vp sint) 0 }
    {
        let chain = &self.chains[source_number(vp, sint)];
        match chain.first {
            Some(key) => Some(message_in(&self.neighbours, self.messages.as_slice(), key)),
            None => None,
        }
    }

    /// Removes the head of a queue, if there is one. Requires that the processor has queues here.
    #[inline(always)]
    pub fn drop_head(&mut self, vp: Vp, sint: Sint)
        requires { source_number vp sint < length self.old }
        ensures rest { self.new ≡ after_place self.old vp sint }
        ensures as_many { length self.new ≡ length self.old }
    {
        let chain = &mut self.chains[source_number(vp, sint)];
        let Some(key) = chain.first else {
            return;
        };
        let message = message_in(&self.neighbours, self.messages.as_slice(), key);
        let owner = owner_of(message);
        drop_first(&mut self.neighbours, chain, key);
        self.in_use[owner] -= 1;
    }

    /// Removes and returns the head of a queue, if there is one. Requires that the processor has
    /// queues here. `head` and `drop_head` copy nothing.
    pub fn place(&mut self, vp: Vp, sint: Sint) -> Option<Message>
        requires { source_number vp sint < length self.old }
        ensures head { result ≡ slice_get (queue_of self.old vp sint) 0 }
        ensures rest { self.new ≡ after_place self.old vp sint }
        ensures as_many { length self.new ≡ length self.old }
    {
        let head = match self.head(vp, sint) {
            Some(message) => Some(copied(message)),
            None => None,
        };
        self.drop_head(vp, sint);
        head
    }

    /// Removes the messages of a port from a queue, and returns their tickets, front first. The
    /// others stay in order.
    pub fn withdraw_port(&mut self, vp: Vp, sint: Sint, port: u8) -> ArrayVec<Ticket, 16>
        requires { source_number vp sint < length self.old }
        ensures tickets { result.items ≡ withdrawn_of port (queue_of self.old vp sint) }
        ensures rest { self.new ≡ after_withdrawal self.old vp sint port }
        ensures as_many { length self.new ≡ length self.old }
    {
        if self.port_used(port) == 0 {
            return ArrayVec::new();
        }
        let chain = &mut self.chains[source_number(vp, sint)];
        let messages = self.messages.as_slice();
        let tickets = withdraw(&mut self.neighbours, messages, chain, port);
        self.in_use[port as usize] -= tickets.len() as u8;
        tickets
    }

    /// Removes the first 320 messages from a queue, or all if there are fewer, and returns their
    /// tickets, front first. Never allocates.
    pub fn withdraw_front(&mut self, vp: Vp, sint: Sint) -> ArrayVec<Ticket, 320>
        requires { source_number vp sint < length self.old }
        ensures tickets { result.items ≡ map ticket_of (take 320 (queue_of self.old vp sint)) }
        ensures rest { self.new ≡ with_queue self.old vp sint (drop 320 (queue_of self.old vp sint)) }
        ensures as_many { length self.new ≡ length self.old }
    {
        let count = self.count(vp, sint).min(FRONT);
        let mut tickets = ArrayVec::new();
        for _ in 0..count {
            tickets.push(self.head(vp, sint).unwrap().ticket());
            self.drop_head(vp, sint);
        }
        tickets
    }

    /// How many messages are in a queue. The bound, at most 4352, is that for all queues together: 16
    /// messages of each port and one of each timer.
    #[inline]
    pub fn count(&self, vp: Vp, sint: Sint) -> u16
        requires { source_number vp sint < length self.now }
        ensures value { result ≡ length (queue_of self.now vp sint) }
        ensures bound { result ≤ most_messages self.now }
        ensures in_all { sum_by length self.now ≤ most_messages self.now }
        ensures most { most_messages self.now ≤ 4352 }
    {
        self.chains[source_number(vp, sint)].len
    }

    /// How many buffers of a port are in use: its messages over all queues, at most 16.
    #[inline]
    pub fn port_used(&self, port: u8) -> u8
        ensures value { result ≡ port_used self.now port }
        ensures bound { result ≤ 16 }
    {
        self.in_use[port as usize]
    }

    /// Whether the one buffer of a timer is free: no message of it is queued. A timer of a processor
    /// that has no queues has no message here.
    #[inline]
    pub fn timer_buffer_free(&self, timer: TimerId) -> bool
        ensures { result ≡ is_timer_free self.now timer }
    {
        !self.has_timer(timer) || self.in_use[owner_of_timer(timer)] == 0
    }

    /// Whether there may be a port of that number.
    #[inline]
    fn has_port(&self, port: u8) -> bool
        ensures { IsTrue result ↔ (port < most_ports (processors_of self.now)) }
    {
        usize::from(port) < most_ports(self.processors)
    }

    /// Whether the processor of a timer has queues here.
    #[inline]
    fn has_timer(&self, timer: TimerId) -> bool
        ensures { IsTrue result ↔ (timer.0 < processors_of self.now) }
    {
        timer.vp().number() < self.processors
    }

    /// Whether there is a free buffer for a message.
    pub fn has_buffer(&self, message: &Message) -> bool
        ensures { IsTrue result ↔ HasBuffer self.now message.now }
    {
        match message {
            Message::FromPort { port, .. } => {
                self.has_port(*port) && usize::from(self.port_used(*port)) < PORT_BUFFERS
            }
            Message::FromTimer { timer, .. } => {
                self.has_timer(*timer) && self.timer_buffer_free(*timer)
            }
        }
    }

    /// The message at an index of a queue, counted from the front; `None` if there is none.
    pub fn message(&self, vp: Vp, sint: Sint, index: u16) -> Option<&Message>
        requires { source_number vp sint < length self.now }
        ensures { option_copied result ≡ slice_get (queue_of self.now vp sint) index }
    {
        let chain = &self.chains[source_number(vp, sint)];
        if index >= chain.len {
            return None;
        }
        let messages = self.messages.as_slice();
        Some(message_at(&self.neighbours, messages, chain, index))
    }

    /// What holds for the numbers in every queued message. Does nothing.
    pub fn facts(&self)
        ensures ranges { All (All HasMessageRanges) self.now }
    {
        message_ranges(self.messages.as_slice());
    }
}

/// The numbers of each message are in range.
fn message_ranges(messages: &[Message])
    ensures { All HasMessageRanges messages.now }
{
    for message in messages {
        message.facts();
    }
}

/// The messages of buffers that were never used.
fn unused(alloc: Global, count: usize) -> Result<Vec<Message>, AllocError>
    ensures { IfOk result (λ messages. length messages.items ≡ count) }
{
    let mut messages = Vec::with_capacity(alloc, count)?;
    for _ in 0..count {
        messages.push_reserved(no_message());
    }
    Ok(messages)
}
