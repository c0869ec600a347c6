// Queueing, placing and withdrawing messages.
ghost use Rattle.std.specs.Prelude.{◌≡◌, [], length};
ghost use Rattle.board_terms.specs.declared.messages.Message.TheVariants.{FromPort, FromTimer};

use crate::steps::{Other, Part, first_other};
use board_terms::{Message, PayloadBytes, Sint, Ticket, TimerId, Vp};
use message_queues::Queues;
use std::alloc::{AllocError, Global};

/// The processor and the source of a queue.
type Queue = (u8, u8);

/// A call of the queues. Timers are named by their numbers.
#[derive(Clone, Copy)]
pub(crate) enum Call {
    Post(Queue, Ticket, u8),
    /// Sixteen posts to a port, with tickets from 0 on.
    PostSixteen(Queue, u8),
    PostOthers(Queue),
    Expire(Queue, Ticket, u8),
    /// Each timer expires, with tickets from 100 on.
    ExpireAll(Queue),
    Place(Queue),
    WithdrawPort(Queue, u8),
    WithdrawFront(Queue),
    Count(Queue),
    PortUsed(u8),
    TimerIsFree(u8),
}

#[derive(Clone, Copy, PartialEq, Debug)]
pub(crate) enum Answer {
    Done,
    Is(bool),
    Messages(u16),
    Used(u8),
    Message(Ticket),
    NoMessage,
    /// The number of tickets, and the first five of them, padded with zeros.
    Tickets(usize, [Ticket; 5]),
}

use Answer::{Done, Is, Messages, NoMessage, Tickets, Used};
use Call::{
    Count, Expire, ExpireAll, Place, PortUsed, Post, PostOthers, PostSixteen, TimerIsFree,
    WithdrawFront, WithdrawPort,
};

fn post(ticket: Ticket, port: u8) -> Message
    ensures { result ≡ FromPort ticket port 1 (record { items = [] }) }
{
    Message::FromPort {
        ticket,
        port,
        kind: 1,
        payload: PayloadBytes::new(),
    }
}

fn expired(ticket: Ticket, timer: TimerId) -> Message
    ensures { result ≡ FromTimer ticket timer 20 }
{
    Message::FromTimer {
        ticket,
        timer,
        expiration: 20,
    }
}

fn answer_of(message: Option<Message>) -> Answer {
    match message {
        Some(message) => Answer::Message(message.ticket()),
        None => NoMessage,
    }
}

fn listed(tickets: &[Ticket]) -> Answer {
    let mut first = [0; 5];
    for (place, ticket) in first.iter_mut().zip(tickets) {
        *place = *ticket;
    }
    Tickets(tickets.len(), first)
}

/// The queues of 64 processors.
#[derive(Drop)]
struct Scene {
    queues: Queues,
    ghost all: { length queues ≡ 1024 },
}

impl Scene {
    fn open(alloc: Global) -> Result<Scene, AllocError> {
        let queues = Queues::open(alloc, 64)?;
        Ok(Scene { queues })
    }

    /// Queues a post of a port, if it has a free buffer.
    fn post(&mut self, queue: Queue, ticket: Ticket, port: u8) -> Option<Answer> {
        // README message_queues: begin
        let (vp, sint) = (Vp::new(queue.0)?, Sint::new(queue.1)?);
        let message = post(ticket, port);
        if !self.queues.has_buffer(&message) {
            return None;
        }
        self.queues.append(vp, sint, message);
        Some(Done)
        // README message_queues: end
    }

    /// Sixteen of each port but port 0.
    fn post_others(&mut self, queue: Queue) -> Option<Answer> {
        for port in 1..256u16 {
            self.post_sixteen(queue, port as u8)?;
        }
        Some(Done)
    }

    fn post_sixteen(&mut self, queue: Queue, port: u8) -> Option<Answer> {
        for ticket in 0..16 {
            self.post(queue, ticket, port)?;
        }
        Some(Done)
    }

    /// Queues the message of a timer, if its buffer is free.
    fn expire(&mut self, queue: Queue, ticket: Ticket, number: u8) -> Option<Answer> {
        let (vp, sint) = (Vp::new(queue.0)?, Sint::new(queue.1)?);
        let timer = TimerId::from_number(number)?;
        let message = expired(ticket, timer);
        if !self.queues.has_buffer(&message) {
            return None;
        }
        self.queues.append(vp, sint, message);
        Some(Done)
    }

    fn expire_all(&mut self, queue: Queue) -> Option<Answer> {
        for number in 0..=u8::MAX {
            self.expire(queue, 100 + number as Ticket, number)?;
        }
        Some(Done)
    }

    fn place(&mut self, queue: Queue) -> Option<Answer> {
        let (vp, sint) = (Vp::new(queue.0)?, Sint::new(queue.1)?);
        Some(answer_of(self.queues.place(vp, sint)))
    }

    fn withdraw_port(&mut self, queue: Queue, port: u8) -> Option<Answer> {
        let (vp, sint) = (Vp::new(queue.0)?, Sint::new(queue.1)?);
        let tickets = self.queues.withdraw_port(vp, sint, port);
        Some(listed(tickets.as_slice()))
    }

    fn withdraw_front(&mut self, queue: Queue) -> Option<Answer> {
        let (vp, sint) = (Vp::new(queue.0)?, Sint::new(queue.1)?);
        let tickets = self.queues.withdraw_front(vp, sint);
        Some(listed(tickets.as_slice()))
    }

    fn count(&self, queue: Queue) -> Option<Answer> {
        let (vp, sint) = (Vp::new(queue.0)?, Sint::new(queue.1)?);
        Some(Messages(self.queues.count(vp, sint)))
    }

    fn timer_is_free(&self, number: u8) -> Option<Answer> {
        let timer = TimerId::from_number(number)?;
        Some(Is(self.queues.timer_buffer_free(timer)))
    }
}

impl Part for Scene {
    type Call = Call;

    type Answer = Answer;

    fn ask(&mut self, call: Call) -> Option<Answer> {
        match call {
            Post(queue, ticket, port) => self.post(queue, ticket, port),
            PostSixteen(queue, port) => self.post_sixteen(queue, port),
            PostOthers(queue) => self.post_others(queue),
            Expire(queue, ticket, number) => self.expire(queue, ticket, number),
            ExpireAll(queue) => self.expire_all(queue),
            Place(queue) => self.place(queue),
            WithdrawPort(queue, port) => self.withdraw_port(queue, port),
            WithdrawFront(queue) => self.withdraw_front(queue),
            Count(queue) => self.count(queue),
            PortUsed(port) => Some(Used(self.queues.port_used(port))),
            TimerIsFree(number) => self.timer_is_free(number),
        }
    }
}

/// The first step at which a new scene gives another answer.
fn other(alloc: Global, steps: &[(Call, Answer)]) -> Result<Option<Other<Answer>>, AllocError> {
    Ok(first_other(&mut Scene::open(alloc)?, steps))
}

/// The queue that most tables fill, and another.
const QUEUE: Queue = (63, 15);

const OTHER: Queue = (0, 2);

const SIXTEEN: Answer = Tickets(16, [0, 1, 2, 3, 4]);

const NO_TICKETS: Answer = Tickets(0, [0; 5]);

/// A queued message occupies a buffer, and frees it when it leaves: two posts to port 3, with the
/// message of timer 6 between them, and a post to port 4 after them.
const BUFFERS: [(Call, Answer); 20] = [
    // README message_queues: begin
    (Post(QUEUE, 7, 3), Done),
    (TimerIsFree(6), Is(true)),
    (Expire(QUEUE, 8, 6), Done),
    (Post(QUEUE, 9, 3), Done),
    (Post(QUEUE, 10, 4), Done),
    (Count(QUEUE), Messages(4)),
    (Count(OTHER), Messages(0)),
    (PortUsed(3), Used(2)),
    (PortUsed(16), Used(0)),
    (TimerIsFree(6), Is(false)),
    (TimerIsFree(2), Is(true)),
    (Place(QUEUE), Answer::Message(7)),
    (PortUsed(3), Used(1)),
    (WithdrawPort(QUEUE, 3), Tickets(1, [9, 0, 0, 0, 0])),
    (WithdrawPort(QUEUE, 3), NO_TICKETS),
    (PortUsed(3), Used(0)),
    (Place(QUEUE), Answer::Message(8)),
    (TimerIsFree(6), Is(true)),
    (Place(QUEUE), Answer::Message(10)),
    (Place(QUEUE), NoMessage),
    // README message_queues: end
];

const SIXTEEN_OF_ONE_PORT: [(Call, Answer); 10] = [
    (Post(QUEUE, 100, 4), Done),
    (PostSixteen(QUEUE, 15), Done),
    (Post(QUEUE, 101, 4), Done),
    (Count(QUEUE), Messages(18)),
    (PortUsed(15), Used(16)),
    (WithdrawPort(QUEUE, 15), SIXTEEN),
    (PortUsed(15), Used(0)),
    (Place(QUEUE), Answer::Message(100)),
    (Place(QUEUE), Answer::Message(101)),
    (Place(QUEUE), NoMessage),
];

/// All 4352 buffers: sixteen of each of 256 ports, and one of each timer, queued between the first port
/// and the others.
const ALL_BUFFERS: [(Call, Answer); 25] = [
    (PostSixteen(QUEUE, 0), Done),
    (ExpireAll(QUEUE), Done),
    (PostOthers(QUEUE), Done),
    (Count(QUEUE), Messages(4352)),
    (PortUsed(255), Used(16)),
    (TimerIsFree(255), Is(false)),
    (WithdrawPort(QUEUE, 255), SIXTEEN),
    (WithdrawPort(QUEUE, 0), SIXTEEN),
    (WithdrawPort(QUEUE, 7), SIXTEEN),
    (PortUsed(255), Used(0)),
    (PortUsed(7), Used(0)),
    (PortUsed(1), Used(16)),
    (Count(QUEUE), Messages(4304)),
    (Place(QUEUE), Answer::Message(100)),
    (Place(QUEUE), Answer::Message(101)),
    (TimerIsFree(1), Is(true)),
    (TimerIsFree(2), Is(false)),
    (Expire(QUEUE, 99, 1), Done),
    (PostSixteen(OTHER, 255), Done),
    (PortUsed(255), Used(16)),
    (Count(OTHER), Messages(16)),
    (Place(QUEUE), Answer::Message(102)),
    (WithdrawFront(OTHER), SIXTEEN),
    (
        WithdrawFront(QUEUE),
        Tickets(320, [103, 104, 105, 106, 107]),
    ),
    (Count(QUEUE), Messages(3982)),
];

/// Each timer has a buffer of its own, and none is in use once its message is withdrawn.
const ALL_WITHDRAWN: [(Call, Answer); 6] = [
    (ExpireAll(QUEUE), Done),
    (TimerIsFree(0), Is(false)),
    (TimerIsFree(32), Is(false)),
    (
        WithdrawFront(QUEUE),
        Tickets(256, [100, 101, 102, 103, 104]),
    ),
    (TimerIsFree(255), Is(true)),
    (Count(QUEUE), Messages(0)),
];

/// Withdrawals from the front, the middle and the end, from a queue of one and from one without
/// such messages: the others stay in order, one more is queued after them, and another queue is
/// unchanged.
const WITHDRAWALS: [(Call, Answer); 38] = [
    (Post(OTHER, 20, 4), Done),
    (Post(QUEUE, 0, 3), Done),
    (Post(QUEUE, 1, 3), Done),
    (Post(QUEUE, 2, 4), Done),
    (Post(QUEUE, 3, 3), Done),
    (Post(QUEUE, 4, 5), Done),
    (Post(QUEUE, 5, 4), Done),
    (Post(QUEUE, 6, 3), Done),
    (Post(QUEUE, 7, 3), Done),
    (WithdrawPort(QUEUE, 3), Tickets(5, [0, 1, 3, 6, 7])),
    (Post(QUEUE, 99, 3), Done),
    (WithdrawFront(QUEUE), Tickets(4, [2, 4, 5, 99, 0])),
    (Post(QUEUE, 0, 4), Done),
    (Post(QUEUE, 1, 5), Done),
    (Post(QUEUE, 2, 5), Done),
    (WithdrawPort(QUEUE, 4), Tickets(1, [0, 0, 0, 0, 0])),
    (Post(QUEUE, 99, 3), Done),
    (WithdrawFront(QUEUE), Tickets(3, [1, 2, 99, 0, 0])),
    (Post(QUEUE, 0, 5), Done),
    (Post(QUEUE, 1, 4), Done),
    (Post(QUEUE, 2, 5), Done),
    (WithdrawPort(QUEUE, 4), Tickets(1, [1, 0, 0, 0, 0])),
    (Post(QUEUE, 99, 3), Done),
    (WithdrawFront(QUEUE), Tickets(3, [0, 2, 99, 0, 0])),
    (Post(QUEUE, 0, 5), Done),
    (Post(QUEUE, 1, 5), Done),
    (Post(QUEUE, 2, 4), Done),
    (WithdrawPort(QUEUE, 4), Tickets(1, [2, 0, 0, 0, 0])),
    (Post(QUEUE, 99, 3), Done),
    (WithdrawFront(QUEUE), Tickets(3, [0, 1, 99, 0, 0])),
    (Post(QUEUE, 0, 4), Done),
    (WithdrawPort(QUEUE, 4), Tickets(1, [0, 0, 0, 0, 0])),
    (Post(QUEUE, 99, 3), Done),
    (WithdrawPort(QUEUE, 4), NO_TICKETS),
    (Place(QUEUE), Answer::Message(99)),
    (Place(QUEUE), NoMessage),
    (Place(OTHER), Answer::Message(20)),
    (Place(OTHER), NoMessage),
];

const AN_EMPTIED_QUEUE: [(Call, Answer); 13] = [
    (Post(OTHER, 20, 3), Done),
    (Post(QUEUE, 1, 3), Done),
    (Expire(QUEUE, 2, 2), Done),
    (Post(QUEUE, 3, 5), Done),
    (Post(QUEUE, 4, 3), Done),
    (WithdrawFront(QUEUE), Tickets(4, [1, 2, 3, 4, 0])),
    (Count(QUEUE), Messages(0)),
    (PortUsed(3), Used(1)),
    (PortUsed(5), Used(0)),
    (TimerIsFree(2), Is(true)),
    (WithdrawFront(QUEUE), NO_TICKETS),
    (Place(QUEUE), NoMessage),
    (Place(OTHER), Answer::Message(20)),
];

const TABLES: [(&str, &[(Call, Answer)]); 6] = [
    ("a queued message has a buffer", &BUFFERS),
    ("sixteen of one port", &SIXTEEN_OF_ONE_PORT),
    ("all buffers in one queue", &ALL_BUFFERS),
    ("all timers in one queue", &ALL_WITHDRAWN),
    ("a withdrawal mends the queue", &WITHDRAWALS),
    ("a queue is emptied", &AN_EMPTIED_QUEUE),
];

#[test]
fn each_table_is_answered(rt: HostRuntime) {
    for (table, steps) in &TABLES {
        assert_eq!(rt; other(rt.alloc(), *steps), Ok(None), "{table}");
    }
}

/// Whether the buffer of a timer is free, and whether its message has one, in the queues of one
/// processor.
fn timer_of_one(alloc: Global, number: u8) -> Result<(bool, bool), AllocError> {
    let queues = Queues::open(alloc, 1)?;
    let timer = TimerId::from_number(number).unwrap();
    let message = expired(0, timer);
    Ok((queues.timer_buffer_free(timer), queues.has_buffer(&message)))
}

#[test]
fn a_timer_without_queues_has_no_buffer(rt: HostRuntime) {
    assert_eq!(rt; timer_of_one(rt.alloc(), 3), Ok((true, true)));
    assert_eq!(rt; timer_of_one(rt.alloc(), 4), Ok((true, false)));
}
