// Requests, takes and EOIs, and the next vector.
use crate::steps::{Part, first_other};
use board_terms::Vector;
use lapic_core::{Lapic, VectorSet};

/// A call of a set.
#[derive(Clone, Copy)]
pub(crate) enum SetCall {
    Insert(u8),
    Remove(u8),
    Contains(u8),
    Greatest,
    GreatestOfCopy,
}

/// A call of a `Lapic`.
#[derive(Clone, Copy)]
pub(crate) enum Call {
    Request(u8),
    IsRequested(u8),
    Next,
    Take { auto: bool },
    End,
    SetTaskPriority(u8),
    TaskPriority,
    Suspend,
    Resume,
    IsSuspended,
}

#[derive(Clone, Copy, PartialEq, Debug)]
pub(crate) enum Answer {
    Done,
    Is(bool),
    Vector(u8),
    NoVector,
    Priority(u8),
}

use Answer::{Done, Is, NoVector, Priority};
use Call::{
    End, IsRequested, IsSuspended, Next, Request, Resume, SetTaskPriority, Suspend, TaskPriority,
};
use SetCall::{Contains, Greatest, GreatestOfCopy, Insert, Remove};

fn answer_of(vector: Option<Vector>) -> Answer {
    match vector {
        Some(vector) => Answer::Vector(vector.number()),
        None => NoVector,
    }
}

impl Part for VectorSet {
    type Call = SetCall;

    type Answer = Answer;

    fn ask(&mut self, call: SetCall) -> Option<Answer> {
        Some(match call {
            Insert(number) => {
                self.insert(Vector::new(number)?);
                Done
            }
            Remove(number) => {
                self.remove(Vector::new(number)?);
                Done
            }
            Contains(number) => Is(self.contains(Vector::new(number)?)),
            Greatest => answer_of(self.greatest()),
            GreatestOfCopy => answer_of(self.copy().greatest()),
        })
    }
}

impl Part for Lapic {
    type Call = Call;

    type Answer = Answer;

    fn ask(&mut self, call: Call) -> Option<Answer> {
        // README lapic_core: begin
        Some(match call {
            Request(number) => Is(self.request(Vector::new(number)?)),
            IsRequested(number) => Is(self.is_requested(Vector::new(number)?)),
            Next => answer_of(self.next()),
            Call::Take { auto } => answer_of(self.take(auto)),
            End => answer_of(self.end()),
            SetTaskPriority(value) => {
                self.set_task_priority(value);
                Done
            }
            TaskPriority => Priority(self.task_priority()),
            Suspend => {
                self.suspend();
                Done
            }
            Resume => {
                self.resume();
                Done
            }
            IsSuspended => Is(self.is_suspended()),
        })
        // README lapic_core: end
    }
}

/// Vectors at the ends of the words of a set.
const MEMBERS: [(SetCall, Answer); 36] = [
    (Greatest, NoVector),
    (GreatestOfCopy, NoVector),
    (Contains(16), Is(false)),
    (Insert(16), Done),
    (Greatest, Answer::Vector(16)),
    (Insert(63), Done),
    (Greatest, Answer::Vector(63)),
    (Insert(64), Done),
    (Greatest, Answer::Vector(64)),
    (Insert(128), Done),
    (Insert(127), Done),
    (Greatest, Answer::Vector(128)),
    (Insert(192), Done),
    (Insert(191), Done),
    (Greatest, Answer::Vector(192)),
    (Insert(255), Done),
    (Insert(255), Done),
    (Greatest, Answer::Vector(255)),
    (GreatestOfCopy, Answer::Vector(255)),
    (Contains(16), Is(true)),
    (Contains(255), Is(true)),
    (Contains(254), Is(false)),
    (Remove(255), Done),
    (Contains(255), Is(false)),
    (Greatest, Answer::Vector(192)),
    (Remove(128), Done),
    (Remove(192), Done),
    (Greatest, Answer::Vector(191)),
    (Remove(191), Done),
    (Greatest, Answer::Vector(127)),
    (Remove(127), Done),
    (Remove(64), Done),
    (Greatest, Answer::Vector(63)),
    (Remove(63), Done),
    (Remove(16), Done),
    (Greatest, NoVector),
];

#[test]
fn members_at_the_ends_of_words(rt: HostRuntime) {
    assert_eq!(rt; first_other(&mut VectorSet::new(), &MEMBERS), None);
}

const TAKE: Call = Call::Take { auto: false };

const TAKE_AUTO: Call = Call::Take { auto: true };

/// A vector is next if its class is above that of the task priority and that of the vector in service.
const PRIORITIES: [(Call, Answer); 28] = [
    (TaskPriority, Priority(0)),
    (End, NoVector),
    (SetTaskPriority(0x50), Done),
    (TaskPriority, Priority(0x50)),
    (Request(0x5f), Is(true)),
    (Next, NoVector),
    (Request(0x61), Is(true)),
    (Request(0x61), Is(false)),
    (Next, Answer::Vector(0x61)),
    (TAKE, Answer::Vector(0x61)),
    (IsRequested(0x61), Is(false)),
    (IsRequested(0x5f), Is(true)),
    (Next, NoVector),
    (End, Answer::Vector(0x61)),
    (TAKE, NoVector),
    (SetTaskPriority(0x4f), Done),
    (Next, Answer::Vector(0x5f)),
    (TAKE, Answer::Vector(0x5f)),
    (Request(0x50), Is(true)),
    (TAKE, NoVector),
    (Request(0x60), Is(true)),
    (TAKE, Answer::Vector(0x60)),
    (End, Answer::Vector(0x60)),
    (TAKE, NoVector),
    (End, Answer::Vector(0x5f)),
    (TAKE, Answer::Vector(0x50)),
    (End, Answer::Vector(0x50)),
    (End, NoVector),
];

/// The least and the greatest vector, and the task priorities that block them.
const EDGES: [(Call, Answer); 14] = [
    (Request(0x10), Is(true)),
    (Next, Answer::Vector(0x10)),
    (SetTaskPriority(0x0f), Done),
    (Next, Answer::Vector(0x10)),
    (SetTaskPriority(0x10), Done),
    (Next, NoVector),
    (Request(0xff), Is(true)),
    (Next, Answer::Vector(0xff)),
    (SetTaskPriority(0xf0), Done),
    (Next, NoVector),
    (SetTaskPriority(0xff), Done),
    (TaskPriority, Priority(0xff)),
    (SetTaskPriority(0xef), Done),
    (TAKE, Answer::Vector(0xff)),
];

/// An auto-EOI vector is not in service after it is taken.
const AUTO: [(Call, Answer); 9] = [
    // README lapic_core: begin
    (Request(0x50), Is(true)),
    (TAKE_AUTO, Answer::Vector(0x50)),
    (IsRequested(0x50), Is(false)),
    (Request(0x50), Is(true)),
    (Request(0x5f), Is(true)),
    (TAKE_AUTO, Answer::Vector(0x5f)),
    (TAKE_AUTO, Answer::Vector(0x50)),
    (End, NoVector),
    (TAKE_AUTO, NoVector),
    // README lapic_core: end
];

/// While the processor is suspended, requests are recorded and vectors in service end, but none is
/// next.
const SUSPENDED: [(Call, Answer); 22] = [
    (IsSuspended, Is(false)),
    (Request(0x30), Is(true)),
    (TAKE, Answer::Vector(0x30)),
    (Request(0x50), Is(true)),
    (Suspend, Done),
    (IsSuspended, Is(true)),
    (Next, NoVector),
    (Request(0x60), Is(true)),
    (Request(0x50), Is(false)),
    (TAKE, NoVector),
    (TAKE_AUTO, NoVector),
    (SetTaskPriority(0x40), Done),
    (TaskPriority, Priority(0x40)),
    (Suspend, Done),
    (Resume, Done),
    (IsSuspended, Is(false)),
    (TAKE, Answer::Vector(0x60)),
    (Suspend, Done),
    (End, Answer::Vector(0x60)),
    (Next, NoVector),
    (Resume, Done),
    (Next, Answer::Vector(0x50)),
];

const TABLES: [(&str, &[(Call, Answer)]); 4] = [
    ("priorities hold back", &PRIORITIES),
    ("the least and the greatest", &EDGES),
    ("some end by themselves", &AUTO),
    ("a suspended processor", &SUSPENDED),
];

#[test]
fn each_table_is_answered(rt: HostRuntime) {
    for (table, steps) in &TABLES {
        assert_eq!(rt; first_other(&mut Lapic::new(), *steps), None, "{table}");
    }
}
