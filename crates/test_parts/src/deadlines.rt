// A tree of deadlines with a few timers, with all 256, and for three processors.
ghost use Rattle.std.specs.Prelude.{◌≤◌};

use crate::steps::{Other, Part, first_other};
use board_terms::{Moment, TimerId, Vp};
use deadline_tree::DeadlineTree;
use std::alloc::{AllocError, Global};

/// A call of the tree. Timers are named by their numbers.
#[derive(Clone, Copy)]
pub(crate) enum Call {
    Set(u8, u128),
    Clear(u8),
    ClearProcessor(u8),
    SetAll,
    Least,
    DueOf(u8),
    HasDue(u8, Moment),
}

#[derive(Clone, Copy, PartialEq, Debug)]
pub(crate) enum Answer {
    Done,
    Due(u128),
    First(u128, u8),
    Is(bool),
    Never,
}

use Answer::{Done, Due, First, Is, Never};
use Call::{Clear, ClearProcessor, DueOf, HasDue, Least, Set, SetAll};

/// Sets each timer to ten times its number, the last timer first, so that each moves to the front.
fn set_all(tree: &mut DeadlineTree) {
    for timer in (0..=u8::MAX).rev().filter_map(TimerId::from_number) {
        tree.set(timer, 10 * timer.number() as u128);
    }
}

impl Part for DeadlineTree {
    type Call = Call;

    type Answer = Answer;

    fn ask(&mut self, call: Call) -> Option<Answer> {
        // README deadline_tree: begin
        Some(match call {
            Set(number, due) => {
                self.set(TimerId::from_number(number)?, due);
                Done
            }
            Clear(number) => {
                self.clear(TimerId::from_number(number)?);
                Done
            }
            ClearProcessor(number) => {
                self.clear_processor(Vp::new(number)?);
                Done
            }
            SetAll => {
                set_all(self);
                Done
            }
            Least => match self.least() {
                Some((due, timer)) => First(due, timer.number()),
                None => Never,
            },
            DueOf(number) => match self.due_of(TimerId::from_number(number)?) {
                Some(due) => Due(due),
                None => Never,
            },
            HasDue(number, moment) => Is(self.has_due(Vp::new(number)?, moment)),
        })
        // README deadline_tree: end
    }
}

/// A single entry, the last timer with a deadline beyond 64 bits.
const AN_ENTRY_ALONE: [(Call, Answer); 13] = [
    (Least, Never),
    (Clear(255), Done),
    (ClearProcessor(63), Done),
    (Set(255, 7), Done),
    (Set(255, 36893488147419103230), Done),
    (DueOf(255), Due(36893488147419103230)),
    (Least, First(36893488147419103230, 255)),
    (Set(255, 5), Done),
    (Least, First(5, 255)),
    (ClearProcessor(62), Done),
    (Clear(255), Done),
    (Least, Never),
    (DueOf(255), Never),
];

/// Of equal deadlines the least number comes first.
const EQUALS: [(Call, Answer); 10] = [
    // README deadline_tree: begin
    (Set(9, 5), Done),
    (Set(7, 5), Done),
    (Set(8, 5), Done),
    (Least, First(5, 7)),
    (Clear(7), Done),
    (Least, First(5, 8)),
    (Set(8, 6), Done),
    (Least, First(5, 9)),
    (Set(7, 5), Done),
    (Least, First(5, 7)),
    // README deadline_tree: end
];

const A_FULL_TREE: [(Call, Answer); 14] = [
    (SetAll, Done),
    (Least, First(0, 0)),
    (DueOf(255), Due(2550)),
    (Set(255, 0), Done),
    (Least, First(0, 0)),
    (Set(0, u128::MAX), Done),
    (Least, First(0, 255)),
    (Set(16, 160), Done),
    (Clear(255), Done),
    (Least, First(10, 1)),
    (ClearProcessor(0), Done),
    (Least, First(40, 4)),
    (ClearProcessor(1), Done),
    (Least, First(80, 8)),
];

/// A tree for three processors: a timer of any other one has no deadline.
const THREE_PROCESSORS: [(Call, Answer); 15] = [
    (SetAll, Done),
    (Least, First(0, 0)),
    (DueOf(11), Due(110)),
    (DueOf(12), Never),
    (ClearProcessor(0), Done),
    (Least, First(40, 4)),
    (ClearProcessor(3), Done),
    (Set(12, 1), Done),
    (Clear(12), Done),
    (Least, First(40, 4)),
    (Set(11, 36028797018963968), Done),
    (ClearProcessor(1), Done),
    (Clear(8), Done),
    (Set(9, u128::MAX), Done),
    (Least, First(100, 10)),
];

/// Deadlines from 2^55 on are compared one by one.
const LATE: [(Call, Answer); 14] = [
    (Set(3, 36028797018963968), Done),
    (Least, First(36028797018963968, 3)),
    (HasDue(0, 36028797018963967), Is(false)),
    (HasDue(0, 36028797018963968), Is(true)),
    (Set(1, 36028797018963969), Done),
    (Set(2, 36028797018963968), Done),
    (Least, First(36028797018963968, 2)),
    (Set(11, 36028797018963967), Done),
    (Least, First(36028797018963967, 11)),
    (HasDue(2, 36028797018963966), Is(false)),
    (HasDue(2, 36028797018963967), Is(true)),
    (HasDue(1, u64::MAX), Is(false)),
    (HasDue(3, u64::MAX), Is(false)),
    (DueOf(1), Due(36028797018963969)),
];

/// The first step at which a new tree gives another answer.
fn other(
    alloc: Global,
    processors: u8,
    steps: &[(Call, Answer)],
) -> Result<Option<Other<Answer>>, AllocError>
    requires some { 1 ≤ processors }
    requires bound { processors ≤ 64 }
{
    Ok(first_other(&mut DeadlineTree::open(alloc, processors)?, steps))
}

const TABLES: [(&str, &[(Call, Answer)]); 3] = [
    ("an entry alone", &AN_ENTRY_ALONE),
    ("equals", &EQUALS),
    ("a full tree", &A_FULL_TREE),
];

const SMALL: [(&str, &[(Call, Answer)]); 2] = [
    ("three processors", &THREE_PROCESSORS),
    ("late deadlines", &LATE),
];

#[test]
fn each_table_is_answered(rt: HostRuntime) {
    for (table, steps) in &TABLES {
        assert_eq!(rt; other(rt.alloc(), 64, *steps), Ok(None), "{table}");
    }
    for (table, steps) in &SMALL {
        assert_eq!(rt; other(rt.alloc(), 3, *steps), Ok(None), "{table}");
    }
}
