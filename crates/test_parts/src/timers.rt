// Writing, suspending and resetting timers, and their expiries.
use crate::steps::{Other, Part, first_other};
use board_terms::{Moment, TimerId, Vp};
use std::alloc::{AllocError, Global};
use stimer_bank::{Mode, TimerBank};

/// A call of the bank. Timers are named by their numbers.
#[derive(Clone, Copy)]
pub(crate) enum Call {
    Config(u8, u64, Moment),
    Count(u8, u64, Moment),
    ReadConfig(u8),
    ReadCount(u8),
    IsDue(u8, Moment),
    Mode(u8, Moment),
    Expire(u8, Moment),
    Earliest,
    /// The timer at an index of the list of those that are due at a time.
    Due(usize, Moment),
    Suspend(u8),
    Resume(u8),
    Reset(u8),
    IsSuspended(u8),
}

#[derive(Clone, Copy, PartialEq, Debug)]
pub(crate) enum Answer {
    Done,
    Is(bool),
    Word(u64),
    Vector(u8),
    Source(u8),
    Timer(u8),
    First(u128, u8),
    Expired(Option<Moment>, u64),
    Nothing,
}

use Answer::{Done, Expired, First, Is, Nothing, Source, Timer, Vector, Word};
use Call::{Config, Count, Due, Earliest, Expire, IsDue, ReadConfig, ReadCount};

/// The signals of an expiry, and how many periods it skips.
fn expired(bank: &mut TimerBank, timer: TimerId, moment: Moment) -> Answer {
    // README stimer_bank: begin
    if !bank.is_due(timer, moment) {
        return Nothing;
    }
    let expiry = bank.expire(timer, moment);
    Expired(expiry.signal, expiry.skipped)
    // README stimer_bank: end
}

/// The vector or the source that a due timer signals.
fn answer_of(bank: &TimerBank, timer: TimerId, moment: Moment) -> Answer {
    if !bank.is_due(timer, moment) {
        return Nothing;
    }
    match bank.mode(timer) {
        Mode::Direct(vector) => Vector(vector.number()),
        Mode::Posted(sint) => Source(sint.number()),
    }
}

fn earliest(bank: &TimerBank) -> Answer {
    match bank.earliest() {
        Some((due, timer)) => First(due, timer.number()),
        None => Nothing,
    }
}

fn due_at(bank: &TimerBank, place: usize, moment: Moment) -> Answer {
    match bank.due_list(moment).get(place) {
        Some(timer) => Timer(timer.number()),
        None => Nothing,
    }
}

/// A call that changes or queries a processor.
fn ask_processor(bank: &mut TimerBank, call: Call) -> Option<Answer> {
    match call {
        Call::Suspend(vp) => bank.suspend(Vp::new(vp)?),
        Call::Resume(vp) => bank.resume(Vp::new(vp)?),
        Call::Reset(vp) => bank.reset(Vp::new(vp)?),
        Call::IsSuspended(vp) => return Some(Is(bank.is_suspended(Vp::new(vp)?))),
        _ => return None,
    }
    Some(Done)
}

impl Part for TimerBank {
    type Call = Call;

    type Answer = Answer;

    fn ask(&mut self, call: Call) -> Option<Answer> {
        Some(match call {
            Config(number, value, moment) => {
                self.write_config(TimerId::from_number(number)?, value, moment);
                Done
            }
            Count(number, value, moment) => {
                self.write_count(TimerId::from_number(number)?, value, moment);
                Done
            }
            ReadConfig(number) => Word(self.read_config(TimerId::from_number(number)?)),
            ReadCount(number) => Word(self.read_count(TimerId::from_number(number)?)),
            IsDue(number, moment) => Is(self.is_due(TimerId::from_number(number)?, moment)),
            Call::Mode(number, moment) => answer_of(self, TimerId::from_number(number)?, moment),
            Expire(number, moment) => expired(self, TimerId::from_number(number)?, moment),
            Earliest => earliest(self),
            Due(place, moment) => due_at(self, place, moment),
            call => return ask_processor(self, call),
        })
    }
}

/// A timer with period 10 and vector 64, started at 100. At most eight periods are made up.
const A_LATE_PERIODIC_TIMER: [(Call, Answer); 17] = [
    // README stimer_bank: begin
    (Count(0, 10, 100), Done),
    (Config(0, 0x1403, 100), Done),
    (Earliest, First(110, 0)),
    (IsDue(0, 109), Is(false)),
    (Expire(0, 109), Nothing),
    (Expire(0, 199), Expired(Some(110), 0)),
    (Earliest, First(120, 0)),
    (Count(0, 10, 100), Done),
    (Earliest, First(110, 0)),
    (Expire(0, 200), Expired(Some(110), 1)),
    (Earliest, First(130, 0)),
    (Config(0, 0x1403, 100), Done),
    (Earliest, First(110, 0)),
    (Expire(0, 235), Expired(Some(110), 4)),
    (Earliest, First(160, 0)),
    (ReadConfig(0), Word(0x1403)),
    (ReadCount(0), Word(10)),
    // README stimer_bank: end
];

/// The same timer, but lazy: it signals the latest period, or none if the next one is near.
const A_LAZY_TIMER: [(Call, Answer); 7] = [
    (Count(0, 10, 100), Done),
    (Config(0, 0x1407, 100), Done),
    (Expire(0, 235), Expired(Some(230), 12)),
    (Earliest, First(240, 0)),
    (Config(0, 0x1407, 100), Done),
    (Expire(0, 238), Expired(None, 13)),
    (Earliest, First(240, 0)),
];

/// AutoEnable sets Enabled when a count is written, and a count of 0 clears it. A direct vector
/// below 16 cannot be enabled, nor can source 0.
const REGISTERS: [(Call, Answer); 14] = [
    (Config(0, 0x1408, 0), Done),
    (Earliest, Nothing),
    (Count(0, 10, 0), Done),
    (ReadConfig(0), Word(0x1409)),
    (ReadCount(0), Word(10)),
    (Earliest, First(10, 0)),
    (Count(0, 0, 0), Done),
    (ReadConfig(0), Word(0x1408)),
    (Earliest, Nothing),
    (Config(0, 0x10f1, 0), Done),
    (ReadConfig(0), Word(0x10f0)),
    (Config(0, 1, 0), Done),
    (ReadConfig(0), Word(0)),
    (ReadConfig(255), Word(0)),
];

/// The greatest count from the greatest time; and the timers due at a time, by deadline and then by
/// number.
const ORDER: [(Call, Answer); 18] = [
    (Count(255, u64::MAX, u64::MAX), Done),
    (Config(255, 0x1403, u64::MAX), Done),
    (Earliest, First(36893488147419103230, 255)),
    (Count(0, 7, u64::MAX), Done),
    (Config(0, 0x2_0001, u64::MAX), Done),
    (Due(0, u64::MAX), Timer(0)),
    (Due(1, u64::MAX), Nothing),
    (Count(255, 7, 0), Done),
    (Config(255, 0x1401, 0), Done),
    (Due(0, 7), Timer(0)),
    (Due(1, 7), Timer(255)),
    (Due(2, 7), Nothing),
    (Due(0, 6), Nothing),
    (Count(255, 6, 0), Done),
    (Due(0, 7), Timer(255)),
    (Due(1, 7), Timer(0)),
    (Due(2, 7), Nothing),
    (Earliest, First(6, 255)),
];

/// A timer in direct mode signals a vector, any other a source. A one-shot that has expired is
/// disabled.
const THE_TARGET_OF_A_TIMER: [(Call, Answer); 10] = [
    (Count(0, 7, 0), Done),
    (Config(0, 0x1401, 0), Done),
    (Call::Mode(0, 6), Nothing),
    (Call::Mode(0, 7), Vector(64)),
    (Config(0, 0x2_0001, 0), Done),
    (Call::Mode(0, 7), Source(2)),
    (Expire(0, 7), Expired(Some(7), 0)),
    (ReadConfig(0), Word(0x2_0000)),
    (ReadCount(0), Word(7)),
    (Earliest, Nothing),
];

/// Timers 4 and 7 of processor 1, and timer 8 of processor 2. A timer that is written during the
/// suspension is stored, but hidden.
const A_SUSPENDED_PROCESSOR: [(Call, Answer); 25] = [
    (Count(4, 7, 0), Done),
    (Config(4, 0x1401, 0), Done),
    (Count(8, 9, 0), Done),
    (Config(8, 0x1401, 0), Done),
    (Call::Suspend(1), Done),
    (Call::IsSuspended(1), Is(true)),
    (Call::IsSuspended(2), Is(false)),
    (Earliest, First(9, 8)),
    (Due(0, 9), Timer(8)),
    (Due(1, 9), Nothing),
    (IsDue(4, 9), Is(false)),
    (IsDue(8, 9), Is(true)),
    (Count(7, 5, 0), Done),
    (Config(7, 0x1401, 0), Done),
    (ReadConfig(7), Word(0x1401)),
    (Earliest, First(9, 8)),
    (Due(1, 9), Nothing),
    (Call::Resume(1), Done),
    (Call::IsSuspended(1), Is(false)),
    (Earliest, First(5, 7)),
    (Due(0, 9), Timer(7)),
    (Due(1, 9), Timer(4)),
    (Due(2, 9), Timer(8)),
    (Due(3, 9), Nothing),
    (Expire(4, 9), Expired(Some(7), 0)),
];

const A_PROCESSOR_THAT_IS_RESET: [(Call, Answer); 13] = [
    (Count(7, 5, 0), Done),
    (Config(7, 0x1401, 0), Done),
    (Count(8, 9, 0), Done),
    (Config(8, 0x1401, 0), Done),
    (Call::Suspend(1), Done),
    (Call::Reset(1), Done),
    (Call::IsSuspended(1), Is(false)),
    (ReadConfig(7), Word(0)),
    (ReadCount(7), Word(0)),
    (Earliest, First(9, 8)),
    (Due(0, 9), Timer(8)),
    (Due(1, 9), Nothing),
    (IsDue(7, 9), Is(false)),
];

const TABLES: [(&str, &[(Call, Answer)]); 7] = [
    (
        "a late periodic timer makes up eight periods",
        &A_LATE_PERIODIC_TIMER,
    ),
    ("a lazy timer reports the latest period", &A_LAZY_TIMER),
    ("what registers keep", &REGISTERS),
    ("who is due first", &ORDER),
    ("the target of a timer", &THE_TARGET_OF_A_TIMER),
    (
        "a suspended processor hides its timers",
        &A_SUSPENDED_PROCESSOR,
    ),
    (
        "a processor that is reset has idle timers",
        &A_PROCESSOR_THAT_IS_RESET,
    ),
];

/// The first step at which a new bank gives another answer.
fn other(alloc: Global, steps: &[(Call, Answer)]) -> Result<Option<Other<Answer>>, AllocError> {
    Ok(first_other(&mut TimerBank::open(alloc, 64)?, steps))
}

#[test]
fn each_table_is_answered(rt: HostRuntime) {
    for (table, steps) in &TABLES {
        assert_eq!(rt; other(rt.alloc(), *steps), Ok(None), "{table}");
    }
}
