// One timer: its registers, its deadline, and its expiry.
ghost use Rattle.std.specs.Prelude.{◌≡◌, ◌↔◌, true, ◌+◌, ◌*◌, ◌^◌, ◌-◌, ◌<◌, ◌≤◌, Option, Some, None, IsSome, IsTrue};
ghost use Rattle.stimer_bank.specs.Timer.{is_periodic, started, after_config, after_count, is_due, IsSoundTimer, IsRuled, mode_of, expired, once, catching_up, lazily, late, expiry_of, after_expiry};
ghost use Rattle.stimer_bank.specs.Bank.{idle_timer};
ghost use Rattle.stimer_bank.specs.Ranges.{IsTimer};

use crate::config::ConfigWord;
use bitflags::Flags;
use board_terms::{Moment, Sint, Vector};

/// How many missed periods a late periodic timer makes up one by one (profile).
const CATCHES_UP: u64 = 8;

/// The delivery mode of a timer (TLFS, "Direct Synthetic Timers").
#[derive(Clone, Copy, Debug)]
pub enum Mode {
    /// It requests a vector.
    Direct(Vector),
    /// It sends a message to a source.
    Posted(Sint),
}

/// The result of an expiry.
#[derive(Clone, Copy, Debug)]
pub struct Expiry {
    /// The deadline that is signalled, if any is.
    pub signal: Option<Moment>,
    /// How many deadlines are skipped without a signal.
    pub skipped: u64,
}

/// One timer.
#[derive(Clone, Copy)]
pub(crate) struct Timer {
    pub(crate) config: u64,
    pub(crate) count: u64,
    pub(crate) due: Option<u128>,
}

/// The deadline of a timer that is written at `moment`.
fn started(config: u64, count: u64, moment: Moment) -> Option<u128>
    ensures { result ≡ started config count moment }
{
    let word = ConfigWord::new(config);
    if !word.is_enabled() || count == 0 {
        None
    } else if word.is_periodic() {
        Some(moment as u128 + count as u128)
    } else {
        Some(count as u128)
    }
}

impl Timer {
    /// A timer that is not configured.
    pub(crate) fn idle() -> Timer
        ensures idle { result ≡ idle_timer }
        ensures sound { IsSoundTimer result }
    {
        Timer {
            config: 0,
            count: 0,
            due: None,
        }
    }

    /// Whether events can leave a timer so: `IsSoundTimer` has the list.
    pub(crate) fn is_sound(self) -> bool
        ensures { IsTrue result ↔ IsSoundTimer self }
    {
        let word = ConfigWord::new(self.config);
        if !word.is_stored() || word.normalized().bits() != self.config {
            return false;
        }
        let starts = word.is_enabled() && self.count > 0;
        let Some(due) = self.due else {
            return !starts;
        };
        let first = self.count as u128;
        starts
            && (if word.is_periodic() {
                first <= due
            } else {
                first == due
            })
    }

    /// What holds for the numbers of every timer. Does nothing.
    pub(crate) fn facts(self)
        ensures { IsTimer self }
    {}

    pub(crate) fn after_config(self, value: u64, moment: Moment) -> Timer
        ensures after { result ≡ after_config self value moment }
        ensures sound { IsSoundTimer result }
    {
        let config = ConfigWord::stored(value).normalized().bits();
        Timer {
            config,
            count: self.count,
            due: started(config, self.count, moment),
        }
    }

    pub(crate) fn after_count(self, value: u64, moment: Moment) -> Timer
        requires normalized { IsRuled self.config }
        ensures after { result ≡ after_count self value moment }
        ensures sound { IsSoundTimer result }
    {
        let config = ConfigWord::new(self.config).after_count(value).bits();
        Timer {
            config,
            count: value,
            due: started(config, value, moment),
        }
    }

    pub(crate) fn mode(self) -> Mode
        requires sound { IsSoundTimer self }
        requires running { IsSome self.due }
        ensures { result ≡ mode_of self.config }
    {
        let word = ConfigWord::new(self.config);
        if word.is_direct() {
            Mode::Direct(Vector::new(word.vector_number()).unwrap())
        } else {
            Mode::Posted(Sint::new(word.sint_number()).unwrap())
        }
    }

    /// How many periods late the timer is. Usually none, and then the division is avoided.
    fn missed(self, due: u64, moment: Moment) -> u64
        requires period { 0 < self.count }
        requires late { due ≤ moment }
        ensures { result ≡ late self.count due moment }
    {
        let behind = moment - due;
        if behind < self.count {
            return 0;
        }
        behind / self.count
    }

    /// The expiry at a time that has reached the deadline, and the next deadline.
    fn expiry(self, due: u64, moment: Moment) -> (Expiry, Option<u128>)
        requires period { 0 < self.count }
        requires late { due ≤ moment }
        requires grid { is_periodic self.config ≡ true → self.count ≤ due }
        ensures expiry { result.0 ≡ expiry_of (expired self due moment) }
        ensures next { result.1 ≡ (expired self due moment).next }
    {
        if !ConfigWord::new(self.config).is_periodic() {
            return expire_once(due);
        }
        let missed = self.missed(due, moment);
        if ConfigWord::new(self.config).is_lazy() {
            let last = due + missed * self.count;
            return expire_lazily(self.count, last, missed, moment);
        }
        catch_up(self.count, due, missed)
    }

    /// Expires the timer at a time. A periodic timer gets its next deadline, which is returned too.
    #[inline(always)]
    pub(crate) fn expire(&mut self, moment: Moment) -> (Expiry, Option<u128>)
        requires sound { IsSoundTimer self.old }
        requires is_due { IsTrue (is_due self.old moment) }
        ensures after { (self.new, result.0) ≡ after_expiry self.old moment }
        ensures due { result.1 ≡ self.new.due }
        ensures sound { IsSoundTimer self.new }
    {
        let due = self.due.unwrap() as u64;
        let (expiry, next) = self.expiry(due, moment);
        let word = ConfigWord::new(self.config);
        if !word.is_periodic() {
            self.config = word.disabled().bits();
        }
        self.due = next;
        (expiry, next)
    }
}

/// The expiry of a one-shot.
fn expire_once(due: u64) -> (Expiry, Option<u128>)
    ensures expiry { result.0 ≡ expiry_of (once due) }
    ensures next { result.1 ≡ (once due).next }
{
    let expiry = Expiry {
        signal: Some(due),
        skipped: 0,
    };
    (expiry, None)
}

/// The expiry of a periodic timer that missed some periods: it makes up at most eight, one by one.
fn catch_up(period: u64, due: u64, missed: u64) -> (Expiry, Option<u128>)
    requires { due + missed * period < 2 ^ 64 }
    ensures expiry { result.0 ≡ expiry_of (catching_up period due missed) }
    ensures next { result.1 ≡ (catching_up period due missed).next }
{
    if missed <= CATCHES_UP {
        let expiry = Expiry {
            signal: Some(due),
            skipped: 0,
        };
        return (expiry, Some(due as u128 + period as u128));
    }
    let expiry = Expiry {
        signal: Some(due),
        skipped: missed - CATCHES_UP,
    };
    let periods = (missed - CATCHES_UP + 1) as u128;
    (expiry, Some(due as u128 + period as u128 * periods))
}

/// The expiry of a lazy periodic timer: it signals its last deadline, unless the next one is near.
fn expire_lazily(period: u64, last: u64, missed: u64, moment: Moment) -> (Expiry, Option<u128>)
    requires late { last ≤ moment }
    requires near { moment < last + period }
    requires room { missed < 2 ^ 64 - 1 }
    ensures expiry { result.0 ≡ expiry_of (lazily period last missed moment) }
    ensures next { result.1 ≡ (lazily period last missed moment).next }
{
    let next = last as u128 + period as u128;
    if 4 * (next - moment as u128) <= period as u128 {
        let expiry = Expiry {
            signal: None,
            skipped: missed + 1,
        };
        return (expiry, Some(next));
    }
    let expiry = Expiry {
        signal: Some(last),
        skipped: missed,
    };
    (expiry, Some(next))
}
