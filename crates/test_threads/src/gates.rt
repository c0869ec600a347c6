// A gate that watches, one that has a call looked at before its worker continues, and one at which
// the workers meet.
ghost use Rattle.std.specs.Prelude.{◌<◌};

use board_threads::{Gate, Worker};
use std::sync::{Mutex, Wait};
use std::thread::yield_now;

/// What a gate has observed. Actors are indexed by their numbers, lines from 16 on.
#[derive(Clone, Copy)]
struct Seen {
    entered: [u64; 32],
    left: [u64; 32],
    out_of_turn: bool,
}

/// Checks that each worker's calls are sequential and numbered from 0, and counts them.
#[derive(Drop)]
pub(crate) struct Watch {
    seen: Mutex<Seen>,
}

impl Watch {
    pub(crate) fn new() -> Watch {
        Watch {
            seen: Mutex::new(Seen {
                entered: [0; 32],
                left: [0; 32],
                out_of_turn: false,
            }),
        }
    }

    /// How many calls of a worker have left the gate.
    pub(crate) fn count<R: Wait>(&self, rt: &R, who: Worker) -> u64 {
        self.seen.lock(rt).left[place_of(who)]
    }

    /// How many calls of all workers have entered it.
    pub(crate) fn count_all<R: Wait>(&self, rt: &R) -> u64 {
        let mut all = 0u64;
        for count in self.seen.lock(rt).entered {
            all = all.saturating_add(count);
        }
        all
    }

    /// Whether a call was out of order.
    pub(crate) fn is_out_of_turn<R: Wait>(&self, rt: &R) -> bool {
        self.seen.lock(rt).out_of_turn
    }
}

fn place_of(who: Worker) -> usize
    ensures { result < 32 }
{
    match who {
        Worker::Acts(number) => usize::from(number % 16),
        Worker::Raises(number) => 16 + usize::from(number % 16),
    }
}

impl Gate for Watch {
    fn enter<R: Wait>(&self, rt: &R, who: Worker, call: u64) {
        let place = place_of(who);
        let mut guard = self.seen.lock(rt);
        let seen = &mut *guard;
        seen.out_of_turn |= seen.entered[place] != call || seen.left[place] != call;
        seen.entered[place] = call.saturating_add(1);
    }

    fn leave<R: Wait>(&self, rt: &R, who: Worker, call: u64) {
        let place = place_of(who);
        let mut guard = self.seen.lock(rt);
        let seen = &mut *guard;
        let next = call.saturating_add(1);
        seen.out_of_turn |= seen.entered[place] != next || seen.left[place] != call;
        seen.left[place] = next;
    }
}

/// How often a waiting worker polls before it gives up.
const TURNS: u32 = 50_000_000;

/// Lets actor 2 make its first call while `first` is in `leave` of its own first call. Actor 2 has
/// made it when it enters its second call, and only then does that `leave` return.
#[derive(Drop)]
pub(crate) struct Look {
    first: Worker,
    has_left: Mutex<bool>,
    has_looked: Mutex<bool>,
    given_up: Mutex<bool>,
}

impl Look {
    pub(crate) fn at(first: Worker) -> Look {
        Look {
            first,
            has_left: Mutex::new(false),
            has_looked: Mutex::new(false),
            given_up: Mutex::new(false),
        }
    }

    /// Whether a worker gave up before the other one had reached its place.
    pub(crate) fn has_given_up<R: Wait>(&self, rt: &R) -> bool {
        *self.given_up.lock(rt)
    }

    fn wait<R: Wait>(&self, rt: &R, reached: &Mutex<bool>) {
        for _ in 0..TURNS {
            if *reached.lock(rt) {
                return;
            }
            yield_now();
        }
        *self.given_up.lock(rt) = true;
    }
}

impl Gate for Look {
    fn enter<R: Wait>(&self, rt: &R, who: Worker, call: u64) {
        if who != Worker::Acts(2) {
            return;
        }
        if call == 0 {
            self.wait(rt, &self.has_left);
        } else {
            *self.has_looked.lock(rt) = true;
        }
    }

    fn leave<R: Wait>(&self, rt: &R, who: Worker, call: u64) {
        if who == self.first && call == 0 {
            *self.has_left.lock(rt) = true;
            self.wait(rt, &self.has_looked);
        }
    }
}

/// Holds the first call of each worker until `count` workers have entered theirs.
#[derive(Drop)]
pub(crate) struct Meet {
    count: u64,
    entered: Mutex<u64>,
    given_up: Mutex<bool>,
}

impl Meet {
    pub(crate) fn of(count: u64) -> Meet {
        Meet {
            count,
            entered: Mutex::new(0),
            given_up: Mutex::new(false),
        }
    }

    /// Whether a worker gave up before all had entered.
    pub(crate) fn has_given_up<R: Wait>(&self, rt: &R) -> bool {
        *self.given_up.lock(rt)
    }

    fn count_one<R: Wait>(&self, rt: &R) {
        let mut guard = self.entered.lock(rt);
        let entered = &mut *guard;
        *entered = entered.saturating_add(1);
    }
}

impl Gate for Meet {
    fn enter<R: Wait>(&self, rt: &R, _: Worker, call: u64) {
        if call != 0 {
            return;
        }
        self.count_one(rt);
        for _ in 0..TURNS {
            if *self.entered.lock(rt) >= self.count || self.has_given_up(rt) {
                return;
            }
            yield_now();
        }
        *self.given_up.lock(rt) = true;
    }

    fn leave<R: Wait>(&self, _: &R, _: Worker, _: u64) {}
}
