// A gate that holds a worker.
use board_threads::{Gate, Worker};
use std::sync::{Mutex, Wait};
use std::thread::yield_now;

/// How often a held worker polls before it gives up.
const TURNS: u32 = 50_000_000;

/// Holds the first call of one worker until the others have finished that many calls.
#[derive(Drop)]
pub(crate) struct Hold {
    held: Worker,
    until: u64,
    left: Mutex<u64>,
    given_up: Mutex<bool>,
}

impl Hold {
    pub(crate) fn of(held: Worker, until: u64) -> Hold {
        Hold {
            held,
            until,
            left: Mutex::new(0),
            given_up: Mutex::new(false),
        }
    }

    /// Whether the worker gave up before the others had finished.
    pub(crate) fn has_given_up<R: Wait>(&self, rt: &R) -> bool {
        *self.given_up.lock(rt)
    }
}

impl Gate for Hold {
    fn enter<R: Wait>(&self, rt: &R, who: Worker, call: u64) {
        if who != self.held || call != 0 {
            return;
        }
        for _ in 0..TURNS {
            if *self.left.lock(rt) >= self.until {
                return;
            }
            yield_now();
        }
        *self.given_up.lock(rt) = true;
    }

    fn leave<R: Wait>(&self, rt: &R, who: Worker, _: u64) {
        if who != self.held {
            let mut left = self.left.lock(rt);
            *left = left.saturating_add(1);
        }
    }
}
