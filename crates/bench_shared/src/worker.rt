// What a thread owns, and what it does.
use board_terms::{Moment, Notices, Vector};
use shared_board::{Actor, SharedBoard, Sharing};
use std::sync::Wait;
use std::thread::{Threads, join};
use synic_board::msr::EOI;
use synic_board::{Event, Reply};

/// The asserted vector.
const ASSERTED: u8 = 0x60;

/// The actor of a thread, its buffer for notices, and how many interrupts it took.
#[derive(Drop)]
pub(crate) struct Worker<S: Sharing> {
    pub(crate) actor: Actor<S>,
    pub(crate) notices: Notices,
    pub(crate) counted: u64,
}

/// Performs events.
#[inline(never)]
pub(crate) fn perform_calls<S: Sharing, R: Wait>(
    rt: &R,
    shared: &SharedBoard<S>,
    calls: u32,
    mut worker: Worker<S>,
) -> Worker<S> {
    for turn in 0..calls {
        let reply = shared.perform(rt, &mut worker.actor, &event_at(turn), &mut worker.notices);
        if matches!(reply, Reply::Taken(Some(_))) {
            worker.counted = worker.counted.wrapping_add(1);
        }
    }
    worker
}

/// Two threads at once.
pub(crate) fn two<S: Sharing + Send + Sync, R: Threads + Wait + Sync>(
    rt: &R,
    shared: &SharedBoard<S>,
    calls: u32,
    workers: (Worker<S>, Worker<S>),
) -> (Worker<S>, Worker<S>) {
    let (first, second) = workers;
    join(
        rt,
        move || perform_calls(rt, shared, calls, first),
        move || perform_calls(rt, shared, calls, second),
    )
}

/// The event of a turn: an assert, a take, an EOI and a tick, on one processor after another.
pub(crate) fn event_at(turn: u32) -> Event {
    let vp = (turn / 4 % 8) as u8;
    match turn % 4 {
        0 => Event::Assert {
            vp,
            vector: Vector::new(ASSERTED).unwrap(),
        },
        1 => Event::Take { vp },
        2 => Event::Write {
            vp,
            register: EOI,
            value: 0,
        },
        _ => Event::Tick {
            moment: turn as Moment,
        },
    }
}
