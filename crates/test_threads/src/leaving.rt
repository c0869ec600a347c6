// A worker leaves the gate after its call.
use crate::gates::Look;
use crate::scripts::{post_look_and_raise, with_port};
use board_threads::{Worker, run_crew};
use std::alloc::Global;
use std::sync::Wait;
use std::test::Fail;
use std::thread::Threads;
use synic_board::{Entry, Event};

/// Whether the first entry of actor 2, an absorb, comes after one of actor 1, if that one is
/// looked at, or has the bit of vector 0x60, if the line is.
fn is_seen(history: &[Entry], looked_at: Worker) -> bool {
    let mut has_posted = false;
    for entry in history {
        if entry.actor == 1 {
            has_posted = true;
        }
        if entry.actor == 2 {
            return match (looked_at, &entry.event) {
                (Worker::Acts(_), _) => has_posted,
                (Worker::Raises(_), Event::Absorb { bits, .. }) => *bits == 1 << 32,
                _ => false,
            };
        }
    }
    false
}

/// Whether actor 2 sees the first call of a worker that is in `leave` of it.
fn sees<R: Threads + Wait + Sync>(rt: &R, alloc: Global, first: Worker) -> Result<bool, Fail> {
    let gate = Look::at(first);
    let (setup, scripts) = (with_port(alloc)?, post_look_and_raise(alloc)?);
    match run_crew(rt, alloc, &setup, &scripts, &gate) {
        Ok(end) => Ok(!gate.has_given_up(rt) && is_seen(end.ended.history.as_slice(), first)),
        Err(fault) => Err(Fail::from(fault)),
    }
}

#[test]
fn a_worker_leaves_the_gate_after_its_call(rt: HostRuntime) -> Result<(), Fail> {
    for first in [Worker::Acts(1), Worker::Raises(0)] {
        assert!(rt; sees(&rt, rt.alloc(), first)?, "{first:?}");
    }
    Ok(())
}
