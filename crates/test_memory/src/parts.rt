// The parts of a board that allocate.
use crate::stopped::{Stopped, ended};
use board_terms::{Owner, Sint, Vp};
use gpa_space::Space;
use message_queues::Queues;
use std::alloc::Global;
use stimer_bank::TimerBank;

pub(crate) fn space(alloc: Global) -> Result<bool, Stopped> {
    let space = Space::open(alloc, 8, 64)?;
    let owners = (space.owner(63), space.owner(64));
    let is_empty = space.sim(Vp::new(7).unwrap()).iter().all(|byte| *byte == 0);
    ended(owners == (Owner::Guest, Owner::Nothing) && is_empty)
}

pub(crate) fn queues(alloc: Global) -> Result<bool, Stopped> {
    let queues = Queues::open(alloc, 8)?;
    let count = queues.count(Vp::new(7).unwrap(), Sint::new(15).unwrap());
    ended(count == 0 && queues.port_used(15) == 0)
}

pub(crate) fn timers(alloc: Global) -> Result<bool, Stopped> {
    let timers = TimerBank::open(alloc, 8)?;
    ended(timers.earliest().is_none() && !timers.is_suspended(Vp::new(7).unwrap()))
}
