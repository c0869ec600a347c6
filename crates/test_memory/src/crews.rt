// A crew.
use crate::stopped::{Stopped, ended};
use board_terms::{Vector, Vp};
use board_threads::{OpenGate, Scripts, Setup, Step, run_crew};
use std::alloc::{AllocError, Global};
use std::sync::Wait;
use std::thread::Threads;
use synic_board::Event;

/// One processor, and one tick.
fn one_tick(alloc: Global) -> Result<Setup, AllocError> {
    Ok(Setup {
        processors: 1,
        pages: 1,
        first_ticket: 0,
        events: Vec::from_array(alloc, [Event::Tick { moment: 3 }])?,
    })
}

/// Two actors and two lines of two steps each.
fn two_of_each(alloc: Global) -> Result<Scripts, AllocError> {
    let (vp, vector) = (Vp::new(0).unwrap(), Vector::new(0x60).unwrap());
    let mut scripts = Scripts {
        actors: Vec::new(alloc),
        lines: Vec::new(alloc),
    };
    for _ in 0..2 {
        let take = Step::Act(Event::Take { vp: 0 });
        let steps = Vec::from_array(alloc, [take, Step::Sweep { vp: 0, part: 1 }])?;
        scripts.actors.push(steps)?;
        let raises = Vec::from_array(alloc, [(vp, vector), (vp, vector)])?;
        scripts.lines.push(raises)?;
    }
    Ok(scripts)
}

pub(crate) fn crewed<R: Threads + Wait + Sync>(rt: &R, alloc: Global) -> Result<bool, Stopped> {
    let (setup, scripts) = (one_tick(alloc)?, two_of_each(alloc)?);
    let end = run_crew(rt, alloc, &setup, &scripts, &OpenGate)?;
    let are_raised = end.raised.len() == 2 && end.raised.iter().all(|answers| answers.len() == 2);
    ended(end.ended.history.len() == 9 && end.ended.board.moment() == 3 && are_raised)
}
