// Crews of lines only.
use crate::gates::{Meet, Watch};
use crate::scripts::{only_lines, with_port};
use board_threads::{Gate, Worker, run_crew};
use std::alloc::Global;
use std::sync::Wait;
use std::test::Fail;
use std::thread::Threads;

/// Runs three lines and no actor.
fn run<R: Threads + Wait + Sync, G: Gate + Sync>(
    rt: &R,
    alloc: Global,
    gate: &G,
) -> Result<(), Fail> {
    let (setup, scripts) = (with_port(alloc)?, only_lines(alloc)?);
    match run_crew(rt, alloc, &setup, &scripts, gate) {
        Ok(_) => Ok(()),
        Err(fault) => Err(Fail::from(fault)),
    }
}

#[test]
fn the_gate_sees_each_line_where_there_is_no_actor(rt: HostRuntime) -> Result<(), Fail> {
    let gate = Watch::new();
    run(&rt, rt.alloc(), &gate)?;
    for (line, calls) in [(0, 2), (1, 1), (2, 1)] {
        assert_eq!(rt; gate.count(&rt, Worker::Raises(line)), calls);
    }
    assert!(rt; !gate.is_out_of_turn(&rt));
    Ok(())
}

#[test]
fn lines_run_side_by_side_where_there_is_no_actor(rt: HostRuntime) -> Result<(), Fail> {
    let gate = Meet::of(3);
    run(&rt, rt.alloc(), &gate)?;
    assert!(rt; !gate.has_given_up(&rt));
    Ok(())
}
