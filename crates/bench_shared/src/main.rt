//! `bench_shared`: measures the cost of a call of a shared board of which nothing is recorded, and of
//! a poll without the lock.
#![tactic(auto)]

mod measure;
mod watched;
mod worker;

use crate::measure::{Measured, measure};
use crate::watched::measure_watched;
use bench_cli::{Asked, Fault, Program};
use std::process::ExitCode;
use std::sync::Wait;
use std::thread::Threads;

const OUTPUT: &str = "\
Standard output: each workload, the calls of a thread, those of all threads, and where there is
one thread, how many interrupts were taken or polls found a vector.
Standard error: each workload, the calls of a thread, and nanoseconds a call, by the time in
which all threads made theirs.";

/// What a workload measures.
#[derive(Clone, Copy)]
enum Workload {
    /// Calls of that many threads on a shared board.
    Calls(u8),
    /// Calls of one thread on a watched board.
    WatchedCalls,
    /// Polls of one thread of a watched board.
    Polls,
}

/// The names of the workloads.
const WORKLOADS: [(&str, Workload); 5] = [
    ("share-1", Workload::Calls(1)),
    ("share-2", Workload::Calls(2)),
    ("share-4", Workload::Calls(4)),
    ("watch-1", Workload::WatchedCalls),
    ("poll-1", Workload::Polls),
];

fn main(rt: HostRuntime) -> ExitCode {
    match run(&rt, &rt) {
        Ok(code) => code,
        Err(fault) => {
            // A failure to print the message changes no status.
            let _ = eprintln!(rt; "bench_shared: {fault}");
            ExitCode::from(fault.status())
        }
    }
}

/// Runs what the command line selects.
fn run<R: Threads + Wait + Sync>(rt: &HostRuntime, threads: &R) -> Result<ExitCode, Fault> {
    let names = WORKLOADS.map(|workload| workload.0);
    let program = Program {
        name: "bench_shared",
        about: "Runs threads on a shared board, and reports what a call costs",
        workloads: names.as_slice(),
        unit: "calls",
        unit_help: "How many calls each thread makes [default: 40000]",
        bound: 40_000,
        output: OUTPUT,
    };
    let (chosen, calls) = match program.asked(rt)? {
        Asked::Nothing(code) => return Ok(code),
        Asked::Measurements(chosen, calls) => (chosen, calls),
    };
    for (place, (name, workload)) in WORKLOADS.iter().enumerate() {
        if chosen.is_none_or(|chosen| chosen == place) {
            show(rt, threads, name, *workload, calls)?;
        }
    }
    Ok(ExitCode::SUCCESS)
}

/// Measures a workload and prints the result: what is the same in each run to standard output, the
/// time to standard error.
fn show<R: Threads + Wait + Sync>(
    rt: &HostRuntime,
    threads: &R,
    name: &str,
    workload: Workload,
    calls: u32,
) -> Result<(), Fault> {
    let measured = measured(rt, threads, workload, calls)?;
    let counted = measured.counted;
    match workload {
        Workload::Calls(count) if count > 1 => {
            let all = calls as u64 * count as u64;
            println!(rt; "{name} {calls} calls {all} in all")?;
        }
        Workload::Polls => println!(rt; "{name} {calls} calls {calls} in all {counted} found")?,
        _ => println!(rt; "{name} {calls} calls {calls} in all {counted} taken")?,
    }
    let (whole, tenth) = measured.time_per_call(calls);
    eprintln!(rt; "{name} {calls} calls {whole}.{tenth} ns a call")?;
    Ok(())
}

fn measured<R: Threads + Wait + Sync>(
    rt: &HostRuntime,
    threads: &R,
    workload: Workload,
    calls: u32,
) -> Result<Measured, Fault> {
    match workload {
        Workload::Calls(count) => measure(rt, threads, count, calls),
        Workload::WatchedCalls => measure_watched(rt, threads, false, calls),
        Workload::Polls => measure_watched(rt, threads, true, calls),
    }
}
