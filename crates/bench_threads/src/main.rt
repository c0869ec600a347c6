//! `bench_threads`: measures the cost of a call of a shared board, inside one process.
#![tactic(auto)]

mod faults;
mod measure;
mod worker;
mod workers;
mod workload;

use crate::faults::Fault;
use crate::measure::measure;
use crate::workload::{Job, ThreadCount, Workload};
use bench_cli::{Asked, Program};
use std::process::ExitCode;
use std::sync::Wait;
use std::thread::Threads;

const OUTPUT: &str = "\
Standard output: each workload, the calls of a thread, those of all threads, and where there is
one thread, how many of them counted: raises that were fresh, or interrupts that were taken.
Standard error: each workload, the calls of a thread, and nanoseconds a call, by the time in
which all threads made theirs.";

fn main(rt: HostRuntime) -> ExitCode {
    match run(&rt, &rt) {
        Ok(code) => code,
        Err(fault) => {
            // A failure to print the message changes no status.
            let _ = eprintln!(rt; "bench_threads: {fault}");
            ExitCode::from(fault.status())
        }
    }
}

/// Runs what the command line selects.
fn run<R: Threads + Wait + Sync>(rt: &HostRuntime, threads: &R) -> Result<ExitCode, Fault> {
    let names = Workload::ALL.map(|workload| workload.name());
    let program = Program {
        name: "bench_threads",
        about: "Runs threads on a shared board, and reports what a call costs",
        workloads: names.as_slice(),
        unit: "calls",
        unit_help: "How many calls each thread makes [default: 40000]",
        bound: 40_000,
        output: OUTPUT,
    };
    let (chosen, calls) = match program.asked(rt)? {
        Asked::Nothing(code) => return Ok(code),
        Asked::Measurements(chosen, calls) => (chosen, calls),
    };
    for (place, workload) in Workload::ALL.iter().enumerate() {
        if chosen.is_none_or(|chosen| chosen == place) {
            show(rt, threads, *workload, calls)?;
        }
    }
    Ok(ExitCode::SUCCESS)
}

/// Measures a workload and prints the result: what is the same in each run to standard output, the
/// time to standard error.
fn show<R: Threads + Wait + Sync>(
    rt: &HostRuntime,
    threads: &R,
    workload: Workload,
    calls: u32,
) -> Result<(), Fault> {
    let name = workload.name();
    let measured = measure(rt, threads, workload, calls)?;
    let all = calls as u64 * workload.threads.number() as u64;
    let counted = measured.counted;
    match (workload.threads, workload.job) {
        (ThreadCount::One, Job::Raise) => println!(rt;
            "{name} {calls} calls {all} in all {counted} fresh"
        )?,
        (ThreadCount::One, Job::Perform) => println!(rt;
            "{name} {calls} calls {all} in all {counted} taken"
        )?,
        (ThreadCount::Four, _) => println!(rt; "{name} {calls} calls {all} in all")?,
    }
    let (whole, tenth) = measured.time_per_call();
    eprintln!(rt; "{name} {calls} calls {whole}.{tenth} ns a call")?;
    Ok(())
}
