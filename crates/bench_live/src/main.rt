//! `bench_live`: measures the cost of an event of a board with live pages, while the guest stores nothing.
#![tactic(auto)]

mod measure;
mod workload;

use crate::measure::measure;
use crate::workload::Workload;
use bench_cli::{Asked, Fault, Program};
use std::process::ExitCode;

const OUTPUT: &str = "\
Standard output: each workload, the events, and how many of them were done.
Standard error: each workload, the events, and nanoseconds an event.";

fn main(rt: HostRuntime) -> ExitCode {
    match run(&rt) {
        Ok(code) => code,
        Err(fault) => {
            // A failure to print the message changes no status.
            let _ = eprintln!(rt; "bench_live: {fault}");
            ExitCode::from(fault.status())
        }
    }
}

/// Runs what the command line selects.
fn run(rt: &HostRuntime) -> Result<ExitCode, Fault> {
    let names = Workload::ALL.map(|workload| workload.name());
    let program = Program {
        name: "bench_live",
        about: "Performs events on a board with live pages, and reports what one costs",
        workloads: names.as_slice(),
        unit: "events",
        unit_help: "How many events it performs [default: 10000]",
        bound: 10_000,
        output: OUTPUT,
    };
    let (chosen, events) = match program.asked(rt)? {
        Asked::Nothing(code) => return Ok(code),
        Asked::Measurements(chosen, events) => (chosen, events),
    };
    for (place, workload) in Workload::ALL.iter().enumerate() {
        if chosen.is_none_or(|chosen| chosen == place) {
            show(rt, *workload, events)?;
        }
    }
    Ok(ExitCode::SUCCESS)
}

/// Measures a workload and prints the result: what is the same in each run to standard output, the
/// time to standard error.
fn show(rt: &HostRuntime, workload: Workload, events: u32) -> Result<(), Fault> {
    let name = workload.name();
    let measured = measure(rt, workload, events)?;
    let done = measured.done;
    println!(rt; "{name} {events} events {done} done")?;
    let (whole, tenth) = measured.time_per_event(events);
    eprintln!(rt; "{name} {events} events {whole}.{tenth} ns an event")?;
    Ok(())
}
