//! `bench_board`: measures the cost of an event of the board, inside one process.
#![tactic(auto)]

mod events;
mod measure;
mod scene;
mod size;
mod tally;
mod workload;

use crate::measure::measure;
use crate::size::Size;
use crate::workload::Workload;
use bench_cli::{Asked, Choice, Fault, Program};
use std::process::ExitCode;

const OUTPUT: &str = "\
A board of 1 or 8 processors holds its guest's pages; one of 64 is sparse. Then messages and flags go
to all 64 processors, and else to the one of a board of one. In mixed, a guest loads from the page that
an overlay left; with 64 from the one that it reached, since a sparse board refuses the other.

Standard output: each workload, the events, their notices, the sum of the replies, and a digest
of the first 2000 events. Standard error: each workload, the events, and nanoseconds an event.";

fn main(rt: HostRuntime) -> ExitCode {
    match run(&rt) {
        Ok(code) => code,
        Err(fault) => {
            // A failure to print the message changes no status.
            let _ = eprintln!(rt; "bench_board: {fault}");
            ExitCode::from(fault.status())
        }
    }
}

/// Runs what the command line selects.
fn run(rt: &HostRuntime) -> Result<ExitCode, Fault> {
    let names = Workload::ALL.map(|workload| workload.name());
    // README bench_cli: begin
    let program = Program {
        name: "bench_board",
        about: "Performs events on a board, and reports what one costs",
        workloads: names.as_slice(),
        unit: "events",
        unit_help: "How many events it performs [default: 10000]",
        bound: 10_000,
        output: OUTPUT,
    };
    // README bench_cli: end
    // README bench_cli: begin
    let choice = Choice {
        name: "processors",
        help: "How many processors the board has [default: 8]",
        words: Size::WORDS.as_slice(),
    };
    let (asked, place) = program.asked_with(rt, Some(&choice))?;
    let (chosen, events) = match asked {
        Asked::Nothing(code) => return Ok(code),
        Asked::Measurements(chosen, events) => (chosen, events),
    };
    // README bench_cli: end
    let size = Size::at(place);
    for (place, workload) in Workload::ALL.iter().enumerate() {
        if chosen.is_none_or(|chosen| chosen == place) {
            show(rt, *workload, size, events)?;
        }
    }
    Ok(ExitCode::SUCCESS)
}

/// Measures a workload and prints the result: what is the same in each run to standard output, the
/// time to standard error.
fn show(rt: &HostRuntime, workload: Workload, size: Size, events: u32) -> Result<(), Fault> {
    let name = workload.name();
    let measured = measure(rt, workload, size, events)?;
    let (notices, replies) = (measured.totals.notices, measured.totals.replies);
    let digest = measured.digest;
    println!(rt;
        "{name} {events} events {notices} notices {replies} replies {digest:016x} digest"
    )?;
    let (whole, tenth) = measured.time_per_event();
    eprintln!(rt; "{name} {events} events {whole}.{tenth} ns an event")?;
    Ok(())
}
