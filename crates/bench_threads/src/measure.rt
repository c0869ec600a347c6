// Running and timing a workload.
use crate::faults::Fault;
use crate::workers::{open, run, split};
use crate::workload::Workload;
use std::sync::Wait;
use std::thread::Threads;
use std::time::Instant;

/// The totals of a workload, and its time.
#[derive(Clone, Copy)]
pub(crate) struct Measured {
    /// The raises that were fresh, or the interrupts that were taken.
    pub(crate) counted: u64,
    calls: u32,
    nanoseconds: u64,
}

impl Measured {
    /// Nanoseconds per call of one thread, and tenths of them.
    pub(crate) fn time_per_call(&self) -> (u64, u64) {
        let tenths = self.nanoseconds.saturating_mul(10);
        let tenths = tenths.checked_div(self.calls as u64).unwrap_or(0);
        (tenths / 10, tenths % 10)
    }
}

/// Has each thread of a workload make that many calls, on one board after another.
pub(crate) fn measure<R: Threads + Wait + Sync>(
    rt: &HostRuntime,
    threads: &R,
    workload: Workload,
    calls: u32,
) -> Result<Measured, Fault> {
    let most = workload.most();
    let mut measured = Measured {
        counted: 0,
        calls,
        nanoseconds: 0,
    };
    for _ in 0..calls / most {
        measure_board(rt, threads, workload, most, &mut measured)?;
    }
    measure_board(rt, threads, workload, calls % most, &mut measured)?;
    Ok(measured)
}

/// Has each thread make that many calls on one board, and settles it. Only the threads' work is
/// timed.
fn measure_board<R: Threads + Wait + Sync>(
    rt: &HostRuntime,
    threads: &R,
    workload: Workload,
    calls: u32,
    measured: &mut Measured,
) -> Result<(), Fault> {
    let (board, workers) = open(rt.alloc(), workload.threads.number())?;
    let start = Instant::now(rt)?;
    let workers = run(threads, &board, workload.job, calls, workers)?;
    let elapsed = start.elapsed(rt)?;
    let parts = split(rt.alloc(), &board, workers)?;
    board.settle(parts.actors, parts.lines)?;
    let seconds = elapsed.as_secs().saturating_mul(1_000_000_000);
    let nanoseconds = seconds.saturating_add(elapsed.subsec_nanos() as u64);
    measured.nanoseconds = measured.nanoseconds.saturating_add(nanoseconds);
    measured.counted = measured.counted.wrapping_add(parts.counted);
    Ok(())
}
