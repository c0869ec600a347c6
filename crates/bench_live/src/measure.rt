// Running and timing a workload.
use crate::workload::{Workload, is_done, setup};
use bench_cli::Fault;
use live_board::{LiveBoard, LiveNotices};
use std::alloc::AllocError;
use std::time::Instant;
use synic_board::Board;

/// The sizes of the board.
const PROCESSORS: u8 = 1;

const PAGES: u8 = 4;

/// How many events were done, and the time of all.
#[derive(Clone, Copy)]
pub(crate) struct Measured {
    pub(crate) done: u64,
    nanoseconds: u64,
}

impl Measured {
    /// Nanoseconds per event, and tenths of them.
    pub(crate) fn time_per_event(&self, events: u32) -> (u64, u64) {
        let tenths = self.nanoseconds.saturating_mul(10);
        let tenths = tenths.checked_div(events as u64).unwrap_or(0);
        (tenths / 10, tenths % 10)
    }
}

/// Performs that many events of a workload.
pub(crate) fn measure(
    rt: &HostRuntime,
    workload: Workload,
    events: u32,
) -> Result<Measured, Fault> {
    let mut notices = LiveNotices::open(rt.alloc())?;
    let board = Board::open(rt.alloc(), PROCESSORS, PAGES, 0)?;
    let Ok((mut live, _)) = LiveBoard::open(rt.alloc(), board) else {
        return Err(Fault::from(AllocError));
    };
    for event in &setup() {
        let _ = live.perform(event, &mut notices);
    }
    timed(rt, &mut live, &mut notices, workload, events)
}

/// The same, on a borrowed board.
fn timed(
    rt: &HostRuntime,
    live: &mut LiveBoard,
    notices: &mut LiveNotices,
    workload: Workload,
    events: u32,
) -> Result<Measured, Fault> {
    let start = Instant::now(rt)?;
    let done = perform_all(live, notices, workload, events);
    let elapsed = start.elapsed(rt)?;
    let seconds = elapsed.as_secs().saturating_mul(1_000_000_000);
    Ok(Measured {
        done,
        nanoseconds: seconds.saturating_add(elapsed.subsec_nanos() as u64),
    })
}

/// The timed part.
#[inline(never)]
fn perform_all(
    live: &mut LiveBoard,
    notices: &mut LiveNotices,
    workload: Workload,
    events: u32,
) -> u64 {
    let mut done = 0u64;
    for turn in 0..events {
        let reply = workload.perform(turn, live, notices);
        if is_done(reply) {
            done = done.wrapping_add(1);
        }
    }
    done
}
