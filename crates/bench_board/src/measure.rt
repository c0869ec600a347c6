// Running and timing a workload.
use crate::events::put_off;
use crate::scene::Scene;
use crate::size::Size;
use crate::tally::{Digest, Tally, Totals};
use crate::workload::Workload;
use bench_cli::Fault;
use board_terms::{Moment, Notices};
use std::time::Instant;
use synic_board::{Board, Event};

/// How many events are in the digest, which is not timed.
const DIGESTED: u32 = 2000;

/// The totals of a workload, and its time.
#[derive(Clone, Copy)]
pub(crate) struct Measured {
    pub(crate) totals: Totals,
    pub(crate) digest: u64,
    events: u32,
    nanoseconds: u64,
}

impl Measured {
    /// Nanoseconds per event, and tenths of them.
    pub(crate) fn time_per_event(&self) -> (u64, u64) {
        let tenths = self.nanoseconds.saturating_mul(10);
        let tenths = tenths.checked_div(self.events as u64).unwrap_or(0);
        (tenths / 10, tenths % 10)
    }
}

/// Performs that many events of a workload, and some on a separate board for the digest.
pub(crate) fn measure(
    rt: &HostRuntime,
    workload: Workload,
    size: Size,
    events: u32,
) -> Result<Measured, Fault> {
    let mut notices = Notices::open(rt.alloc())?;
    let digest = digest_of(rt, workload, size, events.min(DIGESTED), &mut notices)?;
    let (totals, nanoseconds) = totals_of(rt, workload, size, events, &mut notices)?;
    Ok(Measured {
        totals,
        digest,
        events,
        nanoseconds,
    })
}

/// The totals of the events of a workload, and their time in nanoseconds.
fn totals_of(
    rt: &HostRuntime,
    workload: Workload,
    size: Size,
    events: u32,
    notices: &mut Notices,
) -> Result<(Totals, u64), Fault> {
    let mut scene = Scene::of(rt.alloc(), workload, size)?;
    let mut board = scene.open(rt.alloc(), notices)?;
    timed(rt, &mut board, notices, &mut scene, events)
}

/// The same, on a borrowed board and scene, so that one owner drops them.
fn timed(
    rt: &HostRuntime,
    board: &mut Board,
    notices: &mut Notices,
    scene: &mut Scene,
    events: u32,
) -> Result<(Totals, u64), Fault> {
    let start = Instant::now(rt)?;
    let totals = total(board, notices, scene, events);
    let elapsed = start.elapsed(rt)?;
    let seconds = elapsed.as_secs().saturating_mul(1_000_000_000);
    let nanoseconds = seconds.saturating_add(elapsed.subsec_nanos() as u64);
    Ok((totals, nanoseconds))
}

/// The timed part.
#[inline(never)]
fn total(board: &mut Board, notices: &mut Notices, scene: &mut Scene, events: u32) -> Totals {
    let mut totals = Totals::default();
    perform_round(board, notices, scene, events, &mut totals);
    totals
}

/// The digest of the first events of a workload, and of the summary after them.
fn digest_of(
    rt: &HostRuntime,
    workload: Workload,
    size: Size,
    events: u32,
    notices: &mut Notices,
) -> Result<u64, Fault> {
    let mut scene = Scene::of(rt.alloc(), workload, size)?;
    let mut board = scene.open(rt.alloc(), notices)?;
    let mut digest = Digest::new();
    perform_round(&mut board, notices, &mut scene, events, &mut digest);
    digest.add_summary(&board);
    digest.add_owners(&board, scene.memory.elsewhere());
    Ok(digest.value())
}

/// Repeats the round of a scene until that many events were performed.
fn perform_round<T: Tally>(
    board: &mut Board,
    notices: &mut Notices,
    scene: &mut Scene,
    events: u32,
    tally: &mut T,
) {
    let span = scene.span;
    let round = scene.round.as_mut_slice();
    let length = round.len();
    let events = events as usize;
    let Some(rounds) = events.checked_div(length) else {
        return;
    };
    for _ in 0..rounds {
        perform(board, notices, round, span, tally);
    }
    perform(board, notices, &mut round[..events % length], span, tally);
}

/// Performs events once, and moves their ticks later for the next round.
fn perform<T: Tally>(
    board: &mut Board,
    notices: &mut Notices,
    events: &mut [Event],
    span: Moment,
    tally: &mut T,
) {
    for event in events.iter_mut() {
        let reply = board.perform(event, notices);
        tally.add(reply, notices.as_slice());
        put_off(event, span);
    }
}
