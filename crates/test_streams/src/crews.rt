// Crews with one worker that is held until the others have made their calls.
use crate::gates::Hold;
use board_script::{CrewRun, crew};
use board_threads::Worker;
use std::alloc::Global;
use std::io;
use std::io::Cursor;
use std::sync::Wait;
use std::thread::Threads;
use text_trace::{CheckEnd, check_trace};

/// Two actors of one post each.
const POSTS: &str = concat!(
    "board 1 4 0\nwrite 0 40000080 1\nwrite 0 40000083 2001\nwrite 0 40000092 50\n",
    "open 3 message 0 2 2\nactor\npost 3 1 0a\nactor\npost 3 1 0b\n"
);

/// The trace if the first actor is held.
const SECOND_FIRST: &str = concat!(
    "trace 2\nboard 1 4 0\n0 write 0 40000080 1\n= done\n0 write 0 40000083 2001\n= done\n",
    "0 write 0 40000092 50\n= done\n0 open 3 message 0 2 2\n= done\n",
    "2 post 3 1 0b\n= accepted 0\n1 post 3 1 0a\n= accepted 1\n",
    "0 absorb 0 0 0\n= done\n0 absorb 0 1 0\n= done\n",
    "0 absorb 0 2 0\n= done\n0 absorb 0 3 0\n= done\nend 10 2\n"
);

/// The trace if the second actor is held.
const FIRST_FIRST: &str = concat!(
    "trace 2\nboard 1 4 0\n0 write 0 40000080 1\n= done\n0 write 0 40000083 2001\n= done\n",
    "0 write 0 40000092 50\n= done\n0 open 3 message 0 2 2\n= done\n",
    "1 post 3 1 0a\n= accepted 0\n2 post 3 1 0b\n= accepted 1\n",
    "0 absorb 0 0 0\n= done\n0 absorb 0 1 0\n= done\n",
    "0 absorb 0 2 0\n= done\n0 absorb 0 3 0\n= done\nend 10 2\n"
);

/// Two actors and two lines of two steps each.
const STEPS: &str = concat!(
    "board 1 4 0\nwrite 0 40000080 1\nwrite 0 40000083 2001\nwrite 0 40000092 50\n",
    "open 3 message 0 2 2\nactor\npost 3 1 0a\npost 3 1 0b\nactor\ntake 0\nabsorb 0 1\n",
    "line\nraise 0 60\nraise 0 61\nline\nraise 0 60\nraise 0 61\n"
);

/// The trace of a crew with one worker that is held until the others have finished that many calls.
/// `None` if it waited too long, or the crew had another result.
fn written<R: Threads + Wait + Sync>(
    rt: &R,
    alloc: Global,
    script: &str,
    held: Worker,
    until: u64,
) -> Option<Cursor<[u8; 512]>> {
    // README text_crew: begin
    let gate = Hold::of(held, until);
    let mut reader = script.as_bytes();
    let mut written = Cursor::new([0; 512]);
    let end = crew(rt, alloc, &mut reader, &mut written, &gate);
    // README text_crew: end
    if end == CrewRun::Done && !gate.has_given_up(rt) {
        Some(written)
    } else {
        None
    }
}

/// Whether this trace is written if an actor is held until the other one has posted.
fn posts_so<R: Threads + Wait + Sync>(rt: &R, alloc: Global, held: u8, trace: &str) -> bool {
    match written(rt, alloc, POSTS, Worker::Acts(held), 1) {
        Some(written) => {
            written.position() == trace.len() as u64
                && written.get_ref().starts_with(trace.as_bytes())
        }
        None => false,
    }
}

#[test]
fn actors_run_at_the_same_time(rt: HostRuntime) {
    assert!(rt; posts_so(&rt, rt.alloc(), 1, SECOND_FIRST));
    assert!(rt; posts_so(&rt, rt.alloc(), 2, FIRST_FIRST));
}

/// The verdict on the trace if a worker is held until the others have made all their steps.
fn judged<R: Threads + Wait + Sync>(rt: &R, alloc: Global, held: Worker) -> Option<CheckEnd> {
    let written = written(rt, alloc, STEPS, held, 6)?;
    let mut trace = written.get_ref().get(..written.position() as usize)?;
    Some(check_trace(alloc, &mut trace, &mut io::sink()))
}

#[test]
fn any_worker_runs_beside_the_others(rt: HostRuntime) {
    for held in [
        Worker::Acts(1),
        Worker::Acts(2),
        Worker::Raises(0),
        Worker::Raises(1),
    ] {
        assert_eq!(rt;
            judged(&rt, rt.alloc(), held),
            Some(CheckEnd::Legal(12)),
            "{held:?}"
        );
    }
}
