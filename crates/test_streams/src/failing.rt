// Jobs whose reader and writer transfer one byte at a time, and fail at each place in turn.
use crate::jobs::{End, Job, read_by, run, written_by};
use crate::peers::{Refuses, gives, takes};
use std::alloc::Global;
use std::cell::Cell;
use std::sync::Wait;
use std::thread::Threads;

#[derive(Clone, Copy, PartialEq, Debug)]
enum Failing {
    Nothing,
    Read,
    Write(Refuses),
    Flush,
}

const KINDS: [Failing; 5] = [
    Failing::Nothing,
    Failing::Read,
    Failing::Write(Refuses::Writes),
    Failing::Write(Refuses::Bytes),
    Failing::Flush,
];

/// How many places can fail. The last read finds the end. There is a flush before each read, and
/// one after all output.
fn places(job: Job, failing: Failing) -> usize {
    let bytes = read_by(job).len();
    match failing {
        Failing::Nothing => 1,
        Failing::Read => bytes + 1,
        Failing::Write(_) => written_by(job, bytes + 1).len(),
        Failing::Flush => bytes + 2,
    }
}

/// Whether a job that fails at this place ends so, with the output up to there.
fn ends_there<H: Threads + Wait + Sync>(
    rt: &H,
    alloc: Global,
    job: Job,
    failing: Failing,
    place: usize,
) -> bool {
    let script = read_by(job);
    let all = written_by(job, script.len() + 1);
    let begun = written_by(job, place);
    let held_back = Cell::new(0);
    let mut reader = gives(script.as_slice(), &held_back);
    let mut writer = takes(&held_back);
    let (end, written) = match failing {
        Failing::Nothing => (End::Done, all.as_slice()),
        Failing::Read => {
            reader.fails_at = place;
            (End::Reading, begun.as_slice())
        }
        Failing::Write(refuses) => {
            writer.refuses = refuses;
            writer.room = place;
            (End::Writing, &all.as_slice()[..place.min(all.len())])
        }
        Failing::Flush => {
            writer.refuses = Refuses::Flushes;
            writer.room = place;
            (End::Writing, begun.as_slice())
        }
    };
    let ended = run(rt, alloc, job, &mut reader, &mut writer);
    let is_flushed = end == End::Writing || held_back.get() == 0;
    ended == end && writer.text.as_slice() == written && is_flushed
}

/// The first place at which a job ends otherwise.
fn first_other<H: Threads + Wait + Sync>(
    rt: &H,
    alloc: Global,
    job: Job,
) -> Option<(Failing, usize)> {
    for failing in KINDS {
        for place in 0..places(job, failing) {
            if !ends_there(rt, alloc, job, failing, place) {
                return Some((failing, place));
            }
        }
    }
    None
}

#[test]
fn each_job_ends_where_a_stream_fails(rt: HostRuntime) {
    for job in [Job::Replay, Job::Check, Job::Crew, Job::CrewOnBoard] {
        assert_eq!(rt; first_other(&rt, rt.alloc(), job), None, "{job:?}");
    }
}
