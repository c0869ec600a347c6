// The names of the workloads.
ghost use Rattle.std.specs.Prelude.{◌≤◌};

/// The greatest number of events on one board: a history holds 65,536 entries.
const MOST_EVENTS: u32 = 60_000;

/// The greatest number of raises of each thread on one board: each 1024th turn adds an absorb to
/// the history.
const MOST_RAISES: u32 = 8_000_000;

/// What each thread repeats.
#[derive(Clone, Copy, PartialEq, Eq, Debug)]
pub(crate) enum Job {
    /// Its line raises vectors over all processors, and its actor occasionally absorbs a word.
    Raise,
    /// Its actor performs events without payload.
    Perform,
}

/// The number of threads.
#[derive(Clone, Copy, PartialEq, Eq, Debug)]
pub(crate) enum ThreadCount {
    One,
    Four,
}

/// A measurement.
#[derive(Clone, Copy, PartialEq, Eq, Debug)]
pub(crate) struct Workload {
    pub(crate) job: Job,
    pub(crate) threads: ThreadCount,
}

impl ThreadCount {
    /// Their number.
    pub(crate) fn number(self) -> u8
        ensures some { 1 ≤ result }
        ensures bound { result ≤ 4 }
    {
        match self {
            ThreadCount::One => 1,
            ThreadCount::Four => 4,
        }
    }
}

impl Workload {
    /// All workloads, in the order in which they are measured.
    pub(crate) const ALL: [Workload; 4] = [
        Workload {
            job: Job::Raise,
            threads: ThreadCount::One,
        },
        Workload {
            job: Job::Raise,
            threads: ThreadCount::Four,
        },
        Workload {
            job: Job::Perform,
            threads: ThreadCount::One,
        },
        Workload {
            job: Job::Perform,
            threads: ThreadCount::Four,
        },
    ];

    /// The name on the command line.
    pub(crate) fn name(self) -> &'static str {
        match (self.job, self.threads) {
            (Job::Raise, ThreadCount::One) => "raise-1",
            (Job::Raise, ThreadCount::Four) => "raise-4",
            (Job::Perform, ThreadCount::One) => "perform-1",
            (Job::Perform, ThreadCount::Four) => "perform-4",
        }
    }

    /// The greatest number of calls of each thread on one board.
    pub(crate) fn most(self) -> u32
        ensures { 1 ≤ result }
    {
        match self.job {
            Job::Raise => MOST_RAISES,
            Job::Perform => MOST_EVENTS / self.threads.number() as u32,
        }
    }
}
