// The names of the workloads.

/// The events that are repeated.
#[derive(Clone, Copy, PartialEq, Eq, Debug)]
pub(crate) enum Workload {
    /// Assert, take and end on each processor.
    Interrupts,
    /// Post, consume and EOM over all ports.
    Messages,
    /// An overlay of each processor that moves, with loads and stores.
    Pages,
    /// Signals of an event port, and stores that clear the flags.
    Flags,
    /// Four periodic timers of each processor in direct mode, and dense ticks.
    Timers,
    /// Four periodic timers of each processor, whose messages are consumed.
    TimerMessages,
    /// Some of each in turn, on each processor.
    Mixed,
}

impl Workload {
    /// All workloads, in the order in which they are measured.
    pub(crate) const ALL: [Workload; 7] = [
        Workload::Interrupts,
        Workload::Messages,
        Workload::Pages,
        Workload::Flags,
        Workload::Timers,
        Workload::TimerMessages,
        Workload::Mixed,
    ];

    /// The name on the command line.
    pub(crate) fn name(self) -> &'static str {
        match self {
            Workload::Interrupts => "interrupts",
            Workload::Messages => "messages",
            Workload::Pages => "pages",
            Workload::Flags => "flags",
            Workload::Timers => "timers",
            Workload::TimerMessages => "timer-messages",
            Workload::Mixed => "mixed",
        }
    }
}
