// The events of the workloads.
use board_terms::PortShape;
use live_board::{LiveBoard, LiveNotices};
use synic_board::msr::{EOM, SCONTROL, SIEFP, SIMP, SINT0, STIMER0_CONFIG, STIMER0_COUNT};
use synic_board::{Event, Reply};

/// The events that are repeated.
#[derive(Clone, Copy, PartialEq, Eq, Debug)]
pub(crate) enum Workload {
    /// Signals of 64 flags, which stay set.
    Signals,
    /// EOMs with nothing queued.
    Eoms,
    /// Writes of a timer's count, in direct mode, far in the future.
    Counts,
    /// Ticks of one unit, at each of which a periodic timer in direct mode is due.
    Ticks,
}

/// The port that is signalled.
const PORT: u8 = 0;

/// How many flags the port has.
pub(crate) const FLAGS: u16 = 64;

/// The source of the port, with its vector.
const SOURCE: u8 = 2;

const SOURCE_VECTOR: u64 = 0x50;

/// SIMP and SIEFP: enabled, at two pages of the guest.
const SIM_PAGE: u64 = 0x2001;

const SIEF_PAGE: u64 = 0x3001;

/// Timers in direct mode: a periodic one with vector 0x60, and a one-shot with vector 0x70.
const PERIODIC_TIMER: u64 = 0x1603;

const SHOT_TIMER: u64 = 0x1701;

/// The configuration and the count of the second timer.
const SHOT_CONFIG: u32 = STIMER0_CONFIG + 2;

const SHOT_COUNT: u32 = STIMER0_COUNT + 2;

const FAR: u64 = 1 << 62;

impl Workload {
    /// All workloads, in the order in which they are measured.
    pub(crate) const ALL: [Workload; 4] = [
        Workload::Signals,
        Workload::Eoms,
        Workload::Counts,
        Workload::Ticks,
    ];

    /// The name on the command line.
    pub(crate) fn name(self) -> &'static str {
        match self {
            Workload::Signals => "live-signals",
            Workload::Eoms => "live-eoms",
            Workload::Counts => "live-counts",
            Workload::Ticks => "live-ticks",
        }
    }

    /// Performs the event of a turn. Each event is made where the board performs it, so that it is not
    /// in memory.
    #[inline(always)]
    pub(crate) fn perform(
        self,
        turn: u32,
        live: &mut LiveBoard,
        notices: &mut LiveNotices,
    ) -> Reply {
        match self {
            Workload::Signals => {
                let event = Event::Signal {
                    port: PORT,
                    flag: (turn % u32::from(FLAGS)) as u16,
                };
                live.perform(&event, notices).0
            }
            Workload::Eoms => live.perform(&write(EOM, 0), notices).0,
            Workload::Counts => {
                let event = write(SHOT_COUNT, FAR + u64::from(turn % 1024));
                live.perform(&event, notices).0
            }
            Workload::Ticks => {
                let event = Event::Tick {
                    moment: u64::from(turn) + 1,
                };
                live.perform(&event, notices).0
            }
        }
    }
}

/// A write of a register of processor 0.
#[inline(always)]
fn write(register: u32, value: u64) -> Event {
    Event::Write {
        vp: 0,
        register,
        value,
    }
}

/// The events before the measured ones.
pub(crate) fn setup() -> [Event; 8] {
    [
        write(SCONTROL, 1),
        write(SIMP, SIM_PAGE),
        write(SIEFP, SIEF_PAGE),
        write(SINT0 + u32::from(SOURCE), SOURCE_VECTOR),
        write(STIMER0_COUNT, 1),
        write(STIMER0_CONFIG, PERIODIC_TIMER),
        write(SHOT_CONFIG, SHOT_TIMER),
        Event::OpenPort {
            port: PORT,
            vp: 0,
            sint: SOURCE,
            shape: PortShape::Flags {
                base: 0,
                count: FLAGS,
            },
        },
    ]
}

/// Whether a reply is none that refuses.
pub(crate) fn is_done(reply: Reply) -> bool {
    !matches!(reply, Reply::Refused(_) | Reply::GeneralProtection)
}
