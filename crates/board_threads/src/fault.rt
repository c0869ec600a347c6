// Why the work of a crew stopped.
use crate::actor::CallFault;
use crate::crew::CrewFault;
use crate::settling::SettleFault;
use std::alloc::AllocError;

/// Why a crew with valid sizes and steps has no result.
#[derive(Clone, Copy, PartialEq, Eq, Debug)]
pub(crate) enum WorkFault {
    /// An allocation failed.
    Memory,
    /// The calls of the threads are no history of the crew.
    Unsettled,
    /// A thread could not be started.
    NoThread,
}

impl From<AllocError> for WorkFault {
    ghost use Rattle.std.specs.Prelude.{◌≡◌};
    ghost use Rattle.board_threads.specs.inside.Faults.{no_memory};

    ghost from_gives = { λ _ fault. fault ≡ no_memory };

    fn from(_: AllocError) -> WorkFault {
        WorkFault::Memory
    }
}

impl From<CallFault> for WorkFault {
    ghost use Rattle.std.specs.Prelude.{◌≡◌};
    ghost use Rattle.board_threads.specs.inside.Faults.{fault_of_call};

    ghost from_gives = { λ cause fault. fault ≡ fault_of_call cause };

    fn from(fault: CallFault) -> WorkFault {
        match fault {
            CallFault::Memory => WorkFault::Memory,
            // The steps were validated before, and all of them fit into the history.
            CallFault::AbsorbEvent | CallFault::Full => WorkFault::Unsettled,
        }
    }
}

impl From<SettleFault> for WorkFault {
    ghost use Rattle.std.specs.Prelude.{◌≡◌};
    ghost use Rattle.board_threads.specs.inside.Faults.{fault_of_settling};

    ghost from_gives = { λ cause fault. fault ≡ fault_of_settling cause };

    fn from(fault: SettleFault) -> WorkFault {
        match fault {
            SettleFault::Memory => WorkFault::Memory,
            SettleFault::Mismatch => WorkFault::Unsettled,
        }
    }
}

impl From<WorkFault> for CrewFault {
    ghost use Rattle.std.specs.Prelude.{◌≡◌};
    ghost use Rattle.board_threads.specs.inside.Faults.{fault_of_work};

    ghost from_gives = { λ cause fault. fault ≡ fault_of_work cause };

    fn from(fault: WorkFault) -> CrewFault {
        match fault {
            WorkFault::Memory => CrewFault::Memory,
            WorkFault::Unsettled => CrewFault::Unsettled,
            WorkFault::NoThread => CrewFault::NoThread,
        }
    }
}
