// Why a scene stopped.
use board_threads::{CallFault, CrewFault, OpenFault, SettleFault};
use posted_words::{GatherFault, PostedFault};
use std::alloc::AllocError;
use thiserror::Error;

#[derive(Clone, Copy, PartialEq, Eq, Debug, Drop, Error)]
pub(crate) enum Stopped {
    #[error("out of memory")]
    Memory,
    #[error("no thread")]
    NoThread,
    #[error("another answer or fault than want of memory")]
    Otherwise,
}

/// A scene ran to its end, and its calls returned what they must. No allocation failed in them.
pub(crate) fn ended(as_they_are_to: bool) -> Result<bool, Stopped> {
    if as_they_are_to {
        Ok(false)
    } else {
        Err(Stopped::Otherwise)
    }
}

impl From<AllocError> for Stopped {
    fn from(_: AllocError) -> Stopped {
        Stopped::Memory
    }
}

impl From<OpenFault> for Stopped {
    fn from(fault: OpenFault) -> Stopped {
        match fault {
            OpenFault::Memory => Stopped::Memory,
            OpenFault::BadSize => Stopped::Otherwise,
        }
    }
}

impl From<PostedFault> for Stopped {
    fn from(fault: PostedFault) -> Stopped {
        match fault {
            PostedFault::Memory => Stopped::Memory,
            PostedFault::BadSize => Stopped::Otherwise,
        }
    }
}

impl From<GatherFault> for Stopped {
    fn from(fault: GatherFault) -> Stopped {
        match fault {
            GatherFault::Memory => Stopped::Memory,
            GatherFault::Missing => Stopped::Otherwise,
        }
    }
}

impl From<CallFault> for Stopped {
    fn from(fault: CallFault) -> Stopped {
        match fault {
            CallFault::Memory => Stopped::Memory,
            CallFault::AbsorbEvent | CallFault::Full => Stopped::Otherwise,
        }
    }
}

impl From<SettleFault> for Stopped {
    fn from(fault: SettleFault) -> Stopped {
        match fault {
            SettleFault::Memory => Stopped::Memory,
            SettleFault::Mismatch => Stopped::Otherwise,
        }
    }
}

impl From<CrewFault> for Stopped {
    fn from(fault: CrewFault) -> Stopped {
        match fault {
            CrewFault::Memory => Stopped::Memory,
            CrewFault::NoThread => Stopped::NoThread,
            CrewFault::BadSize | CrewFault::BadStep | CrewFault::Unsettled => Stopped::Otherwise,
        }
    }
}
