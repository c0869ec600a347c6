// Why a measurement failed.
use crate::{LineFault, USAGE_FAULT};
use std::alloc::AllocError;
use std::io;
use synic_board::OpenFault;
use thiserror::Error;

const NO_MEMORY: u8 = 4;

const STREAM_FAULT: u8 = 5;

/// Why a measurement failed or is incomplete.
#[derive(Clone, Copy, PartialEq, Eq, Debug, Drop, Error)]
pub enum Fault {
    #[error("{0}")]
    Line(LineFault),
    #[error("no board was opened: {0}")]
    Opening(OpenFault),
}

impl Fault {
    /// The exit status.
    pub fn status(&self) -> u8 {
        match self {
            Fault::Line(LineFault::NotText) => USAGE_FAULT,
            Fault::Line(LineFault::Memory) | Fault::Opening(_) => NO_MEMORY,
            Fault::Line(LineFault::Stream) => STREAM_FAULT,
        }
    }
}

impl From<LineFault> for Fault {
    fn from(fault: LineFault) -> Fault {
        Fault::Line(fault)
    }
}

impl From<AllocError> for Fault {
    fn from(error: AllocError) -> Fault {
        Fault::Line(LineFault::from(error))
    }
}

impl From<OpenFault> for Fault {
    fn from(fault: OpenFault) -> Fault {
        Fault::Opening(fault)
    }
}

impl From<io::Error> for Fault {
    fn from(error: io::Error) -> Fault {
        Fault::Line(LineFault::from(error))
    }
}
