//! The vocabulary of the board: numbers whose range is in the type, notices and refusals.
#![tactic(auto)]

mod messages;
mod notices;
mod pages;
mod refusal;
mod sint;
mod timer_id;
mod vector;
mod vp;

pub use messages::{Message, PayloadBytes, PortShape};
pub use notices::{MOST_NOTICES, Notice, Notices};
pub use pages::{Bytes8, Kind, Owner};
pub use refusal::Refusal;
pub use sint::{Sint, source_number};
pub use timer_id::TimerId;
pub use vector::Vector;
pub use vp::Vp;

/// A time of the partition reference counter, in units of 100 ns (TLFS, "Partition Reference
/// Counter").
pub type Moment = u64;

/// The ticket of an accepted message. No ticket is given twice.
pub type Ticket = u64;
