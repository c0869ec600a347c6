//! Validates the lines of a reader one by one, and sends the answer to each before it reads the
//! next.
#![tactic(auto)]

mod closing;
mod driving;
mod judge;

pub use closing::close;
pub use driving::{End, drive};
pub use judge::{Judge, Taken};
