//! The board: performs events, returns replies and notices, and caches a summary that is always up
//! to date.
#![tactic(auto)]

mod board;
mod draft;
mod event;
mod history;
mod machine;
mod processors;
mod runs;
mod summary;

pub use board::{Board, OpenFault};
pub use draft::Draft;
pub use event::{Event, Reply};
pub use history::Entry;
pub use runs::{Stopped, run};
pub use summary::Summary;
pub use synic_regs::msr;
