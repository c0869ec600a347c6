//! Scripts of crews: actors and lines on one board, run concurrently by threads, and the trace of
//! the run. The board is one that the script opens, or one that is open, such as a restored one.
#![tactic(auto)]

mod held;
mod judge;
mod outcome;
mod running;
mod script;

pub use board_threads::{Gate, OpenGate, Worker};
pub use running::{CrewRun, crew, crew_on};
pub use text_lines::ScriptFault;
