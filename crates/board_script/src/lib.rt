//! The texts of the board: replays scripts, saves the board at the end of one, runs the scripts of
//! crews in threads, and checks traces.
#![tactic(auto)]

pub use text_crew::{CrewRun, Gate, OpenGate, Worker, crew, crew_on};
pub use text_lines::ScriptFault;
pub use text_script::{ReplayEnd, replay, replay_on, save_script};
pub use text_trace::{CheckEnd, check_trace};
