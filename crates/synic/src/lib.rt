//! The interrupt side of a Hyper-V-like partition: one `use` for a program in Rattle.
//!
//! A board performs events, and returns a reply to each, with its notices:
//!
//! ```rust
//! let mut board = Board::open(rt.alloc(), 1, 4, 0)?;
//! let mut notices = Notices::open(rt.alloc())?;
//! let vector = Vector::new(0x50).ok_or("vector")?;
//! let reply = board.perform(&Event::Assert { vp: 0, vector }, &mut notices);
//! assert_eq!(rt; reply, Reply::Done);
//! assert_eq!(rt; board.perform(&Event::Take { vp: 0 }, &mut notices), Reply::Taken(Some(vector)));
//! ```
//!
//! `replay` writes the output of a script, and `check_trace` the verdict on a trace:
//!
//! ```rust
//! let mut script: &[u8] = b"board 1 4 0\nread 0 40000081\n";
//! let mut text = Vec::new(rt.alloc());
//! assert_eq!(rt; replay(rt.alloc(), &mut script, &mut text), ReplayEnd::Done);
//! assert_eq!(rt; text.as_slice(), b"= value 1\n".as_slice());
//! ```
#![tactic(auto)]

#[cfg(test)]
mod tests;

pub use board_script::{CheckEnd, CrewRun, ReplayEnd, ScriptFault, check_trace, crew, replay};
pub use board_terms::{
    Bytes8, Kind, Moment, Notice, Notices, Owner, PayloadBytes, PortShape, Refusal, Sint, Ticket,
    TimerId, Vector, Vp,
};
pub use board_threads::{
    Actor, ActorCalls, CallFault, CrewEnd, CrewFault, Ended, Gate, Line, OpenGate, Origin, Raised,
    RecordedBoard, Scripts, SettleFault, Setup, Standing, Step, Worker, run_crew,
};
pub use synic_board::{Board, Entry, Event, OpenFault, Reply, Stopped, Summary, msr, run};
pub use text_history::{Format, put_trace, put_trace_from_image};
