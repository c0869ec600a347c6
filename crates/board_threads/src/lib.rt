//! One board for several threads: actors perform events under a lock, and lines raise vectors
//! without it. At the end the board is returned with its history, which is a run of one thread.
#![tactic(auto)]

mod actor;
mod crew;
mod fault;
mod gate;
mod opening;
mod origin;
mod places;
mod recorded;
mod recorded_board;
mod script;
mod settling;
mod threads;
mod workers;
mod working;

pub use actor::{Actor, CallFault};
pub use crew::{CrewEnd, CrewFault, run_crew, run_crew_on};
pub use gate::{Gate, OpenGate, Worker};
pub use origin::Origin;
pub use posted_words::{Line, Raised, Standing, Sweeper};
pub use recorded_board::RecordedBoard;
pub use script::{Scripts, Setup, Step};
pub use settling::{ActorCalls, Ended, SettleFault};
pub use synic_board::{Entry, OpenFault};
