//! A board that threads share for as long as they like: events are performed under a lock, one at a
//! time, and nothing is recorded. The history of all calls exists only in contracts: whenever the
//! lock is free, it is legal from the state in which the board was shared, and leads to the board.
//! A watched board also publishes what threads poll of it without the lock.
#![tactic(auto)]

mod actor;
mod laws;
mod locked;
mod publishing;
mod shared;
mod sharing;
mod watched;
mod watching;

pub use actor::Actor;
pub use laws::{a_watcher_sees_first_calls, each_fresh_raise_is_absorbed_once, two_watchers_agree};
pub use locked::LockedBoard;
pub use publishing::PublishingBoard;
pub use shared::{Ended, SharedBoard};
pub use sharing::Sharing;
pub use watched::WatchedBoard;
pub use watching::Watching;
