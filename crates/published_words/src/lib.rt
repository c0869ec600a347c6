//! Published words: what a hypervisor polls of a board, read without the lock. The words of a board
//! hold the next vector of each processor and the earliest deadline. One publisher, under the
//! board's lock, stores those that changed; any thread loads them.
#![tactic(auto)]

mod publisher;
mod rule;
mod watcher;
mod words;

pub use publisher::{Checkpoint, Publisher};
pub use watcher::Watcher;
pub use words::PublishedWords;
