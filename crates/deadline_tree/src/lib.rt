//! The deadlines of timers as a tournament tree: each node has the earliest timer below it.
#![tactic(auto)]

mod laws;
mod table;
mod tree;

pub use laws::the_first_is_the_least;
pub use tree::DeadlineTree;
