//! A history that exists only in contracts, and each actor's part of it. None of these values takes a
//! byte, and no call does anything at run time.
#![tactic(auto)]

mod history;
mod roster;

pub use history::History;
pub use roster::{Answered, Part, Roster};
