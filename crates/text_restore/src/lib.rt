//! Boards from images: reads an image line by line into a board of the state that it states.
#![tactic(auto)]

mod judge;
mod order;
mod parts;
mod restoring;
mod stage;

pub use restoring::{RestoreEnd, restore};
pub use stage::{Stage, board_of, has_ended, take_line};
