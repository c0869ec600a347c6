//! Images of boards: the state of a board as a text.
#![tactic(auto)]

mod image;
pub mod laws;
mod messages;
mod numbers;
mod pages;
mod piece;
mod processors;
mod reading;
mod stream;
mod timers;

pub use image::put_image;
pub use piece::{Block, Piece};
pub use processors::MASKED;
pub use reading::piece_of;
pub use stream::{SaveEnd, save};
