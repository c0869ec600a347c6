//! Scripts: replays one, or saves the board at its end.
#![tactic(auto)]

mod judge;
mod respond;
mod stream;

pub use stream::{ReplayEnd, replay, replay_on, save_script};
