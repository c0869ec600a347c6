//! The check of traces: whether a text is the trace of a legal history.
#![tactic(auto)]

mod check;
mod judge;
pub mod laws;
mod stage;

pub use check::{CheckEnd, check_trace};
