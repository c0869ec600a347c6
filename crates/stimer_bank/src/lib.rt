//! The synthetic timers: their registers, their deadlines, and their expiries (TLFS, "Synthetic
//! Timers").
#![tactic(auto)]

mod bank;
mod config;
mod laws;
mod timer;

pub use bank::TimerBank;
pub use laws::{due_lists_are_sorted, periodic_timers_account_for_all};
pub use timer::{Expiry, Mode};
