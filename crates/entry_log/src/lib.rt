//! A compact list of entries: the numbers of each entry take 40 bytes, and the bytes of payloads,
//! stores and loads are stored one after another.
#![tactic(auto)]

mod compact;
mod log;

pub use log::EntryLog;
