//! Histories as texts: the formats of a trace, and how a history is written in each of them.
#![tactic(auto)]

mod format;
mod print;

pub use format::Format;
pub use print::{put_end, put_entry, put_trace, put_trace_from_image};
