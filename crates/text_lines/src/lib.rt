//! The lines of scripts and traces: parsing and printing.
#![tactic(auto)]

mod event;
mod fault;
pub mod laws;
mod numbers;
mod opening;
mod print;

pub use event::{event_of, perform_event};
pub use fault::{ScriptFault, put_fault, skips};
pub use numbers::{bytes_in, hex_u32_of, hex_u64_of, u8_of, u64_of, vector_of};
pub use opening::{open_board, opening_of};
pub use print::{
    put_data, put_decimal_field, put_event, put_hex_field, put_notices, put_reply, put_summary,
};
