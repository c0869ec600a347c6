//! Text input and output of the program: numbers, fields, the lines of a reader, and writing.
#![tactic(auto)]

mod bytes;
mod fields;
mod fronts;
mod lanes;
mod numbers;
mod output;
mod pairs;
mod sending;
mod sink;
mod source;

pub use bytes::{byte_of, put_byte, put_bytes};
pub use fields::{Fields, is_word};
pub use fronts::{
    FRONT, byte_before, bytes_before, decimal_before, digit_before, small_before, text_before,
};
pub use numbers::{decimal_of, hex_of, put_decimal, put_hex};
pub use output::Output;
pub use pairs::digits_of;
pub use sending::send;
pub use sink::Sink;
pub use source::{LIMIT, LONGEST, NextLine, Source};
