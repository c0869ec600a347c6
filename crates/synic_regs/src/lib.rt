//! The registers of one processor's synthetic interrupt controller (TLFS, "Virtual Interrupt
//! Controller"): their numbers, what a write stores, and which vector a source raises.
#![tactic(auto)]

mod laws;
pub mod msr;
mod register;
mod regs;
mod words;

pub use laws::registers_have_their_numbers;
pub use register::{Register, decode};
pub use regs::{Outcome, SynicRegs};
