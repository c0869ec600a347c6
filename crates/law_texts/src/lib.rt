//! The outputs of some small scripts, byte for byte, by the definitions alone. This is a crate of
//! its own because the prover evaluates these scripts each time that it checks the crate.
#![tactic(auto)]

pub mod laws;
