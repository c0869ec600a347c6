//! What a driver may rely on when it saves and restores boards. Each theorem is a function that does
//! nothing, whose clause is the theorem.
#![tactic(auto)]

pub mod laws;
