//! Tests of boards that threads share.
#![tactic(auto)]

#[cfg(test)]
mod sharing;
#[cfg(test)]
mod watching;
