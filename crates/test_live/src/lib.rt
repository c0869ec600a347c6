//! Tests of live pages and of live boards.
#![tactic(auto)]

#[cfg(test)]
mod boards;
#[cfg(test)]
mod pages;
