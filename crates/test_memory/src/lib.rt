//! Calls that allocate, each with a failing allocation. `cases/refused` refuses one allocation in
//! each run, and each in turn. A call that fails so is repeated, and must then return what it
//! returns without a failure.
#![tactic(auto)]

#[cfg(test)]
mod boards;
#[cfg(test)]
mod crews;
#[cfg(test)]
mod events;
#[cfg(test)]
mod parts;
#[cfg(test)]
mod scenes;
#[cfg(test)]
mod shared;
#[cfg(test)]
mod stopped;
#[cfg(test)]
mod texts;
#[cfg(test)]
mod words;
