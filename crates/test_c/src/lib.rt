//! Tests of the parts of the C library: handles, histories, lines, batches and trace entries.
#![tactic(auto)]

#[cfg(test)]
mod batches;
#[cfg(test)]
mod held;
#[cfg(test)]
mod histories;
#[cfg(test)]
mod lines;
#[cfg(test)]
mod traces;
