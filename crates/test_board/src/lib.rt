//! Tests of calls on a board that scripts do not make: openings, lists of events, and logs of
//! entries. Scripts are tested in `cases`.
#![tactic(auto)]

#[cfg(test)]
mod logs;
#[cfg(test)]
mod openings;
#[cfg(test)]
mod runs;
