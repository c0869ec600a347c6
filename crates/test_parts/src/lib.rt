//! Tests of the parts of a board and of posted words, one file each.
#![tactic(auto)]

#[cfg(test)]
mod deadlines;
#[cfg(test)]
mod images;
#[cfg(test)]
mod lapics;
#[cfg(test)]
mod pages;
#[cfg(test)]
mod ports;
#[cfg(test)]
mod queues;
#[cfg(test)]
mod registers;
#[cfg(test)]
mod steps;
#[cfg(test)]
mod terms;
#[cfg(test)]
mod timers;
#[cfg(test)]
mod words;
