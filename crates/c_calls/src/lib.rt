//! The C API of the board (`include/synicboard.h`). The contract of each call says what its handle
//! owns afterwards, and what the call returns.
#![tactic(auto)]

mod batches;
mod events;
mod forwarding;
mod inspect;
mod inspect_parts;
mod lines;
mod live;
mod looks;
mod notices;
mod opening;
mod pages;
mod perform_on;
mod recorded;
mod sources;
mod stepping;
mod texts;
mod tsc;
mod views;
