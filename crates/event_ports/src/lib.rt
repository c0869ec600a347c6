//! The ports of a partition (TLFS, "Ports"): the target of a post or a signal, and what a port may
//! carry.
#![tactic(auto)]

mod ports;

pub use ports::{Port, Ports, port_count};
