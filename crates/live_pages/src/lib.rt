//! Live pages: message and event flags pages that a running guest loads and stores at any time
//! (TLFS, "SIM Page" and "SIEF Page"). Contracts record each access of the host, with the value that
//! it found.
#![tactic(auto)]

mod access;
mod laws;
mod lies;
mod page;

pub use access::{Access, Turn};
pub use laws::{
    a_guest_that_writes_nothing_is_not_seen, a_signalled_flag_stays, anybody_may_write,
    each_precaution_is_needed, no_wake_up_is_missed, no_wake_up_is_missed_in_memory,
};
pub use page::{Guest, LivePage, SLOT_WORDS, View, WORDS};
