//! The reference TSC page: the reference time as a function of a virtual TSC (TLFS, "Partition
//! Reference Time Enlightenment").
#![tactic(auto)]

mod laws;
mod page;

pub use laws::{a_page_is_within_a_unit, the_time_of_a_page_never_goes_back};
pub use page::{TscPage, UNITS};
