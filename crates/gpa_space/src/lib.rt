//! Guest pages and overlay pages (TLFS, "GPA Overlay Pages"): what a guest sees at a page, and what
//! the hypervisor writes to the message and event flags pages.
#![tactic(auto)]

mod candidates;
mod laws;
mod mapped;
mod overlay;
mod page;
mod space;

pub use laws::{overlays_are_in_order, stored_bytes_are_loaded};
pub use space::Space;
