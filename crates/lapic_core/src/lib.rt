//! The interrupt priorities of one processor's local APIC (Intel SDM volume 3, "Interrupt, Task,
//! and Processor Priority"): requests, vectors in service, and the next vector.
#![tactic(auto)]

mod lapic;
mod laws;
mod vector_set;

pub use lapic::Lapic;
pub use laws::an_end_may_wait;
pub use vector_set::VectorSet;
