//! The message queues of a partition (TLFS, "Messages"), and the image of a message in its slot.
#![tactic(auto)]

mod chains;
mod messages;
mod owners;
mod queues;
mod slots;

pub use queues::Queues;
pub use slots::{header, image, slot_type, timer_header, timer_payload};
