// Histories.
use crate::event::{Event, Reply};

/// An event, its reply, and the number of the actor that performed it.
#[derive(PartialEq, Debug, Drop)]
pub struct Entry {
    pub actor: u8,
    pub event: Event,
    pub reply: Reply,
}
