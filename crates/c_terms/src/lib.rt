//! Events, replies and notices as plain structs, for C callers, with batches of such events and
//! their trace entries, and the traces of histories.
#![tactic(auto)]

mod batches;
mod entries;
mod event;
mod history;
pub mod laws;
mod notice;
mod reply;
mod room;

pub use batches::{Batch, BatchEnd, perform_batch};
pub use entries::{EntryFault, lines_of};
pub use event::{CEvent, event_of, perform_c};
pub use history::trace_of;
pub use notice::{CNotice, notice_to_c, put_more, put_plain};
pub use reply::{CReply, Fault, fault_to_c, reply_of, reply_to_c};
pub use room::put_bytes;
