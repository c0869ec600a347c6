//! A board whose message and event flags pages a running guest loads and stores (TLFS, "SIM Page"
//! and "SIEF Page").
#![tactic(auto)]

mod acting;
mod attempt;
mod ending;
mod filling;
mod laws;
mod live;
mod marking;
mod notices;
mod observing;
mod owing;
mod passing;
mod performing;
mod posting;
mod probing;
mod publishing;
mod refreshing;
mod resetting;
mod signalling;
mod ticking;
mod timing;
mod words;

pub use laws::{
    a_guest_only_stores, a_look_changes_only_pages, a_look_conserves_messages,
    a_placed_message_is_in_memory, a_refresh_changes_only_pages, a_refresh_conserves_messages,
    a_reset_conserves_messages, a_run_of_calls_conserves_messages,
    a_run_of_calls_is_one_of_the_model, a_tick_conserves_messages,
    a_timer_write_conserves_messages, a_waiting_message_is_marked,
    a_write_hides_only_what_was_refreshed, an_event_conserves_messages,
    an_event_without_accesses_is_live,
};
pub use live::{LiveBoard, MOST_PROCESSORS};
pub use notices::{LiveNotices, MOST_NOTICES};
