//! C handles: each owns an optional board with the notices of its last event, an optional line, or
//! an optional board with its history.
#![tactic(auto)]

mod any_board;
mod board;
mod board_handle;
mod forwarding;
mod history;
mod history_handle;
mod line;
mod line_handle;
mod live;
mod recorded_handle;

pub use any_board::AnyBoard;
pub use board::BoardWithNotices;
pub use board_handle::BoardHandle;
pub use forwarding::Forwarded;
pub use history::History;
pub use history_handle::HistoryHandle;
pub use line::{OwnedLine, SplitFault};
pub use line_handle::LineHandle;
pub use live::LiveWithNotices;
pub use recorded_handle::RecordedHandle;
