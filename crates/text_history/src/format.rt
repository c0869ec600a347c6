// The formats of a trace.
ghost use Rattle.std.specs.Prelude.{◌≡◌};
ghost use Rattle.text_history.specs.Trace.{format_for, has_send, may_open, may_restore};

use synic_board::{Entry, Event};

/// The formats of a trace, named by its first line. All but format 1 have lines for resets of a
/// processor, and their last line has the next ticket. Format 3 begins with a board line of either
/// form or with an image, and has lines for interrupts that are sent to several processors.
#[derive(Clone, Copy, PartialEq, Eq, Debug)]
pub enum Format {
    One,
    Two,
    Three,
}

impl Format {
    /// Whether the board line of this format may open a board with these pages, of which a sparse
    /// one has none.
    pub fn may_open(self, pages: Option<u8>) -> bool
        ensures { result ≡ may_open self pages }
    {
        match self {
            Format::One | Format::Two => pages.is_some(),
            Format::Three => true,
        }
    }

    /// Whether a trace of this format may begin with an image.
    pub fn may_restore(self) -> bool
        ensures { result ≡ may_restore self }
    {
        matches!(self, Format::Three)
    }
}

/// The format in which a history is written after a board line with these pages: format 2 if that
/// can hold it, which has neither sparse boards nor sends, and otherwise format 3.
pub(crate) fn format_for(pages: Option<u8>, history: &[Entry]) -> Format
    ensures { result ≡ format_for pages history.now }
{
    if pages.is_some() && !has_send(history) {
        Format::Two
    } else {
        Format::Three
    }
}

/// Whether a history has a send.
fn has_send(history: &[Entry]) -> bool
    ensures { result ≡ has_send history.now }
{
    history
        .iter()
        .any(|entry| matches!(entry.event, Event::Send { .. }))
}
