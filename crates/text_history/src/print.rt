// Printing a history.
ghost use Rattle.std.specs.Prelude.{◌≡◌, ◌++◌, [], ◌∷◌, OnOk};
ghost use Rattle.std.specs.List.{All};
ghost use Rattle.text_base.specs.Fields.{spaced, line_of};
ghost use Rattle.text_lines.specs.Items.{pages_field};
ghost use Rattle.text_lines.specs.Printing.{text_of};
ghost use Rattle.text_history.specs.Trace.{IsEntry, title_fields, end_fields, history_lines, rest_lines, board_text, trace_text, format_for};

use crate::format::{Format, format_for};
use board_terms::Ticket;
use std::alloc::AllocError;
use synic_board::Entry;
use text_base::put_decimal;
use text_lines::{put_event, put_reply};

/// Appends the trace of a history to `out`: for a board of that many processors and pages, or a sparse
/// one, which has none, with its first ticket, and the next ticket after the history. The format is 2 for
/// a board with pages and a history without a send, otherwise 3.
pub fn put_trace(
    out: &mut Vec<u8>,
    processors: u8,
    pages: Option<u8>,
    first_ticket: Ticket,
    history: &[Entry],
    next_ticket: Ticket,
) -> Result<(), AllocError>
    ensures written { OnOk result
        (out.new.items ≡ out.old.items
        ++ trace_text (format_for pages history.now)
        (board_text processors pages first_ticket) history.now next_ticket) }
    ensures fits { OnOk result (All (IsEntry (format_for pages history.now)) history.now) }
{
    let format = format_for(pages, history);
    put_title(out, format)?;
    put_opening(out, processors, pages, first_ticket)?;
    put_rest(out, format, history, next_ticket)
}

/// Appends the trace of a history to `out`, in format 3: for a board whose state before the history
/// has this image, with the next ticket after the history.
pub fn put_trace_from_image(
    out: &mut Vec<u8>,
    image: &[u8],
    history: &[Entry],
    next_ticket: Ticket,
) -> Result<(), AllocError>
    ensures written { OnOk result
        (out.new.items ≡ out.old.items ++ trace_text Format.Three image.now history.now next_ticket) }
    ensures fits { OnOk result (All (IsEntry Format.Three) history.now) }
{
    put_title(out, Format::Three)?;
    out.extend_from_slice(image)?;
    put_rest(out, Format::Three, history, next_ticket)
}

/// Appends the title.
fn put_title(out: &mut Vec<u8>, format: Format) -> Result<(), AllocError>
    ensures { OnOk result (out.new.items ≡ out.old.items ++ line_of (title_fields format)) }
{
    out.extend_from_slice(match format {
        Format::One => b"trace 1\n",
        Format::Two => b"trace 2\n",
        Format::Three => b"trace 3\n",
    })
}

/// Appends the board line, of a sparse board without pages.
fn put_opening(
    out: &mut Vec<u8>,
    processors: u8,
    pages: Option<u8>,
    first_ticket: Ticket,
) -> Result<(), AllocError>
    ensures { OnOk result (out.new.items ≡ out.old.items ++ board_text processors pages first_ticket) }
{
    out.extend_from_slice(b"board ")?;
    put_decimal(out, processors)?;
    out.extend_from_slice(b" ")?;
    put_pages(out, pages)?;
    out.extend_from_slice(b" ")?;
    put_decimal(out, first_ticket)?;
    out.extend_from_slice(b"\n")
}

/// Appends the field of the pages.
fn put_pages(out: &mut Vec<u8>, pages: Option<u8>) -> Result<(), AllocError>
    ensures { OnOk result (out.new.items ≡ out.old.items ++ pages_field pages) }
{
    match pages {
        Some(pages) => put_decimal(out, pages),
        None => out.extend_from_slice(b"sparse"),
    }
}

/// Appends the entries and the end line.
fn put_rest(
    out: &mut Vec<u8>,
    format: Format,
    history: &[Entry],
    next_ticket: Ticket,
) -> Result<(), AllocError>
    ensures written { OnOk result
        (out.new.items ≡ out.old.items ++ text_of (rest_lines format history.now next_ticket)) }
    ensures fits { OnOk result (All (IsEntry Format.Three) history.now) }
{
    put_history(out, history)?;
    put_end(out, format, history.len() as u64, next_ticket)?;
    out.extend_from_slice(b"\n")
}

/// Appends the lines of each entry.
fn put_history(out: &mut Vec<u8>, history: &[Entry]) -> Result<(), AllocError>
    ensures written { OnOk result (out.new.items ≡ out.old.items ++ text_of (history_lines history.now)) }
    ensures fits { OnOk result (All (IsEntry Format.Three) history.now) }
{
    for entry in history {
        put_entry(out, entry)?;
    }
    Ok(())
}

/// Appends the two lines of an entry to `out`.
pub fn put_entry(out: &mut Vec<u8>, entry: &Entry) -> Result<(), AllocError>
    ensures written { OnOk result (out.new.items ≡ out.old.items ++ text_of (history_lines (entry.now ∷ []))) }
    ensures fits { OnOk result (IsEntry Format.Three entry.now) }
{
    put_decimal(out, entry.actor)?;
    out.extend_from_slice(b" ")?;
    put_event(out, &entry.event)?;
    out.extend_from_slice(b"\n")?;
    put_reply(out, entry.reply.copy())
}

/// Appends the end line, without a line feed: the number of entries, and in all formats but the first
/// the next ticket.
pub fn put_end(
    out: &mut Vec<u8>,
    format: Format,
    entries: u64,
    next: Ticket,
) -> Result<(), AllocError>
    ensures { OnOk result (out.new.items ≡ out.old.items ++ spaced (end_fields format entries next)) }
{
    out.extend_from_slice(b"end ")?;
    put_decimal(out, entries)?;
    match format {
        Format::One => Ok(()),
        Format::Two | Format::Three => {
            out.extend_from_slice(b" ")?;
            put_decimal(out, next)
        }
    }
}
