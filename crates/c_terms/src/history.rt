// The trace of a history.
ghost use Rattle.std.specs.Prelude.{◌≡◌, length, IfOk};
ghost use Rattle.text_history.specs.Trace.{IsTrace};
ghost use Rattle.c_handles.specs.Histories.{end_of};
ghost use Rattle.c_terms.specs.Entries.{trace_of};

use board_terms::Ticket;
use c_handles::History;
use std::alloc::{AllocError, Global};
use text_history::put_trace;

/// The trace of a history, in format 2, or in format 3 if it has a send. It is legal, with as many
/// entries as the history.
/// `next_ticket` is that of the board to which the history leads.
pub fn trace_of(
    alloc: Global,
    history: &History,
    next_ticket: Ticket,
) -> Result<Vec<u8>, AllocError>
    requires { next_ticket ≡ (end_of history.now).next_ticket }
    ensures written { IfOk result (λ text. text.items ≡ trace_of history.now) }
    ensures legal { IfOk result (λ _. IsTrace (trace_of history.now) (length history.now.entries)) }
{
    let (processors, pages) = (history.processors(), history.pages());
    let entries = history.to_entries(alloc)?;
    let mut text = Vec::new(alloc);
    put_trace(
        &mut text,
        processors,
        Some(pages),
        history.first_ticket(),
        entries.as_slice(),
        next_ticket,
    )?;
    Ok(text)
}
