// Parses a board line, and opens its board.
ghost use Rattle.std.specs.Prelude.{◌≡◌, ◌↔◌, IfOk, IsErrOf};
ghost use Rattle.text_lines.specs.Reading.{parse_opening};
ghost use Rattle.text_lines.specs.Sizes.{AreBoardSizes, opened_by};
ghost use Rattle.text_lines.specs.inside.Pages.{TakesPages};

use crate::numbers::{u8_of, u64_of};
use board_terms::Ticket;
use std::alloc::Global;
use synic_board::{Board, OpenFault};
use text_base::{Fields, decimal_of, is_word};

/// The processors, the pages and the first ticket of a board line, from the fields after its first
/// word. A sparse board has no pages.
pub fn opening_of(fields: &mut Fields<'_>) -> Option<(u8, Option<u8>, Ticket)>
    ensures { result ≡ parse_opening fields.old }
{
    let processors = u8_of(fields)?;
    let pages = pages_of(fields)?;
    let ticket = u64_of(fields)?;
    if !fields.is_empty() {
        return None;
    }
    Some((processors, pages, ticket))
}

/// A number of pages, or `sparse` for none.
fn pages_of(fields: &mut Fields<'_>) -> Option<Option<u8>>
    ensures { TakesPages result fields.old fields.new }
{
    let field = fields.next()?;
    if is_word(field, b"sparse") {
        return Some(None);
    }
    let pages = decimal_of(field, u64::from(u8::MAX))?;
    Some(Some(pages as u8))
}

/// Opens the board of a board line: with that many guest pages, or a sparse one. `BadSize` unless
/// the sizes are within the limits.
pub fn open_board(
    alloc: Global,
    processors: u8,
    pages: Option<u8>,
    first_ticket: Ticket,
) -> Result<Board, OpenFault>
    ensures size { IsErrOf result OpenFault.BadSize ↔ (¬ AreBoardSizes processors pages) }
    ensures opened { IfOk result (λ b. b.state ≡ opened_by processors pages first_ticket) }
{
    match pages {
        Some(pages) => Board::open(alloc, processors, pages, first_ticket),
        None => Board::open_sparse(alloc, processors, first_ticket),
    }
}
