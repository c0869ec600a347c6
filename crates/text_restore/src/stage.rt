// The stages of a restore: which line of the image comes next. A text with an image in it is read
// with these calls, line by line; `restore` reads a whole input.
ghost use Rattle.std.specs.Prelude.{◌≡◌, [], IfOk, IfSome, Some, None};
ghost use Rattle.text_lines.specs.Items.{Opening};
ghost use Rattle.text_lines.specs.Reading.{item_at};
ghost use Rattle.text_driver.specs.Judging.{Judges};
ghost use Rattle.text_restore.specs.Restoring.{Untitled, Titled, Body};
ghost use Rattle.text_restore.specs.Taking.{stage_of, IsGood, IsWrong, has_ended, IsBoardOf};
ghost use Rattle.text_restore.specs.inside.Stages.{OpensNone, Takes};

use crate::order::{END, is_in_turn, is_later, lapics_after, rank_of};
use crate::parts::restore_piece;
use board_terms::Ticket;
use std::alloc::{AllocError, Global};
use synic_board::{Board, Draft, OpenFault};
use text_base::{Fields, is_word};
use text_driver::Taken;
use text_image::{Piece, piece_of};
use text_lines::opening_of;

/// What was read of an image. A reader begins with `Untitled`.
#[derive(Drop)]
pub enum Stage {
    /// Nothing.
    Untitled,
    /// The title.
    Titled,
    /// The board line and some pieces: the board, the rank of the last piece, and how many local
    /// APICs the pieces have.
    Body { draft: Draft, last: u64, lapics: u8 },
}

/// Takes a line of an image, without its line feed: `Good` if it may come next, otherwise `Wrong`, or
/// `Memory` if an allocation failed; after these two the stage is unspecified. Opens the board at the
/// board line, and allocates 8 bytes for each message. The caller refuses lines of more than 640 bytes.
pub fn take_line(alloc: Global, stage: &mut Stage, line: &[u8]) -> Taken<()>
    ensures { Judges IsGood IsWrong result (stage_of stage.old) (stage_of stage.new) line.now [] }
{
    match stage {
        Stage::Untitled => take_title(stage, line),
        Stage::Titled => take_opening(alloc, stage, line),
        Stage::Body {
            draft,
            last,
            lapics,
        } => take_body(draft, last, lapics, line),
    }
}

/// Whether the end of the image was read. No line may come after it.
pub fn has_ended(stage: &Stage) -> bool
    ensures { result ≡ has_ended (stage_of stage.now) }
{
    match stage {
        Stage::Body { last, .. } => *last == END,
        Stage::Untitled | Stage::Titled => false,
    }
}

/// The board of a complete image. `None` if the end was not read.
pub fn board_of(stage: Stage) -> Option<Board>
    ensures { IsBoardOf result (stage_of stage) }
{
    match stage {
        Stage::Body { draft, last, .. } if last == END => Some(draft.finish()),
        _ => None,
    }
}

fn take_title(stage: &mut Stage, line: &[u8]) -> Taken<()>
    requires { stage_of stage.old ≡ Untitled }
    ensures { Judges IsGood IsWrong result (stage_of stage.old) (stage_of stage.new) line.now [] }
{
    if line != b"image 1".as_slice() {
        return Taken::Wrong(());
    }
    *stage = Stage::Titled;
    Taken::Good
}

fn take_opening(alloc: Global, stage: &mut Stage, line: &[u8]) -> Taken<()>
    requires { stage_of stage.old ≡ Titled }
    ensures { Judges IsGood IsWrong result (stage_of stage.old) (stage_of stage.new) line.now [] }
{
    let Some((processors, pages, ticket)) = sizes_of(line) else {
        return Taken::Wrong(());
    };
    match Draft::open(alloc, processors, pages, ticket) {
        Ok(draft) => {
            *stage = Stage::Body {
                draft,
                last: 0,
                lapics: 0,
            };
            Taken::Good
        }
        Err(OpenFault::BadSize) => Taken::Wrong(()),
        Err(OpenFault::Memory) => Taken::Memory,
    }
}

/// The processors, the pages and the next ticket of a board line with a number of pages.
fn sizes_of(line: &[u8]) -> Option<(u8, u8, Ticket)>
    ensures some { IfSome result (λ sizes. item_at line.now ≡ Some (Opening sizes.0 (Some sizes.1) sizes.2)) }
    ensures none { result ≡ None → OpensNone line.now }
{
    let mut fields = Fields::new(line);
    let Some(word) = fields.next() else {
        return None;
    };
    if !is_word(word, b"board") {
        return None;
    }
    let Some((processors, pages, ticket)) = opening_of(&mut fields) else {
        return None;
    };
    let Some(pages) = pages else {
        return None;
    };
    Some((processors, pages, ticket))
}

/// Takes a line after the board line.
fn take_body(draft: &mut Draft, last: &mut u64, lapics: &mut u8, line: &[u8]) -> Taken<()>
    ensures { Judges IsGood IsWrong result (Body draft.old last.old lapics.old)
        (Body draft.new last.new lapics.new) line.now [] }
{
    let Some(piece) = piece_of(line) else {
        return Taken::Wrong(());
    };
    match take_piece(draft, last, lapics, piece) {
        Ok(true) => Taken::Good,
        Ok(false) => Taken::Wrong(()),
        Err(_) => Taken::Memory,
    }
}

/// Takes a piece, if it may come next, and returns whether it may.
fn take_piece(
    draft: &mut Draft,
    last: &mut u64,
    lapics: &mut u8,
    piece: Piece,
) -> Result<bool, AllocError>
    ensures { IfOk result (λ taken. Takes taken draft.old last.old lapics.old piece draft.new last.new lapics.new) }
{
    if !is_later(*last, &piece) || !is_in_turn(draft.processors(), *lapics, &piece) {
        return Ok(false);
    }
    let rank = rank_of(&piece);
    let after = lapics_after(*lapics, &piece);
    if !restore_piece(draft, piece)? {
        return Ok(false);
    }
    *last = rank;
    *lapics = after;
    Ok(true)
}
