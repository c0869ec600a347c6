// Restoring the parts of a board that the pieces of its image state.
ghost use Rattle.std.specs.Prelude.{◌≡◌, ◌↔◌, ◌<◌, ◌≤◌, None, IsTrue, IfSome, IfOk};
ghost use Rattle.text_image.specs.declared.piece.Piece.TheVariants as piece;
ghost use Rattle.synic_board.specs.State.{processors};
ghost use Rattle.text_restore.specs.inside.Stages.{Tries};
ghost use Rattle.text_restore.specs.Restoring.{Restores, IsBlock};

use board_terms::{Kind, Message, Moment, PortShape, Sint, Ticket, TimerId, Vp};
use lapic_core::Lapic;
use std::alloc::AllocError;
use synic_board::{Draft, Reply};
use text_image::{Block, MASKED, Piece};

const ZEROS: [u8; 256] = [0; 256];

/// Restores what a piece states, if a board can have it, and returns whether it can.
pub(crate) fn restore_piece(draft: &mut Draft, piece: Piece) -> Result<bool, AllocError>
    ensures { IfOk result (λ taken. Tries taken draft.old piece draft.new) }
{
    match piece {
        Piece::Moment(moment) => Ok(restore_moment(draft, moment)),
        Piece::Lapic { vp, lapic } => Ok(restore_lapic(draft, vp, lapic)),
        Piece::Control { vp, value } => Ok(restore_control(draft, vp, value)),
        Piece::Overlay { vp, kind, value } => Ok(restore_overlay(draft, vp, kind, value)),
        Piece::Source { vp, sint, value } => Ok(restore_source(draft, vp, sint, value)),
        Piece::Guest { page, at, bytes } => Ok(restore_guest(draft, page, at, &bytes)),
        Piece::Own {
            vp,
            kind,
            at,
            bytes,
        } => Ok(restore_own(draft, vp, kind, at, &bytes)),
        Piece::Port {
            port,
            vp,
            sint,
            shape,
        } => Ok(restore_port(draft, port, vp, sint, shape)),
        Piece::Timer {
            vp,
            index,
            config,
            count,
            due,
        } => Ok(restore_timer(draft, vp, index, config, count, due)),
        Piece::Queued { vp, sint, message } => restore_message(draft, vp, sint, message),
        Piece::Slot { vp, sint, ticket } => restore_ticket(draft, vp, sint, ticket),
        Piece::End => Ok(true),
    }
}

/// The processor with a number, if it is on the board.
fn on_board(draft: &Draft, number: u8) -> Option<Vp>
    ensures some { IfSome result (λ vp. (vp ≡ number) × (number < processors draft.now)) }
    ensures none { result ≡ None → processors draft.now ≤ number }
{
    if number >= draft.processors() {
        return None;
    }
    Vp::new(number)
}

fn restore_moment(draft: &mut Draft, moment: Moment) -> bool
    ensures { Tries result draft.old (piece.Moment moment) draft.new }
{
    moment != 0 && draft.set_moment(moment)
}

fn restore_lapic(draft: &mut Draft, vp: u8, lapic: Lapic) -> bool
    ensures { Tries result draft.old (piece.Lapic vp lapic) draft.new }
{
    let Some(vp) = on_board(draft, vp) else {
        return false;
    };
    draft.set_lapic(vp, lapic);
    true
}

fn restore_control(draft: &mut Draft, vp: u8, value: u64) -> bool
    ensures { Tries result draft.old (piece.Control vp value) draft.new }
{
    let Some(vp) = on_board(draft, vp) else {
        return false;
    };
    if value == 0 {
        return false;
    }
    draft.set_control(vp, value);
    true
}

fn restore_overlay(draft: &mut Draft, vp: u8, kind: Kind, value: u64) -> bool
    ensures { Tries result draft.old (piece.Overlay vp kind value) draft.new }
{
    let Some(vp) = on_board(draft, vp) else {
        return false;
    };
    if value == 0 {
        return false;
    }
    draft.set_overlay(vp, kind, value);
    true
}

fn restore_source(draft: &mut Draft, vp: u8, sint: Sint, value: u64) -> bool
    ensures { Tries result draft.old (piece.Source vp sint value) draft.new }
{
    let Some(vp) = on_board(draft, vp) else {
        return false;
    };
    if value == MASKED {
        return false;
    }
    draft.set_source(vp, sint, value) == Reply::Done
}

/// Whether a block of a page begins at a multiple of its size, and is not all zeros.
fn is_block(at: u16, bytes: &Block) -> bool
    ensures { IsTrue result ↔ IsBlock at bytes.now.items }
{
    at < 4096 && at % 256 == 0 && bytes.as_slice() != ZEROS.as_slice()
}

fn restore_guest(draft: &mut Draft, page: u8, at: u16, bytes: &Block) -> bool
    ensures { Tries result draft.old (piece.Guest page at bytes.now) draft.new }
{
    if page >= draft.pages() || !is_block(at, bytes) {
        return false;
    }
    draft.set_guest(page, usize::from(at), bytes.as_slice());
    true
}

fn restore_own(draft: &mut Draft, vp: u8, kind: Kind, at: u16, bytes: &Block) -> bool
    ensures { Tries result draft.old (piece.Own vp kind at bytes.now) draft.new }
{
    let Some(vp) = on_board(draft, vp) else {
        return false;
    };
    if !is_block(at, bytes) {
        return false;
    }
    draft.set_own(vp, kind, usize::from(at), bytes.as_slice())
}

fn restore_port(draft: &mut Draft, port: u8, vp: u8, sint: u8, shape: PortShape) -> bool
    ensures { Tries result draft.old (piece.Port port vp sint shape) draft.new }
{
    draft.open_port(port, vp, sint, shape) == Reply::Done
}

fn restore_timer(
    draft: &mut Draft,
    vp: u8,
    index: u8,
    config: u64,
    count: u64,
    due: Option<u128>,
) -> bool
    ensures { Tries result draft.old (piece.Timer vp index config count due) draft.new }
{
    let Some(vp) = on_board(draft, vp) else {
        return false;
    };
    let Some(timer) = TimerId::new(vp, index) else {
        return false;
    };
    if config == 0 && count == 0 && due.is_none() {
        return false;
    }
    draft.set_timer(timer, config, count, due)
}

fn restore_message(
    draft: &mut Draft,
    vp: u8,
    sint: u8,
    message: Message,
) -> Result<bool, AllocError>
    ensures { IfOk result (λ taken. Tries taken draft.old (piece.Queued vp sint message) draft.new) }
{
    let Some(vp) = on_board(draft, vp) else {
        return Ok(false);
    };
    let Some(sint) = Sint::new(sint) else {
        return Ok(false);
    };
    draft.push_message(vp, sint, message)
}

fn restore_ticket(draft: &mut Draft, vp: u8, sint: u8, ticket: Ticket) -> Result<bool, AllocError>
    ensures { IfOk result (λ taken. Tries taken draft.old (piece.Slot vp sint ticket) draft.new) }
{
    let Some(vp) = on_board(draft, vp) else {
        return Ok(false);
    };
    let Some(sint) = Sint::new(sint) else {
        return Ok(false);
    };
    draft.set_ticket(vp, sint, ticket)
}
