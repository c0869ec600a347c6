// The guest pages, and the message and event flags pages, visible or not.
ghost use Rattle.std.specs.Prelude.{◌≡◌, ◌<◌, ◌*◌, ◌++◌, ◌∷◌, [], ◌==◌, OnOk, length};
ghost use Rattle.text_lines.specs.Printing.{text_of};
ghost use Rattle.text_base.specs.Numbers.{hex, spelled};
ghost use Rattle.text_base.specs.Fields.{spaced, line_of};
ghost use Rattle.gpa_space.specs.Space.{overlay_of};
ghost use Rattle.synic_board.specs.State.{processors};
ghost use Rattle.text_image.specs.Image.{each_below, name_fields, kind_word, block_line, page_lines, guest_lines, own_page_lines, own_lines};

use crate::numbers::vp_of;
use board_terms::{Kind, Vp};
use synic_board::Board;
use text_base::{Sink, put_bytes};
use text_lines::{put_decimal_field, put_hex_field};

/// The number of bytes of a line, and of lines of a page.
const BLOCK: usize = 256;

const BLOCKS: usize = 16;

const ZEROS: [u8; BLOCK] = [0; BLOCK];

/// What a page is: a guest page by its number, or the page of a processor.
#[derive(Clone, Copy)]
pub(crate) enum PageName {
    Guest(u8),
    Own(Vp, Kind),
}

/// Appends the guest pages.
pub(crate) fn put_guest_pages<S: Sink>(out: &mut S, board: &Board) -> Result<(), S::Error>
    ensures { OnOk result (S.text out.new
        ≡ S.text out.old ++ text_of (each_below (length board.now.state.pages) (guest_lines board.now.state))) }
{
    for number in 0..board.pages() {
        put_guest_page(out, board, number)?;
    }
    Ok(())
}

/// Appends a guest page.
fn put_guest_page<S: Sink>(out: &mut S, board: &Board, number: u8) -> Result<(), S::Error>
    requires { number < length board.now.state.pages }
    ensures { OnOk result (S.text out.new ≡ S.text out.old ++ text_of (guest_lines board.now.state number)) }
{
    match board.guest_page(u64::from(number)) {
        Some(page) => put_page(out, &PageName::Guest(number), page),
        None => unreachable!(),
    }
}

/// Appends the pages of the processors.
pub(crate) fn put_own_pages<S: Sink>(out: &mut S, board: &Board) -> Result<(), S::Error>
    ensures { OnOk result (S.text out.new
        ≡ S.text out.old ++ text_of (each_below (processors board.now.state) (own_lines board.now.state))) }
{
    for number in 0..board.processors() {
        let vp = vp_of(number);
        put_own_pages_of(out, board, vp)?;
    }
    Ok(())
}

/// Appends both pages of a processor.
fn put_own_pages_of<S: Sink>(out: &mut S, board: &Board, vp: Vp) -> Result<(), S::Error>
    requires { vp < processors board.now.state }
    ensures { OnOk result (S.text out.new ≡ S.text out.old ++ text_of (own_lines board.now.state vp)) }
{
    board.facts();
    put_own_page(out, board, vp, Kind::Sim)?;
    put_own_page(out, board, vp, Kind::Sief)
}

/// Appends a page of a processor.
fn put_own_page<S: Sink>(out: &mut S, board: &Board, vp: Vp, kind: Kind) -> Result<(), S::Error>
    requires { overlay_of vp kind < length board.now.state.own }
    ensures { OnOk result (S.text out.new ≡ S.text out.old ++ text_of (own_page_lines board.now.state vp kind)) }
{
    match board.own_page(vp, kind) {
        Some(page) => put_page(out, &PageName::Own(vp, kind), page),
        None => unreachable!(),
    }
}

/// Appends the blocks of a page that are not zeros.
fn put_page<S: Sink>(out: &mut S, name: &PageName, page: &[u8]) -> Result<(), S::Error>
    requires { length page.now ≡ 4096 }
    ensures { OnOk result (S.text out.new ≡ S.text out.old ++ text_of (page_lines name.now page.now)) }
{
    for block in 0..BLOCKS {
        let at = BLOCK * block;
        put_block(out, name, at, &page[at..at + BLOCK])?;
    }
    Ok(())
}

/// Appends a block of a page, unless it is zeros.
fn put_block<S: Sink>(out: &mut S, name: &PageName, at: usize, bytes: &[u8]) -> Result<(), S::Error>
    ensures { OnOk result (S.text out.new ≡ S.text out.old ++ text_of (block_line name.now at bytes.now)) }
{
    if bytes == ZEROS.as_slice() {
        return Ok(());
    }
    put_block_line(out, name, at, bytes)
}

/// Appends a block of a page.
fn put_block_line<S: Sink>(
    out: &mut S,
    name: &PageName,
    at: usize,
    bytes: &[u8],
) -> Result<(), S::Error>
    ensures { OnOk result (S.text out.new
        ≡ S.text out.old ++ line_of (name_fields name.now ++ (hex at ∷ spelled bytes.now ∷ []))) }
{
    put_name(out, name)?;
    put_hex_field(out, at as u64)?;
    out.put(b" ")?;
    put_bytes(out, bytes)?;
    out.put(b"\n")
}

/// Appends the name of a page.
fn put_name<S: Sink>(out: &mut S, name: &PageName) -> Result<(), S::Error>
    ensures { OnOk result (S.text out.new ≡ S.text out.old ++ spaced (name_fields name.now)) }
{
    match name {
        PageName::Guest(number) => {
            out.put(b"page")?;
            put_decimal_field(out, u64::from(*number))
        }
        PageName::Own(vp, kind) => {
            out.put(b"own")?;
            put_decimal_field(out, u64::from(vp.number()))?;
            put_kind(out, *kind)
        }
    }
}

/// Appends which page of a processor it is.
fn put_kind<S: Sink>(out: &mut S, kind: Kind) -> Result<(), S::Error>
    ensures { OnOk result (S.text out.new ≡ S.text out.old ++ 32 ∷ kind_word kind) }
{
    match kind {
        Kind::Sim => out.put(b" sim"),
        Kind::Sief => out.put(b" sief"),
    }
}
