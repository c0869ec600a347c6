// Passes words that the host found to the board, as stores of the guest.
ghost use Rattle.std.specs.Prelude.{◌≡◌, ◌≢◌, ◌<◌, ◌↔◌, ◌^◌, IsTrue, length};
ghost use Rattle.board_terms.specs.declared.pages.Owner.TheVariants.{Nothing};
ghost use Rattle.gpa_space.specs.Space.{overlay_of, owner_of};
ghost use Rattle.synic_board.specs.State.{processors, space_of};
ghost use Rattle.live_pages.specs.Words.{known};
ghost use Rattle.live_board.specs.Live.{number_at, IsShown};
ghost use Rattle.live_board.specs.Words.{word_of};
ghost use Rattle.live_board.specs.inside.Parts.{IsPassedOn, IsLook, IsMark};

use crate::words::word_at;
use board_terms::{Kind, Notices, Owner, Vp};
use live_pages::LivePage;
use synic_board::Board;
use synic_regs::Register;

/// The page number in the register of an overlay.
#[inline(always)]
fn number(board: &Board, vp: Vp, kind: Kind) -> u64
    requires { vp < processors board.now.state }
    ensures value { result ≡ number_at board.now.state vp kind }
    ensures range { result < 2 ^ 52 }
{
    let register = match kind {
        Kind::Sim => board.register(vp, Register::Sim),
        Kind::Sief => board.register(vp, Register::Sief),
    };
    register / 4096
}

/// Whether a guest sees the own page of an overlay at a page number. For a page that the board holds the
/// summary answers, in fewer steps than the space.
#[inline(always)]
fn is_seen(board: &Board, page: u64, owner: Owner) -> bool
    requires { owner ≢ Nothing }
    ensures { IsTrue result ↔ (owner_of (space_of board.now.state) page ≡ owner) }
{
    board.summary().owner(page) == owner || board.owner(page) == owner
}

/// Whether a guest sees an overlay at the page number in its register.
#[inline(always)]
pub(crate) fn is_shown(board: &Board, vp: Vp, kind: Kind) -> bool
    requires { vp < processors board.now.state }
    ensures { IsTrue result ↔ IsShown board.now.state vp kind }
{
    let owner = match kind {
        Kind::Sim => Owner::Sim(vp),
        Kind::Sief => Owner::Sief(vp),
    };
    is_seen(board, number(board, vp, kind), owner)
}

/// A word, 0 to 511, of an own page of the board.
#[inline(always)]
pub(crate) fn own_word(board: &Board, vp: Vp, kind: Kind, word: usize) -> u64
    requires on { vp < processors board.now.state }
    requires word { word < 512 }
    ensures { result ≡ word_of board.now.state (overlay_of vp kind) word }
{
    board.facts();
    let Some(page) = board.own_page(vp, kind) else {
        unreachable!()
    };
    word_at(page, 8 * word)
}

/// Passes a word, 0 to 511, of an own page to the board as a store of the guest, where the board has
/// another value. Appends the notices of the store to those that are there, with the help of a second
/// list. Out of line: most words are what the board has.
#[cold]
#[inline(never)]
fn store_found(
    board: &mut Board,
    vp: Vp,
    kind: Kind,
    word: usize,
    value: u64,
    scratch: &mut Notices,
    notices: &mut Notices,
)
    requires on { vp < processors board.old.state }
    requires word { word < 512 }
    requires shown { IsShown board.old.state vp kind }
    requires other { value ≢ word_of board.old.state (overlay_of vp kind) word }
    requires capacity { length notices.old < 320 }
    ensures { IsPassedOn board.old.state vp kind word value board.new.state notices.old notices.new }
{
    board.facts();
    let address = number(board, vp, kind) * 4096 + 8 * word as u64;
    let bytes = value.to_le_bytes();
    board.store(address, &bytes, scratch);
    if let Some(notice) = scratch.as_slice().first() {
        notices.push(*notice);
    }
}

/// The same, if the board has another value there.
#[inline(always)]
pub(crate) fn pass(
    board: &mut Board,
    vp: Vp,
    kind: Kind,
    word: usize,
    value: u64,
    scratch: &mut Notices,
    notices: &mut Notices,
)
    requires on { vp < processors board.old.state }
    requires word { word < 512 }
    requires shown { IsShown board.old.state vp kind }
    requires capacity { length notices.old < 320 }
    ensures { IsPassedOn board.old.state vp kind word value board.new.state notices.old notices.new }
{
    if own_word(board, vp, kind, word) != value {
        store_found(board, vp, kind, word, value, scratch, notices);
    }
}

/// Loads a word, 0 to 511, of a live page that the guest sees, and passes it to the board.
#[inline(always)]
pub(crate) fn look(
    board: &mut Board,
    page: &mut LivePage,
    vp: Vp,
    kind: Kind,
    word: usize,
    scratch: &mut Notices,
    notices: &mut Notices,
) -> u64
    requires on { vp < processors board.old.state }
    requires word { word < 512 }
    requires shown { IsShown board.old.state vp kind }
    requires known { known page.old.log word ≡ word_of board.old.state (overlay_of vp kind) word }
    requires capacity { length notices.old < 320 }
    ensures look { IsLook board.old.state vp kind word page.old.log board.new.state page.new.log result notices.old
        notices.new }
    ensures name { page.new.name ≡ page.old.name }
{
    let found = page.load(word);
    pass(board, vp, kind, word, found, scratch, notices);
    found
}

/// Sets the bits of a mask in a word, 0 to 511, of a live page that the guest sees, and passes the
/// word that was there to the board.
#[inline(always)]
pub(crate) fn mark(
    board: &mut Board,
    page: &mut LivePage,
    vp: Vp,
    kind: Kind,
    word: usize,
    mask: u64,
    scratch: &mut Notices,
    notices: &mut Notices,
) -> u64
    requires on { vp < processors board.old.state }
    requires word { word < 512 }
    requires shown { IsShown board.old.state vp kind }
    requires known { known page.old.log word ≡ word_of board.old.state (overlay_of vp kind) word }
    requires capacity { length notices.old < 320 }
    ensures mark { IsMark board.old.state vp kind word mask page.old.log board.new.state page.new.log result notices.old
        notices.new }
    ensures name { page.new.name ≡ page.old.name }
{
    let found = page.fetch_or(word, mask);
    pass(board, vp, kind, word, found, scratch, notices);
    found
}
