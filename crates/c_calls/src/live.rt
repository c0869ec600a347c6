// Boards whose message and event flags pages a running guest loads and stores.
ghost use Rattle.std.specs.Prelude.{◌≡◌, ◌≢◌, ◌↔◌, ◌<◌, ◌≤◌, true, false, [], ◌∷◌, length, None, Some, IfSome, IfNone, IsTrue};
ghost use Rattle.c_handles.specs.Kinds.{IsMadeLive};
ghost use Rattle.live_board.specs.Live.{IsObserved};
ghost use Rattle.live_board.specs.Refreshing.{IsRefreshed};
ghost use Rattle.synic_board.specs.State.{processors};
ghost use Rattle.c_calls.specs.Live.{is_live, GotPages, eoms_of, IsLookedAt};
ghost use Rattle.c_calls.specs.Outcomes.{is_among};

use board_terms::{Refusal, Vp};
use c_handles::{AnyBoard, BoardHandle, LiveWithNotices};
use c_terms::{CReply, Fault, fault_to_c, reply_to_c};
use std::alloc::Global;
use synic_board::Reply;

/// Gives the board of a handle live pages, which have the bytes of its message and event flags pages.
/// Returns 0; or 2 if an allocation fails, 4 if the handle is closed, 14 if the board has live pages.
/// Allocates all memory that events need.
#[unsafe(no_mangle)]
pub extern "C" fn synicboard_make_live(alloc: Global, handle: &mut BoardHandle) -> u8
    ensures answers { is_among (0 ∷ 2 ∷ 4 ∷ 14 ∷ []) result ≡ true }
    ensures closed { (result ≡ 4) ↔ (handle.old.board ≡ None) }
    ensures live { (result ≡ 14) ↔ (is_live handle.old.board ≡ true) }
    ensures made { result ≡ 0 → GotPages handle.old.board handle.new.board }
    ensures kept { result ≢ 0 → handle.new.board ≡ handle.old.board }
{
    match handle.board_mut() {
        Some(board) => make_live(alloc, board),
        None => 4,
    }
}

/// Gives a board live pages, if it has none.
fn make_live(alloc: Global, board: &mut AnyBoard) -> u8
    ensures answers { is_among (0 ∷ 2 ∷ 14 ∷ []) result ≡ true }
    ensures live { (result ≡ 14) ↔ (is_live (Some board.old) ≡ true) }
    ensures made { result ≡ 0 → IsMadeLive board.old board.new }
    ensures kept { result ≢ 0 → board.new ≡ board.old }
{
    if is_live(board) {
        return 14;
    }
    match board.make_live(alloc) {
        Ok(()) => 0,
        Err(_) => 2,
    }
}

fn is_live(board: &AnyBoard) -> bool
    ensures { result ≡ is_live (Some board.now) }
{
    matches!(board, AnyBoard::Live(_))
}

/// The processors of which the board performed an EOM after the last event, since a message waited whose slot
/// the guest had emptied: bit p for processor p. None of a board without live pages.
#[unsafe(no_mangle)]
pub extern "C" fn synicboard_eoms(handle: &mut BoardHandle) -> u64
    ensures board { handle.new.board ≡ handle.old.board }
    ensures eoms { result ≡ eoms_of handle.old.board }
{
    match handle.board_mut() {
        Some(board) => board.eoms(),
        None => 0,
    }
}

/// Looks at the header of each message slot of processor `vp` in its live page, if the guest sees it: the
/// notices are those of the messages that the guest has consumed since the last look. Done; refused if
/// there is no such processor.
#[unsafe(no_mangle)]
pub extern "C" fn synicboard_observe(handle: &mut BoardHandle, vp: u8) -> CReply
    ensures { IsLookedAt IsObserved vp handle.old.board handle.new.board result }
{
    match handle.board_mut() {
        Some(board) => observe_in(board, vp),
        None => fault_to_c(Fault::Closed),
    }
}

fn observe_in(board: &mut AnyBoard, vp: u8) -> CReply
    ensures { IsLookedAt IsObserved vp (Some board.old) (Some board.new) result }
{
    let AnyBoard::Live(board) = board else {
        return fault_to_c(Fault::NotLive);
    };
    let Some(vp) = vp_of(board, vp) else {
        return reply_to_c(Reply::Refused(Refusal::NoSuchProcessor), 0);
    };
    board.observe(vp);
    reply_to_c(Reply::Done, board.notices.as_slice().len() as u16)
}

/// Looks at all words of both live pages of processor `vp` that the guest sees: the board's own pages have
/// what the guest has stored. Done; refused if there is no such processor.
#[unsafe(no_mangle)]
pub extern "C" fn synicboard_observe_all(handle: &mut BoardHandle, vp: u8) -> CReply
    ensures { IsLookedAt IsRefreshed vp handle.old.board handle.new.board result }
{
    match handle.board_mut() {
        Some(board) => observe_all_in(board, vp),
        None => fault_to_c(Fault::Closed),
    }
}

fn observe_all_in(board: &mut AnyBoard, vp: u8) -> CReply
    ensures { IsLookedAt IsRefreshed vp (Some board.old) (Some board.new) result }
{
    let AnyBoard::Live(board) = board else {
        return fault_to_c(Fault::NotLive);
    };
    let Some(vp) = vp_of(board, vp) else {
        return reply_to_c(Reply::Refused(Refusal::NoSuchProcessor), 0);
    };
    board.refresh(vp);
    reply_to_c(Reply::Done, board.notices.as_slice().len() as u16)
}

/// A processor, if it is on the board.
fn vp_of(board: &LiveWithNotices, vp: u8) -> Option<Vp>
    ensures some { IfSome result (λ p. (p ≡ vp) × (vp < processors board.now.live.board.state)) }
    ensures none { IfNone result (processors board.now.live.board.state ≤ vp) }
{
    let held = board.live.board();
    held.facts();
    if vp < held.processors() {
        Vp::new(vp)
    } else {
        None
    }
}

/// Whether the board of a handle has live pages.
#[unsafe(no_mangle)]
pub extern "C" fn synicboard_is_live(handle: &mut BoardHandle) -> bool
    ensures board { handle.new.board ≡ handle.old.board }
    ensures live { result ≡ is_live handle.old.board }
{
    match handle.board_mut() {
        Some(board) => is_live(board),
        None => false,
    }
}
