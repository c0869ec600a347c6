// Inspecting timers and slots.
ghost use Rattle.std.specs.Prelude.{◌≡◌};
ghost use Rattle.c_calls.specs.Inspected.{timer_to_c, no_timer, timer_on, timer_at, slot_on, slot_at, StoresTicket};

use board_terms::{Sint, Ticket, TimerId, Vp};
use c_handles::BoardHandle;
use synic_board::Board;

/// A timer of a processor: STIMERn_CONFIG and STIMERn_COUNT, and its deadline, even while the processor
/// is suspended: if `is_due`, the timer is due at high * 2^64 + low. All 0 if there is no such timer or
/// no board.
#[repr(C)]
#[derive(Clone, Copy, PartialEq)]
pub struct CTimer {
    pub is_due: bool,
    pub config: u64,
    pub count: u64,
    pub low: u64,
    pub high: u64,
}

/// A timer of a processor.
#[unsafe(no_mangle)]
pub extern "C" fn synicboard_timer(handle: &mut BoardHandle, vp: u8, index: u8) -> CTimer
    ensures board { handle.new.board ≡ handle.old.board }
    ensures timer { result ≡ timer_at handle.old.board vp index }
{
    match handle.board_mut() {
        Some(board) => timer_of_board(board.board(), vp, index),
        None => nothing(),
    }
}

fn timer_of_board(board: &Board, vp: u8, index: u8) -> CTimer
    ensures { result ≡ timer_on board.now.state vp index }
{
    if vp >= board.processors() {
        return nothing();
    }
    let Some(vp) = Vp::new(vp) else {
        return nothing();
    };
    let Some(timer) = TimerId::new(vp, index) else {
        return nothing();
    };
    let (config, count, due) = board.timer(timer);
    encoded(config, count, due)
}

/// No timer.
fn nothing() -> CTimer
    ensures { result ≡ no_timer }
{
    CTimer {
        is_due: false,
        config: 0,
        count: 0,
        low: 0,
        high: 0,
    }
}

fn encoded(config: u64, count: u64, due: Option<u128>) -> CTimer
    ensures { result ≡ timer_to_c (record { config = config; count = count; due = due }) }
{
    let is_due = due.is_some();
    let deadline = due.unwrap_or(0);
    CTimer {
        is_due,
        config,
        count,
        low: (deadline % (1 << 64)) as u64,
        high: (deadline / (1 << 64)) as u64,
    }
}

/// Stores the ticket of the message in the slot of a source, and returns whether the slot holds one. If
/// not, or if there is no such source or no board, `ticket` is unchanged.
#[unsafe(no_mangle)]
pub extern "C" fn synicboard_slot(
    handle: &mut BoardHandle,
    vp: u8,
    sint: u8,
    ticket: &mut u64,
) -> bool
    ensures board { handle.new.board ≡ handle.old.board }
    ensures slot { StoresTicket (slot_at handle.old.board vp sint) result ticket.old ticket.new }
{
    let held = match handle.board_mut() {
        Some(board) => slot_of_board(board.board(), vp, sint),
        None => None,
    };
    match held {
        Some(held) => {
            *ticket = held;
            true
        }
        None => false,
    }
}

fn slot_of_board(board: &Board, vp: u8, sint: u8) -> Option<Ticket>
    ensures { result ≡ slot_on board.now.state vp sint }
{
    if vp >= board.processors() {
        return None;
    }
    let Some(vp) = Vp::new(vp) else {
        return None;
    };
    let Some(sint) = Sint::new(sint) else {
        return None;
    };
    board.slot_ticket(vp, sint)
}
