// An event at a time, and what the host has to do after it.
ghost use Rattle.std.specs.Prelude.{◌≡◌, ◌<◌, ◌≤◌, ◌==◌, ◌&&◌, ℕ, not, nat_lt, List, length, map, Some, IfSome, IfNone, None};
ghost use Rattle.std.specs.Int.{bit_at};
ghost use Rattle.board_terms.specs.declared.notices.Notice.{Notice as OfBoard};
ghost use Rattle.c_handles.specs.Kinds.{state_in};
ghost use Rattle.c_terms.specs.Events.{event_from_c};
ghost use Rattle.c_terms.specs.Notices.{notice_to_c};
ghost use Rattle.c_terms.specs.Rooms.{Fronts};
ghost use Rattle.c_calls.specs.Inspected.{no_eoi_required_at};
ghost use Rattle.c_calls.specs.Looks.{alarm_of};
ghost use Rattle.c_calls.specs.Stepping.{IsAdvanced, IsStep, IsStepped, has_next, AreNextBits, AreEndBits};

use crate::events::perform_struct;
use crate::inspect::synicboard_no_eoi_required;
use crate::looks::{CAlarm, synicboard_alarm};
use crate::views::with_bit;
use board_terms::Vp;
use c_handles::{AnyBoard, BoardHandle};
use c_terms::{CEvent, CNotice, CReply, Fault, fault_to_c, put_more, put_plain, reply_to_c};
use synic_board::{Board, Event};

/// What became of an event, and what the host has to do next.
#[repr(C)]
#[derive(Clone, Copy)]
pub struct CAnswer {
    /// The reply to the event; its `notices` are those of the event alone.
    pub reply: CReply,
    /// How many notices the clock and the event emitted.
    pub notices: usize,
    /// The processors of which the board performed an EOM after it moved the clock: bit p for processor p.
    pub clock_eoms: u64,
    /// The same after the event.
    pub eoms: u64,
    /// The processors that have a next vector: bit p for processor p.
    pub next: u64,
    /// Those of the processors in `assisted` of which an EOI is required.
    pub end_assist: u64,
    /// When the host must tick next.
    pub alarm: CAlarm,
}

/// What became of an event.
struct Stepped {
    reply: CReply,
    notices: usize,
    clock_eoms: u64,
    eoms: u64,
}

/// Moves the clock to `now`, if that is later than the present time, and performs an event, if `plain` encodes
/// one. Copies the notices of both, in order, as many as fit. `assisted` has the processors in whose
/// assist pages the host has set "No EOI required" (TLFS, "EOI Assist").
#[unsafe(no_mangle)]
pub extern "C" fn synicboard_step(
    handle: &mut BoardHandle,
    now: u64,
    plain: &CEvent,
    assisted: u64,
    room: &mut [CNotice],
) -> CAnswer
    ensures stepped { IsStepped now (event_from_c plain.now) handle.old.board handle.new.board result.reply
        result.notices result.clock_eoms result.eoms room.old room.new }
    ensures next { AreNextBits handle.new.board result.next }
    ensures ends { AreEndBits handle.new.board assisted result.end_assist }
    ensures alarm { result.alarm ≡ alarm_of handle.new.board }
{
    let Stepped {
        reply,
        notices,
        clock_eoms,
        eoms,
    } = step_on(handle, now, plain, room);
    CAnswer {
        reply,
        notices,
        clock_eoms,
        eoms,
        next: synicboard_next_bits(handle),
        end_assist: end_bits(handle, assisted),
        alarm: synicboard_alarm(handle),
    }
}

fn step_on(handle: &mut BoardHandle, now: u64, plain: &CEvent, room: &mut [CNotice]) -> Stepped
    ensures { IsStepped now (event_from_c plain.now) handle.old.board handle.new.board result.reply
        result.notices result.clock_eoms result.eoms room.old room.new }
{
    match handle.board_mut() {
        Some(board) => step_in(board, now, plain, room),
        None => Stepped {
            reply: fault_to_c(Fault::Closed),
            notices: 0,
            clock_eoms: 0,
            eoms: 0,
        },
    }
}

fn step_in(board: &mut AnyBoard, now: u64, plain: &CEvent, room: &mut [CNotice]) -> Stepped
    ensures { IsStep now (event_from_c plain.now) board.old board.new result.reply
        result.notices result.clock_eoms result.eoms room.old room.new }
{
    let (count, clock_eoms) = advance(board, now, room);
    let Some(reply) = perform_struct(board, plain) else {
        return Stepped {
            reply: fault_to_c(Fault::NoEvent),
            notices: count,
            clock_eoms,
            eoms: 0,
        };
    };
    let given = board.notices();
    put_more(given, count, room);
    let emitted = given.len();
    Stepped {
        reply: reply_to_c(reply, emitted as u16),
        notices: count + emitted,
        clock_eoms,
        eoms: board.eoms(),
    }
}

/// Moves the clock of a board, if the time is later, and copies its notices. Returns how many there are, and
/// of which processors the board performed an EOM.
fn advance(board: &mut AnyBoard, now: u64, room: &mut [CNotice]) -> (usize, u64)
    ensures { (first : List OfBoard)
        × IsAdvanced (nat_lt (state_in board.old).moment now) now board.old board.new first result.1
        × (result.0 ≡ length first) × (result.0 ≤ 22720) × Fronts (map notice_to_c first) room.old room.new }
{
    if now <= board.board().moment() {
        return (0, 0);
    }
    let _ = board.perform(&Event::Tick { moment: now });
    let given = board.notices();
    put_plain(given, room);
    (given.len(), board.eoms())
}

/// The processors that have a next vector: bit p for processor p. 0 if there is no board.
#[unsafe(no_mangle)]
pub extern "C" fn synicboard_next_bits(handle: &mut BoardHandle) -> u64
    ensures board { handle.new.board ≡ handle.old.board }
    ensures next { AreNextBits handle.old.board result }
{
    match handle.board_mut() {
        Some(board) => next_bits(board.board()),
        None => 0,
    }
}

fn next_bits(board: &Board) -> u64
    ensures { (p : ℕ) → p < 64 → (bit_at result p == 1) ≡ has_next board.now.state p }
{
    let summary = board.summary();
    let mut bits = 0;
    for number in 0..board.processors() {
        let Some(vp) = Vp::new(number) else {
            unreachable!()
        };
        bits = with_bit(bits, number, summary.next(vp).is_some());
    }
    bits
}

/// Those of some processors of which an EOI is required: bit p for processor p.
fn end_bits(handle: &mut BoardHandle, assisted: u64) -> u64
    ensures board { handle.new.board ≡ handle.old.board }
    ensures ends { AreEndBits handle.old.board assisted result }
{
    let mut bits = 0;
    if assisted == 0 {
        return bits;
    }
    for vp in 0..64u8 {
        bits = with_bit(bits, vp, must_end(handle, assisted, vp));
    }
    bits
}

fn must_end(handle: &mut BoardHandle, assisted: u64, vp: u8) -> bool
    requires { vp < 64 }
    ensures board { handle.new.board ≡ handle.old.board }
    ensures end { result ≡ ((bit_at assisted vp == 1) && not (no_eoi_required_at handle.old.board vp)) }
{
    (assisted >> vp) & 1 == 1 && !synicboard_no_eoi_required(handle, vp)
}
