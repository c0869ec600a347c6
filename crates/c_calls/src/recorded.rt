// A board with its history, as `c/shared.c` calls it under its lock.
ghost use Rattle.std.specs.Prelude.{◌≡◌, ◌≢◌, ◌<◌, ◌↔◌, true, IsSome, None, Some};
ghost use Rattle.synic_board.specs.State.{AreSizes};
ghost use Rattle.c_handles.specs.Recorded.{both, recorded_of, IsNewlyRecorded};
ghost use Rattle.c_handles.specs.inside.Leading.{LeadsTo};
ghost use Rattle.c_terms.specs.Events.{event_from_c};
ghost use Rattle.c_calls.specs.Recorded.{buffer, absorb_by, IsActed, IsActedAbsorb, IsSettledTrace};

use c_handles::{
    AnyBoard, BoardHandle, History, HistoryHandle, LineHandle, OwnedLine, RecordedHandle,
};
use c_terms::{
    CEvent, CNotice, CReply, Fault, event_of, fault_to_c, put_bytes, put_plain, reply_to_c,
    trace_of,
};
use std::alloc::Global;
use std::mem::replace;
use synic_board::OpenFault;

/// The result of writing a history. `kind` is 0 for the trace of a legal history of `entries`
/// entries, 2 if an allocation failed, and 4 if the handle is closed. `line` is 0. `length` is the
/// length of the whole trace, or 0.
#[repr(C)]
#[derive(Clone, Copy)]
pub struct CSettled {
    pub kind: u8,
    pub entries: u64,
    pub line: u64,
    pub length: usize,
}

/// Opens a board of that many processors and guest pages at time 0, with an empty history, in a
/// closed handle. The first message that it accepts gets the ticket `first_ticket`. Returns 0; or 1
/// unless there are 1 to 8 processors and 1 to 64 pages, 2 if an allocation fails, 3 if the handle
/// is open.
#[unsafe(no_mangle)]
pub extern "C" fn synicboard_recorded_open(
    alloc: Global,
    handle: &mut RecordedHandle,
    processors: u8,
    pages: u8,
    first_ticket: u64,
) -> u8
    ensures answers { result < 4 }
    ensures before { (result ≡ 3) ↔ IsSome (recorded_of handle.old) }
    ensures size { (result ≡ 1) ↔ ((recorded_of handle.old ≡ None) × (¬ AreSizes processors pages)) }
    ensures opened { result ≡ 0 → IsNewlyRecorded processors pages first_ticket (recorded_of handle.new) }
    ensures not_opened { result ≢ 0 → recorded_of handle.new ≡ recorded_of handle.old }
{
    if is_open(&mut handle.board) {
        return 3;
    }
    match RecordedHandle::open(alloc, processors, pages, first_ticket) {
        Ok(opened) => {
            replace(handle, opened).close(alloc);
            0
        }
        Err(OpenFault::BadSize) => 1,
        Err(OpenFault::Memory) => 2,
    }
}

/// Whether a handle has a board.
fn is_open(board: &mut BoardHandle) -> bool
    ensures board { board.new.board ≡ board.old.board }
    ensures open { (result ≡ true) ↔ IsSome board.old.board }
{
    match board.board_mut() {
        Some(_) => true,
        None => false,
    }
}

/// Frees the board of a handle and its history, and closes the handle.
#[unsafe(no_mangle)]
pub extern "C" fn synicboard_recorded_close(alloc: Global, handle: &mut RecordedHandle)
    ensures { recorded_of handle.new ≡ None }
{
    replace(handle, RecordedHandle::closed()).close(alloc);
}

/// Performs an event that is given as a struct, for an actor, appends it with its reply to the
/// history, and copies its notices to a buffer, as many as fit.
#[unsafe(no_mangle)]
pub extern "C" fn synicboard_recorded_act(
    handle: &mut RecordedHandle,
    actor: u8,
    plain: &CEvent,
    room: &mut [CNotice],
) -> CReply
    ensures { IsActed actor (event_from_c plain.now) (recorded_of handle.old) (recorded_of handle.new) result
        (buffer room.old room.new) }
{
    act_on(&mut handle.board, &mut handle.history, actor, plain, room)
}

/// `synicboard_recorded_act` on the two parts of a handle.
fn act_on(
    board: &mut BoardHandle,
    history: &mut HistoryHandle,
    actor: u8,
    plain: &CEvent,
    room: &mut [CNotice],
) -> CReply
    requires { LeadsTo history.old.history board.old.board }
    ensures leads { LeadsTo history.new.history board.new.board }
    ensures acted { IsActed actor (event_from_c plain.now) (both board.old.board history.old.history)
        (both board.new.board history.new.history) result (buffer room.old room.new) }
{
    let (Some(board), Some(history)) = (board.board_mut(), history.history_mut()) else {
        return fault_to_c(Fault::Closed);
    };
    act_in(board, history, actor, plain, room)
}

/// `act_on` on a board and its history.
fn act_in(
    board: &mut AnyBoard,
    history: &mut History,
    actor: u8,
    plain: &CEvent,
    room: &mut [CNotice],
) -> CReply
    requires { LeadsTo (Some history.old) (Some board.old) }
    ensures leads { LeadsTo (Some history.new) (Some board.new) }
    ensures acted { IsActed actor (event_from_c plain.now) (both (Some board.old) (Some history.old))
        (both (Some board.new) (Some history.new)) result (buffer room.old room.new) }
{
    let AnyBoard::Plain(board) = board else {
        unreachable!()
    };
    let Some(event) = event_of(plain) else {
        return fault_to_c(Fault::NoEvent);
    };
    match history.act(board, actor, &event) {
        Ok(reply) => {
            let notices = board.notices.as_slice();
            put_plain(notices, room);
            reply_to_c(reply, notices.len() as u16)
        }
        Err(_) => fault_to_c(Fault::NoMemory),
    }
}

/// Takes the bits of a part, 0 to 3, of processor `vp` from the line's words, by one atomic step,
/// and has the board absorb them, for an actor: `synicboard_recorded_act` of that event. `value` of
/// the reply is these bits. If the board would refuse, takes nothing.
#[unsafe(no_mangle)]
pub extern "C" fn synicboard_recorded_absorb(
    handle: &mut RecordedHandle,
    actor: u8,
    line: &mut LineHandle,
    vp: u8,
    part: u8,
    room: &mut [CNotice],
) -> CReply
    ensures { IsActedAbsorb (absorb_by actor vp part) (recorded_of handle.old, line.old.line)
        (recorded_of handle.new, line.new.line) result (buffer room.old room.new) }
{
    absorb_on(
        &mut handle.board,
        &mut handle.history,
        actor,
        line,
        vp,
        part,
        room,
    )
}

/// `synicboard_recorded_absorb` on the two parts of a handle.
fn absorb_on(
    board: &mut BoardHandle,
    history: &mut HistoryHandle,
    actor: u8,
    line: &mut LineHandle,
    vp: u8,
    part: u8,
    room: &mut [CNotice],
) -> CReply
    requires { LeadsTo history.old.history board.old.board }
    ensures leads { LeadsTo history.new.history board.new.board }
    ensures absorbed { IsActedAbsorb (absorb_by actor vp part)
        (both board.old.board history.old.history, line.old.line)
        (both board.new.board history.new.history, line.new.line) result (buffer room.old room.new) }
{
    let (Some(board), Some(history)) = (board.board_mut(), history.history_mut()) else {
        return fault_to_c(Fault::Closed);
    };
    match line.line_mut() {
        Some(line) => absorb_in(board, history, actor, line, vp, part, room),
        None => fault_to_c(Fault::NoLine),
    }
}

/// `absorb_on` on a board, its history and a line.
fn absorb_in(
    board: &mut AnyBoard,
    history: &mut History,
    actor: u8,
    line: &mut OwnedLine,
    vp: u8,
    part: u8,
    room: &mut [CNotice],
) -> CReply
    requires { LeadsTo (Some history.old) (Some board.old) }
    ensures leads { LeadsTo (Some history.new) (Some board.new) }
    ensures absorbed { IsActedAbsorb (absorb_by actor vp part)
        (both (Some board.old) (Some history.old), Some line.old)
        (both (Some board.new) (Some history.new), Some line.new) result (buffer room.old room.new) }
{
    let AnyBoard::Plain(board) = board else {
        unreachable!()
    };
    match history.absorb(board, actor, line, vp, part) {
        Ok((value, reply)) => {
            let notices = board.notices.as_slice();
            put_plain(notices, room);
            CReply {
                value,
                ..reply_to_c(reply, notices.len() as u16)
            }
        }
        Err(_) => fault_to_c(Fault::NoMemory),
    }
}

/// Writes the whole history as a trace to a buffer, as much as fits. Allocates the trace.
#[unsafe(no_mangle)]
pub extern "C" fn synicboard_recorded_settle(
    alloc: Global,
    handle: &mut RecordedHandle,
    room: &mut [u8],
) -> CSettled
    ensures recorded { recorded_of handle.new ≡ recorded_of handle.old }
    ensures settled { IsSettledTrace (recorded_of handle.old) room.old room.new result }
{
    settle_on(alloc, &mut handle.board, &mut handle.history, room)
}

/// `synicboard_recorded_settle` on the two parts of a handle.
fn settle_on(
    alloc: Global,
    board: &mut BoardHandle,
    history: &mut HistoryHandle,
    room: &mut [u8],
) -> CSettled
    requires { LeadsTo history.old.history board.old.board }
    ensures board { board.new.board ≡ board.old.board }
    ensures history { history.new.history ≡ history.old.history }
    ensures settled { IsSettledTrace (both board.old.board history.old.history) room.old room.new result }
{
    let (Some(board), Some(history)) = (board.board_mut(), history.history_mut()) else {
        return not_settled(4);
    };
    settle_in(alloc, board, history, room)
}

/// `settle_on` on a board and its history.
fn settle_in(alloc: Global, board: &AnyBoard, history: &History, room: &mut [u8]) -> CSettled
    requires { LeadsTo (Some history.now) (Some board.now) }
    ensures { IsSettledTrace (both (Some board.now) (Some history.now)) room.old room.new result }
{
    let AnyBoard::Plain(board) = board else {
        unreachable!()
    };
    let Ok(text) = trace_of(alloc, history, board.board.next_ticket()) else {
        return not_settled(2);
    };
    put_bytes(text.as_slice(), room);
    CSettled {
        kind: 0,
        entries: history.len() as u64,
        line: 0,
        length: text.len(),
    }
}

/// The result without a trace, for a reason.
fn not_settled(kind: u8) -> CSettled
    ensures { result ≡ record { kind = kind; entries = 0; line = 0; length = 0 } }
{
    CSettled {
        kind,
        entries: 0,
        line: 0,
        length: 0,
    }
}
