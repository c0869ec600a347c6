// One call for each kind of event.
ghost use Rattle.std.specs.Prelude.{◌≡◌, ◌≤◌, Some, None, IfSome, IfNone, length};
ghost use Rattle.c_terms.specs.Events.{event_from_c};
ghost use Rattle.c_calls.specs.Looks.{earliest_of};
ghost use Rattle.c_calls.specs.inside.Some.{PerformsSome};
ghost use Rattle.c_calls.specs.Performing.{IsPerformed, post_from_c, store_from_c, assert_from_c, send_from_c};
ghost use Rattle.synic_board.specs.declared.event.Event.TheVariants as event;
ghost use Rattle.board_terms.specs.declared.messages.PortShape.TheVariants as shape;
ghost use Rattle.c_handles.specs.declared.any_board.AnyBoard.TheVariants.{Live};

use crate::looks::{CDeadline, earliest_on};
use crate::perform_on::{no_event, perform_live, perform_plain};
use board_terms::{PortShape, Vector};
use c_handles::{AnyBoard, BoardHandle, LiveWithNotices};
use c_terms::{CEvent, CReply, Fault, event_of, fault_to_c, perform_c, reply_to_c};
use synic_board::{Event, Reply};

/// The greatest number of bytes of a payload.
const MOST_PAYLOAD: usize = 240;

/// The greatest number of bytes of a store.
const MOST_STORED: usize = 8;

/// Performs an event on the board of a handle, if it is open. The event is constructed where its kind of board is
/// known, so that the plain way has no event in memory.
macro_rules! perform_on {
    ($handle:ident, $event:expr $(,)?) => {
        match $handle.board_mut() {
            Some(board) => match board {
                AnyBoard::Plain(board) => return perform_plain(board, &$event),
                AnyBoard::Live(board) => return perform_live(board, &$event),
            },
            None => return fault_to_c(Fault::Closed),
        }
    };
}

/// Opens a port for messages to source `sint` of processor `vp`, with 1 to 16 buffers.
#[unsafe(no_mangle)]
pub extern "C" fn synicboard_open_message_port(
    handle: &mut BoardHandle,
    port: u8,
    vp: u8,
    sint: u8,
    buffers: u8,
) -> CReply
    ensures { IsPerformed (Some (event.OpenPort port vp sint (shape.Messages buffers))) handle.old.board
        handle.new.board result }
{
    perform_on!(
        handle,
        Event::OpenPort {
            port,
            vp,
            sint,
            shape: PortShape::Messages { buffers },
        },
    )
}

/// Opens a port for the `count` event flags from `base` on, at source `sint` of processor `vp`.
#[unsafe(no_mangle)]
pub extern "C" fn synicboard_open_event_port(
    handle: &mut BoardHandle,
    port: u8,
    vp: u8,
    sint: u8,
    base: u16,
    count: u16,
) -> CReply
    ensures { IsPerformed (Some (event.OpenPort port vp sint (shape.Flags base count))) handle.old.board
        handle.new.board result }
{
    perform_on!(
        handle,
        Event::OpenPort {
            port,
            vp,
            sint,
            shape: PortShape::Flags { base, count },
        },
    )
}

/// Closes a port.
#[unsafe(no_mangle)]
pub extern "C" fn synicboard_close_port(handle: &mut BoardHandle, port: u8) -> CReply
    ensures { IsPerformed (Some (event.ClosePort port)) handle.old.board handle.new.board result }
{
    perform_on!(handle, Event::ClosePort { port })
}

/// A guest writes a register of processor `vp`.
#[unsafe(no_mangle)]
pub extern "C" fn synicboard_write(
    handle: &mut BoardHandle,
    vp: u8,
    register: u32,
    value: u64,
) -> CReply
    ensures { IsPerformed (Some (event.Write vp register value)) handle.old.board handle.new.board result }
{
    perform_on!(
        handle,
        Event::Write {
            vp,
            register,
            value,
        },
    )
}

/// A guest reads a register of processor `vp`.
#[unsafe(no_mangle)]
pub extern "C" fn synicboard_read(handle: &mut BoardHandle, vp: u8, register: u32) -> CReply
    ensures { IsPerformed (Some (event.Read vp register)) handle.old.board handle.new.board result }
{
    perform_on!(handle, Event::Read { vp, register })
}

/// Posts a message with a payload of up to 240 bytes to a port.
#[unsafe(no_mangle)]
pub extern "C" fn synicboard_post(
    handle: &mut BoardHandle,
    port: u8,
    message_type: u32,
    payload: &[u8],
) -> CReply
    ensures { IsPerformed (post_from_c port message_type payload.now) handle.old.board handle.new.board result }
{
    if payload.len() > MOST_PAYLOAD {
        return no_event(handle);
    }
    match handle.board_mut() {
        Some(board) => post_in(board, port, message_type, payload),
        None => fault_to_c(Fault::Closed),
    }
}

/// Posts a message on a board.
#[inline(always)]
fn post_in(board: &mut AnyBoard, port: u8, message_type: u32, payload: &[u8]) -> CReply
    requires { length payload.now ≤ 240 }
    ensures { IsPerformed (post_from_c port message_type payload.now) (Some board.old) (Some board.new) result }
{
    match board {
        AnyBoard::Plain(board) => {
            let reply = board.post(port, message_type, payload);
            reply_to_c(reply, board.notices.as_slice().len() as u16)
        }
        AnyBoard::Live(board) => {
            let reply = board.post(port, message_type, payload);
            reply_to_c(reply, board.notices.as_slice().len() as u16)
        }
    }
}

/// Signals an event flag of a port.
#[unsafe(no_mangle)]
pub extern "C" fn synicboard_signal(handle: &mut BoardHandle, port: u8, flag: u16) -> CReply
    ensures { IsPerformed (Some (event.Signal port flag)) handle.old.board handle.new.board result }
{
    perform_on!(handle, Event::Signal { port, flag })
}

/// A device requests a vector, 16 to 255, at the local APIC of processor `vp`.
#[unsafe(no_mangle)]
pub extern "C" fn synicboard_assert(handle: &mut BoardHandle, vp: u8, vector: u8) -> CReply
    ensures { IsPerformed (assert_from_c vp vector) handle.old.board handle.new.board result }
{
    match Vector::new(vector) {
        None => no_event(handle),
        Some(vector) => perform_on!(handle, Event::Assert { vp, vector }),
    }
}

/// Requests posted vectors: bit i of `bits` is vector 64 * `part` + i.
#[unsafe(no_mangle)]
pub extern "C" fn synicboard_absorb(handle: &mut BoardHandle, vp: u8, part: u8, bits: u64) -> CReply
    ensures { IsPerformed (Some (event.Absorb vp part bits)) handle.old.board handle.new.board result }
{
    perform_on!(handle, Event::Absorb { vp, part, bits })
}

/// A guest stores up to 8 bytes at a guest physical address.
#[unsafe(no_mangle)]
pub extern "C" fn synicboard_store(handle: &mut BoardHandle, address: u64, bytes: &[u8]) -> CReply
    ensures { IsPerformed (store_from_c address bytes.now) handle.old.board handle.new.board result }
{
    if bytes.len() > MOST_STORED {
        return no_event(handle);
    }
    match handle.board_mut() {
        Some(board) => store_in(board, address, bytes),
        None => fault_to_c(Fault::Closed),
    }
}

/// Stores bytes on a board.
#[inline(always)]
fn store_in(board: &mut AnyBoard, address: u64, bytes: &[u8]) -> CReply
    requires { length bytes.now ≤ 8 }
    ensures { IsPerformed (store_from_c address bytes.now) (Some board.old) (Some board.new) result }
{
    match board {
        AnyBoard::Plain(board) => {
            let reply = board.store(address, bytes);
            reply_to_c(reply, board.notices.as_slice().len() as u16)
        }
        AnyBoard::Live(board) => {
            let reply = board.store(address, bytes);
            reply_to_c(reply, board.notices.as_slice().len() as u16)
        }
    }
}

/// A guest loads `length` bytes from a guest physical address.
#[unsafe(no_mangle)]
pub extern "C" fn synicboard_load(handle: &mut BoardHandle, address: u64, length: u8) -> CReply
    ensures { IsPerformed (Some (event.Load address length)) handle.old.board handle.new.board result }
{
    perform_on!(handle, Event::Load { address, length })
}

/// Moves the clock to a time in units of 100 ns.
#[unsafe(no_mangle)]
pub extern "C" fn synicboard_tick(handle: &mut BoardHandle, moment: u64) -> CReply
    ensures { IsPerformed (Some (event.Tick moment)) handle.old.board handle.new.board result }
{
    perform_on!(handle, Event::Tick { moment })
}

/// Moves the clock, and stores the earliest deadline afterwards in `due`.
#[unsafe(no_mangle)]
pub extern "C" fn synicboard_tick_due(
    handle: &mut BoardHandle,
    moment: u64,
    due: &mut CDeadline,
) -> CReply
    ensures performed { IsPerformed (Some (event.Tick moment)) handle.old.board handle.new.board result }
    ensures due { due.new ≡ earliest_of handle.new.board }
{
    let reply = synicboard_tick(handle, moment);
    *due = earliest_on(handle);
    reply
}

/// Processor `vp` takes its next vector.
#[unsafe(no_mangle)]
pub extern "C" fn synicboard_take(handle: &mut BoardHandle, vp: u8) -> CReply
    ensures { IsPerformed (Some (event.Take vp)) handle.old.board handle.new.board result }
{
    perform_on!(handle, Event::Take { vp })
}

/// Suspends processor `vp`.
#[unsafe(no_mangle)]
pub extern "C" fn synicboard_suspend(handle: &mut BoardHandle, vp: u8) -> CReply
    ensures { IsPerformed (Some (event.Suspend vp)) handle.old.board handle.new.board result }
{
    perform_on!(handle, Event::Suspend { vp })
}

/// Resumes processor `vp`.
#[unsafe(no_mangle)]
pub extern "C" fn synicboard_resume(handle: &mut BoardHandle, vp: u8) -> CReply
    ensures { IsPerformed (Some (event.Resume vp)) handle.old.board handle.new.board result }
{
    perform_on!(handle, Event::Resume { vp })
}

/// Resets processor `vp`.
#[unsafe(no_mangle)]
pub extern "C" fn synicboard_reset(handle: &mut BoardHandle, vp: u8) -> CReply
    ensures { IsPerformed (Some (event.Reset vp)) handle.old.board handle.new.board result }
{
    perform_on!(handle, Event::Reset { vp })
}

/// Requests a vector, 16 to 255, at the local APIC of each processor of `mask`, lowest first. Bit p of
/// `mask` is processor p.
#[unsafe(no_mangle)]
pub extern "C" fn synicboard_send(handle: &mut BoardHandle, vector: u8, mask: u64) -> CReply
    ensures { IsPerformed (send_from_c vector mask) handle.old.board handle.new.board result }
{
    let Some(vector) = Vector::new(vector) else {
        return no_event(handle);
    };
    perform_on!(handle, Event::Send { vector, mask })
}

/// Performs an event that is given as a struct.
#[unsafe(no_mangle)]
pub extern "C" fn synicboard_perform(handle: &mut BoardHandle, plain: &CEvent) -> CReply
    ensures { IsPerformed (event_from_c plain.now) handle.old.board handle.new.board result }
{
    match handle.board_mut() {
        Some(board) => perform_struct_in(board, plain),
        None => fault_to_c(Fault::Closed),
    }
}

/// Performs an event that is given as a struct on a board.
#[inline(always)]
fn perform_struct_in(board: &mut AnyBoard, plain: &CEvent) -> CReply
    ensures { IsPerformed (event_from_c plain.now) (Some board.old) (Some board.new) result }
{
    match perform_struct(board, plain) {
        Some(reply) => reply_to_c(reply, board.notices().len() as u16),
        None => fault_to_c(Fault::NoEvent),
    }
}

/// Performs the event that a struct encodes. `None` if it encodes none; then nothing changes.
#[inline(always)]
pub(crate) fn perform_struct(board: &mut AnyBoard, plain: &CEvent) -> Option<Reply>
    ensures performed { IfSome result (λ r. PerformsSome (event_from_c plain.now) board.old board.new r) }
    ensures none { IfNone result (event_from_c plain.now ≡ None) }
    ensures kept { IfNone result (board.new ≡ board.old) }
{
    match board {
        AnyBoard::Plain(board) => perform_c(&mut board.board, &mut board.notices, plain),
        AnyBoard::Live(board) => perform_live_struct(board, plain),
    }
}

/// The same on a board with live pages. Out of line, so that the plain way has no event in memory.
#[inline(never)]
fn perform_live_struct(board: &mut LiveWithNotices, plain: &CEvent) -> Option<Reply>
    ensures performed { IfSome result (λ r. PerformsSome (event_from_c plain.now) (Live board.old) (Live board.new) r) }
    ensures none { IfNone result (event_from_c plain.now ≡ None) }
    ensures kept { IfNone result (board.new ≡ board.old) }
{
    let event = event_of(plain)?;
    Some(board.perform(&event))
}
