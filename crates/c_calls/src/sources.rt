// Ports, sources and registers.
ghost use Rattle.std.specs.Prelude.{◌≡◌, Some};
ghost use Rattle.synic_board.specs.declared.event.Event.TheVariants.{Absorb};
ghost use Rattle.c_calls.specs.Performing.{IsPerformed};
ghost use Rattle.c_calls.specs.Sources.{port_to_c, shaped, port_of, asserted, source_event_on, source_event, is_register};

use crate::perform_on::{no_event, perform_in};
use board_terms::{PortShape, Sint, Vector, Vp};
use c_handles::{AnyBoard, BoardHandle};
use c_terms::{CReply, Fault, fault_to_c};
use event_ports::Port;
use synic_board::{Board, Event};
use synic_regs::{Register, decode};

/// The bits of a source that is masked, and of one that is polling.
const MASKED: u64 = 0x1_0000;

const POLLING: u64 = 0x4_0000;

/// A port: `kind` is 1 for messages, 2 for event flags, and 0 if it is not open; then all else is 0.
#[repr(C)]
#[derive(Clone, Copy, PartialEq)]
pub struct CPort {
    pub kind: u8,
    pub vp: u8,
    pub sint: u8,
    pub buffers: u8,
    pub base: u16,
    pub count: u16,
}

/// A port.
#[unsafe(no_mangle)]
pub extern "C" fn synicboard_port(handle: &mut BoardHandle, port: u8) -> CPort
    ensures board { handle.new.board ≡ handle.old.board }
    ensures port { result ≡ port_of handle.old.board port }
{
    match handle.board_mut() {
        Some(board) => encoded(board.board().port(port)),
        None => encoded(None),
    }
}

fn encoded(port: Option<Port>) -> CPort
    ensures { result ≡ port_to_c port }
{
    match port {
        Some(Port { vp, sint, shape }) => shaped(vp, sint, shape),
        None => CPort {
            kind: 0,
            vp: 0,
            sint: 0,
            buffers: 0,
            base: 0,
            count: 0,
        },
    }
}

fn shaped(vp: Vp, sint: Sint, shape: PortShape) -> CPort
    ensures { result ≡ shaped vp sint shape }
{
    let (vp, sint) = (vp.number(), sint.number());
    match shape {
        PortShape::Messages { buffers } => CPort {
            kind: 1,
            vp,
            sint,
            buffers,
            base: 0,
            count: 0,
        },
        PortShape::Flags { base, count } => CPort {
            kind: 2,
            vp,
            sint,
            buffers: 0,
            base,
            count,
        },
    }
}

/// Asserts source `sint` of processor `vp`, as a message or a signal to it would: its vector is requested, unless
/// SINTx is masked or polling.
#[unsafe(no_mangle)]
pub extern "C" fn synicboard_assert_source(handle: &mut BoardHandle, vp: u8, sint: u8) -> CReply
    ensures { IsPerformed (source_event handle.old.board vp sint) handle.old.board handle.new.board result }
{
    let Some(sint) = Sint::new(sint) else {
        return no_event(handle);
    };
    match handle.board_mut() {
        Some(board) => assert_in(board, vp, sint),
        None => fault_to_c(Fault::Closed),
    }
}

fn assert_in(board: &mut AnyBoard, vp: u8, sint: Sint) -> CReply
    ensures { IsPerformed (source_event (Some board.old) vp sint) (Some board.old) (Some board.new) result }
{
    let event = source_event(board.board(), vp, sint);
    perform_in(board, &event)
}

fn source_event(board: &Board, vp: u8, sint: Sint) -> Event
    ensures { result ≡ source_event_on board.now.state vp sint }
{
    if vp >= board.processors() {
        return nothing(vp);
    }
    match Vp::new(vp) {
        Some(vp) => asserted(vp.number(), board.register(vp, Register::Source(sint))),
        None => unreachable!(),
    }
}

fn asserted(vp: u8, word: u64) -> Event
    ensures { result ≡ asserted vp word }
{
    if word & MASKED == MASKED || word & POLLING == POLLING {
        return nothing(vp);
    }
    match Vector::new((word % 256) as u8) {
        Some(vector) => Event::Assert { vp, vector },
        None => nothing(vp),
    }
}

/// An event that requests nothing.
fn nothing(vp: u8) -> Event
    ensures { result ≡ Absorb vp 0 0 }
{
    Event::Absorb {
        vp,
        part: 0,
        bits: 0,
    }
}

/// Whether a register is the board's.
#[unsafe(no_mangle)]
pub extern "C" fn synicboard_has_register(msr: u32) -> bool
    ensures { result ≡ is_register msr }
{
    decode(msr).is_some()
}
