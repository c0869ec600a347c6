//! Registers and events that the tests of several crates share.
#![tactic(auto)]

ghost use Rattle.std.specs.Prelude.{◌<◌};

use board_terms::{Bytes8, Notices, PayloadBytes, PortShape};
pub use synic_board::msr::{EOM, SCONTROL, SIEFP, SIMP, SINT2, STIMER0_CONFIG, STIMER0_COUNT};
use synic_board::{Board, Event, Reply};

/// A guest of processor `vp` writes a register.
pub fn write(vp: u8, register: u32, value: u64) -> Event {
    Event::Write {
        vp,
        register,
        value,
    }
}

/// Opens a port to SINT2 of processor `vp`.
pub fn open(port: u8, vp: u8, shape: PortShape) -> Event {
    Event::OpenPort {
        port,
        vp,
        sint: 2,
        shape,
    }
}

/// Opens a message port to SINT2 of processor `vp`.
pub fn open_messages(port: u8, vp: u8, buffers: u8) -> Event {
    open(port, vp, PortShape::Messages { buffers })
}

/// Posts a message of type 1.
pub fn post(port: u8, payload: &[u8]) -> Event {
    let mut bytes = PayloadBytes::new();
    for byte in payload {
        let _ = bytes.try_push(*byte);
    }
    Event::Post {
        port,
        kind: 1,
        payload: bytes,
    }
}

pub fn store(address: u64, values: &[u8]) -> Event {
    Event::Store {
        address,
        bytes: bytes(values),
    }
}

pub fn load(address: u64, length: u8) -> Event {
    Event::Load { address, length }
}

/// As many of the bytes as fit.
pub fn bytes(values: &[u8]) -> Bytes8 {
    let mut all = Bytes8::new();
    for value in values {
        let _ = all.try_push(*value);
    }
    all
}

/// Starts timer `index` of processor `vp`: its count is written first.
pub fn start_timer(vp: u8, index: u8, config: u64, count: u64) -> [Event; 2]
    requires timer { index < 4 }
{
    [
        write(vp, STIMER0_COUNT + 2 * index as u32, count),
        write(vp, STIMER0_CONFIG + 2 * index as u32, config),
    ]
}

/// Performs events in order, and returns whether each was done.
pub fn are_done(board: &mut Board, notices: &mut Notices, events: &[Event]) -> bool {
    for event in events {
        if board.perform(event, notices) != Reply::Done {
            return false;
        }
    }
    true
}
