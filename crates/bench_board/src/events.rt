// The events of the workloads, and the registers that they write.
use board_terms::{Bytes8, Moment, PayloadBytes, PortShape, Vector};
use synic_board::Event;
use synic_board::msr::{SINT0, STIMER0_CONFIG, STIMER0_COUNT};

/// The enable bit of SCONTROL, SIEFP and SIMP.
pub(crate) const ENABLE: u64 = 1;

/// The size of a page.
pub(crate) const PAGE: u64 = 4096;

/// The size of a message slot, and of the event flags of a source.
const SLOT: u64 = 256;

/// The vector that devices request.
const DEVICE_VECTOR: u8 = 0x60;

/// The type of the messages that are posted.
const MESSAGE_TYPE: u32 = 1;

/// The payload of a message.
const MESSAGE_BYTE: u8 = 0x0a;

pub(crate) fn write(vp: u8, register: u32, value: u64) -> Event {
    Event::Write {
        vp,
        register,
        value,
    }
}

/// Unmasks a source with a vector.
pub(crate) fn write_source(vp: u8, sint: u8, vector: u8) -> Event {
    write(vp, SINT0 + sint as u32, vector as u64)
}

/// Writes the configuration of a timer.
pub(crate) fn write_timer_config(vp: u8, index: u8, config: u64) -> Event {
    write(vp, STIMER0_CONFIG + 2 * index as u32, config)
}

/// Writes the count of a timer.
pub(crate) fn write_timer_count(vp: u8, index: u8, count: u64) -> Event {
    write(vp, STIMER0_COUNT + 2 * index as u32, count)
}

pub(crate) fn open_port(port: u8, vp: u8, sint: u8, shape: PortShape) -> Event {
    Event::OpenPort {
        port,
        vp,
        sint,
        shape,
    }
}

pub(crate) fn assert_vector(vp: u8) -> Event {
    let vector = Vector::new(DEVICE_VECTOR).unwrap();
    Event::Assert { vp, vector }
}

/// Posts a message of one byte.
pub(crate) fn post(port: u8) -> Event {
    let mut payload = PayloadBytes::new();
    payload.push(MESSAGE_BYTE);
    Event::Post {
        port,
        kind: MESSAGE_TYPE,
        payload,
    }
}

/// A guest stores at most eight bytes.
pub(crate) fn store(address: u64, items: &[u8]) -> Event {
    let mut bytes = Bytes8::new();
    let _ = bytes.try_extend_from_slice(items);
    Event::Store { address, bytes }
}

/// A guest empties the slot of a source in the message page at `page`.
pub(crate) fn empty_slot(page: u8, sint: u8) -> Event {
    store(page as u64 * PAGE + sint as u64 * SLOT, &[0; 4])
}

/// A guest clears the first 64 event flags of a source in the event flags page at `page`.
pub(crate) fn clear_flags(page: u8, sint: u8) -> Event {
    store(page as u64 * PAGE + sint as u64 * SLOT, &[0; 8])
}

/// Moves a tick later by a span; other events stay unchanged.
pub(crate) fn put_off(event: &mut Event, span: Moment) {
    if let Event::Tick { moment } = event {
        *moment = moment.saturating_add(span);
    }
}
