// Events as plain structs.
ghost use Rattle.std.specs.Prelude.{◌≡◌, ◌≤◌, [], length, None, Some, IfSome, IfNone};
ghost use Rattle.c_terms.specs.Events.{event_from_c, bytes_from_c, HasOutcome};

use arrayvec::ArrayVec;
use board_terms::{Bytes8, Notices, PayloadBytes, PortShape, Vector};
use synic_board::{Board, Event, Reply};

/// The greatest number of bytes of a store.
const MOST_STORED: u8 = 8;

/// An event as a plain struct. `kind` says which event it is, and which fields are used.
#[repr(C)]
#[derive(Clone, Copy)]
pub struct CEvent {
    /// 1 to 17: open a message port, open a flag port, close a port, write a register, read a
    /// register, post, signal, assert, absorb, store, load, tick, take, suspend, resume, reset,
    /// send.
    pub kind: u8,
    /// The processor.
    pub vp: u8,
    /// The source of a port to open.
    pub sint: u8,
    /// The port.
    pub port: u8,
    /// The buffers of a message port.
    pub buffers: u8,
    /// The vector to assert or to send, 16 to 255.
    pub vector: u8,
    /// Which group of 64 vectors to absorb, 0 to 3.
    pub part: u8,
    /// How many of `bytes` to post, up to 240, or to store, up to 8, or how many bytes to load.
    pub length: u8,
    /// The flag to signal, or the base of a flag port.
    pub flag: u16,
    /// How many flags a port has.
    pub count: u16,
    /// The number of the register to write or read.
    pub register: u32,
    /// The type of a message.
    pub message_type: u32,
    /// The value to write, the bits to absorb, or the mask of the processors to send to.
    pub value: u64,
    /// The guest physical address of a store or a load.
    pub address: u64,
    /// The new time of a tick, in units of 100 ns.
    pub moment: u64,
    /// The payload of a message, or the bytes to store.
    pub bytes: [u8; 240],
}

/// Applies code to the event that a plain struct encodes, or returns `None` if it encodes none. It
/// is expanded for each kind, so that the kind is known there at compile time.
macro_rules! with_event {
    ($kind:expr, $plain:ident, $event:ident, $done:expr) => {
        match $kind {
            1 => {
                let shape = PortShape::Messages { buffers: $plain.buffers };
                let $event = Event::OpenPort { port: $plain.port, vp: $plain.vp, sint: $plain.sint, shape };
                $done
            }
            2 => {
                let shape = PortShape::Flags { base: $plain.flag, count: $plain.count };
                let $event = Event::OpenPort { port: $plain.port, vp: $plain.vp, sint: $plain.sint, shape };
                $done
            }
            3 => {
                let $event = Event::ClosePort { port: $plain.port };
                $done
            }
            4 => {
                let $event = Event::Write { vp: $plain.vp, register: $plain.register, value: $plain.value };
                $done
            }
            5 => {
                let $event = Event::Read { vp: $plain.vp, register: $plain.register };
                $done
            }
            6 => {
                let (kind, payload) = ($plain.message_type, PayloadBytes::new());
                let mut $event = Event::Post { port: $plain.port, kind, payload };
                let Event::Post { payload: place, .. } = &mut $event else { return None };
                put_first(place, &$plain.bytes, $plain.length)?;
                $done
            }
            7 => {
                let $event = Event::Signal { port: $plain.port, flag: $plain.flag };
                $done
            }
            8 => {
                let $event = Event::Assert { vp: $plain.vp, vector: Vector::new($plain.vector)? };
                $done
            }
            9 => {
                let $event = Event::Absorb { vp: $plain.vp, part: $plain.part, bits: $plain.value };
                $done
            }
            10 => {
                let mut $event = Event::Store { address: $plain.address, bytes: Bytes8::new() };
                let Event::Store { bytes: place, .. } = &mut $event else { return None };
                put_first(place, &$plain.bytes, $plain.length)?;
                $done
            }
            11 => {
                let $event = Event::Load { address: $plain.address, length: $plain.length };
                $done
            }
            12 => {
                let $event = Event::Tick { moment: $plain.moment };
                $done
            }
            13 => {
                let $event = Event::Take { vp: $plain.vp };
                $done
            }
            14 => {
                let $event = Event::Suspend { vp: $plain.vp };
                $done
            }
            15 => {
                let $event = Event::Resume { vp: $plain.vp };
                $done
            }
            16 => {
                let $event = Event::Reset { vp: $plain.vp };
                $done
            }
            17 => {
                let $event = Event::Send { vector: Vector::new($plain.vector)?, mask: $plain.value };
                $done
            }
            _ => None,
        }
    };
}

/// Decodes an event; `None` if the kind is unknown, a vector is below 16, or there are more bytes
/// than the event takes.
pub fn event_of(plain: &CEvent) -> Option<Event>
    ensures { result ≡ event_from_c plain.now }
{
    with_event!(plain.kind, plain, event, Some(event))
}

/// Performs the event that a plain struct encodes, and replaces the notices by its own. `None` if
/// it encodes none; then nothing changes.
pub fn perform_c(board: &mut Board, notices: &mut Notices, plain: &CEvent) -> Option<Reply>
    ensures step { IfSome result
        (λ r. HasOutcome (event_from_c plain.now) board.old.state (board.new.state, r, notices.new)) }
    ensures bound { IfSome result (λ _. length notices.new ≤ 276) }
    ensures none { IfNone result (event_from_c plain.now ≡ None) }
    ensures board { IfNone result (board.new ≡ board.old) }
    ensures notices { IfNone result (notices.new ≡ notices.old) }
{
    match plain.kind {
        1 => perform_kind::<1>(board, notices, plain),
        2 => perform_kind::<2>(board, notices, plain),
        3 => perform_kind::<3>(board, notices, plain),
        4 => perform_kind::<4>(board, notices, plain),
        5 => perform_kind::<5>(board, notices, plain),
        // a post and a store borrow their bytes from the struct
        6 => {
            let payload = plain.bytes.get(..plain.length as usize)?;
            Some(board.post(plain.port, plain.message_type, payload, notices))
        }
        7 => perform_kind::<7>(board, notices, plain),
        8 => perform_kind::<8>(board, notices, plain),
        9 => perform_kind::<9>(board, notices, plain),
        10 if plain.length <= MOST_STORED => {
            let bytes = plain.bytes.get(..plain.length as usize)?;
            Some(board.store(plain.address, bytes, notices))
        }
        11 => perform_kind::<11>(board, notices, plain),
        12 => perform_kind::<12>(board, notices, plain),
        13 => perform_kind::<13>(board, notices, plain),
        14 => perform_kind::<14>(board, notices, plain),
        15 => perform_kind::<15>(board, notices, plain),
        16 => perform_kind::<16>(board, notices, plain),
        17 => perform_kind::<17>(board, notices, plain),
        _ => None,
    }
}

/// The same for one kind. As a function of its own, it has stack space only for events of that
/// kind.
fn perform_kind<const KIND: u8>(
    board: &mut Board,
    notices: &mut Notices,
    plain: &CEvent,
) -> Option<Reply>
    requires { plain.now.kind ≡ KIND }
    ensures step { IfSome result
        (λ r. HasOutcome (event_from_c plain.now) board.old.state (board.new.state, r, notices.new)) }
    ensures bound { IfSome result (λ _. length notices.new ≤ 276) }
    ensures none { IfNone result (event_from_c plain.now ≡ None) }
    ensures board { IfNone result (board.new ≡ board.old) }
    ensures notices { IfNone result (notices.new ≡ notices.old) }
{
    with_event!(KIND, plain, event, Some(board.perform(&event, notices)))
}

/// Copies the first `length` bytes to an empty array, if there are that many and they fit.
pub(crate) fn put_first<const N: usize>(
    place: &mut ArrayVec<u8, N>,
    bytes: &[u8],
    length: u8,
) -> Option<()>
    requires { place.old.items ≡ [] }
    ensures put { IfSome result (λ _. bytes_from_c N bytes.now length ≡ Some place.new) }
    ensures none { IfNone result (bytes_from_c N bytes.now length ≡ None) }
{
    let first = bytes.get(..length as usize)?;
    place.try_extend_from_slice(first).ok()
}

/// The first `length` bytes, if there are that many and they fit.
pub(crate) fn bytes_of<const N: usize>(bytes: &[u8], length: u8) -> Option<ArrayVec<u8, N>>
    ensures { result ≡ bytes_from_c N bytes.now length }
{
    let mut fitting = ArrayVec::new();
    put_first(&mut fitting, bytes, length)?;
    Some(fitting)
}
