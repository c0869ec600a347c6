// The images of messages in their slots.
ghost use Rattle.std.specs.Prelude.{◌≡◌, ◌-◌, ◌≤◌, ◌++◌, length, replicate};
ghost use Rattle.message_queues.specs.Image.{flags_of, header, timer_kind, timer_payload, image, slot_type};

use board_terms::{Message, Moment, Sint};

/// The size of a message slot in bytes, and so of a message (TLFS, "SynIC Message").
const SLOT_SIZE: usize = 256;

/// The type of a timer's message (TLFS, "Message Types").
const TIMER_EXPIRED: u32 = 0x8000_0010;

/// The image of a message that is placed at a given time: the 256 bytes of its slot. `pending` sets
/// MessagePending: more messages are queued (TLFS, "SynIC Message").
#[inline]
pub fn image(message: &Message, pending: bool, moment: Moment) -> [u8; SLOT_SIZE]
    ensures { result ≡ image message.now pending moment }
{
    match message {
        Message::FromPort {
            port,
            kind,
            payload,
            ..
        } => {
            let header = header(*kind, payload.len() as u8, pending, *port as u64);
            assembled(&header, payload.as_slice())
        }
        Message::FromTimer {
            timer,
            expiration,
            ..
        } => {
            let header = timer_header(pending);
            assembled(&header, &timer_payload(timer.index(), *expiration, moment))
        }
    }
}

/// A header, a payload, and zeros up to 256 bytes.
#[inline]
fn assembled(header: &[u8; 16], payload: &[u8]) -> [u8; SLOT_SIZE]
    requires { length payload.now ≤ 240 }
    ensures { result ≡ header.now ++ payload.now ++ replicate (240 - length payload.now) 0 }
{
    let mut image = [0; SLOT_SIZE];
    image[..16].copy_from_slice(header);
    image[16..16 + payload.len()].copy_from_slice(payload);
    image
}

/// The flags of a message: bit 0 is MessagePending.
#[inline]
fn flags_of(pending: bool) -> u8
    ensures { result ≡ flags_of pending }
{
    if pending { 1 } else { 0 }
}

/// Bytes 0 to 15 of a message: its type, the length of its payload, whether more messages are
/// queued, and its port (TLFS, "SynIC Message").
#[inline]
pub fn header(kind: u32, size: u8, pending: bool, port: u64) -> [u8; 16]
    ensures { result ≡ header kind size pending port }
{
    // two words, written whole
    let first = kind as u64
        + 0x1_0000_0000 * size as u64
        + 0x100_0000_0000 * flags_of(pending) as u64;
    let mut header = [0; 16];
    header[..8].copy_from_slice(&first.to_le_bytes());
    header[8..].copy_from_slice(&port.to_le_bytes());
    header
}

/// Bytes 0 to 15 of a timer's message.
#[inline]
pub fn timer_header(pending: bool) -> [u8; 16]
    ensures { result ≡ header timer_kind 24 pending 0 }
{
    header(TIMER_EXPIRED, 24, pending, 0)
}

/// The payload of a timer's message: its index, the time at which it expired, and the time of
/// delivery (TLFS, "Timer Message Payload").
#[inline]
pub fn timer_payload(index: u8, expiration: Moment, delivery: Moment) -> [u8; 24]
    ensures { result ≡ timer_payload index expiration delivery }
{
    let mut payload = [0; 24];
    payload[..4].copy_from_slice(&(index as u32).to_le_bytes());
    payload[8..16].copy_from_slice(&expiration.to_le_bytes());
    payload[16..].copy_from_slice(&delivery.to_le_bytes());
    payload
}

/// The type of the message in a slot of a SIM page of 4096 bytes. The slot is empty iff it is 0.
#[inline]
pub fn slot_type(page: &[u8], sint: Sint) -> u32
    requires { length page.now ≡ 4096 }
    ensures { result ≡ slot_type page.now sint }
{
    let at = SLOT_SIZE * sint.number() as usize;
    let mut kind = [0; 4];
    kind.copy_from_slice(&page[at..at + 4]);
    u32::from_le_bytes(kind)
}
