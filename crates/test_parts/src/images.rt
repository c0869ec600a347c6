// The images of messages, byte for byte, and the type of a slot.
ghost use Rattle.std.specs.Prelude.{◌≤◌, length};

use board_terms::{Message, PayloadBytes, Sint, TimerId, Vp};
use message_queues::{header, image, slot_type};

/// Timer 1, which was due at 20 and whose message is placed at 30, with more messages queued.
const IMAGE_OF_A_TIMER: [u8; 40] = [
    0x10, 0, 0, 0x80, 0x18, 1, 0, 0, 0, 0, 0, 0, 0, 0, 0, 0, 1, 0, 0, 0, 0, 0, 0, 0, 0x14, 0, 0, 0,
    0, 0, 0, 0, 0x1e, 0, 0, 0, 0, 0, 0, 0,
];

/// A post of type 1 and one byte from port 3.
const IMAGE_OF_A_POST: [u8; 17] = [1, 0, 0, 0, 1, 0, 0, 0, 3, 0, 0, 0, 0, 0, 0, 0, 0x0a];

/// The first bytes of an image, padded with zeros.
fn padded(bytes: &[u8]) -> [u8; 256]
    requires { length bytes.now ≤ 256 }
{
    let mut image = [0; 256];
    image[..bytes.len()].copy_from_slice(bytes);
    image
}

#[test]
fn images(rt: HostRuntime) {
    let of_timer = Message::FromTimer {
        ticket: 0,
        timer: TimerId::new(Vp::new(0).unwrap(), 1).unwrap(),
        expiration: 20,
    };
    let mut payload = PayloadBytes::new();
    payload.push(0x0a);
    let of_post = Message::FromPort {
        ticket: 0,
        port: 3,
        kind: 1,
        payload,
    };
    assert_eq!(rt; image(&of_timer, true, 30), padded(&IMAGE_OF_A_TIMER));
    assert_eq!(rt; image(&of_post, false, 30), padded(&IMAGE_OF_A_POST));
}

#[test]
fn headers_and_types(rt: HostRuntime) {
    assert_eq!(rt; header(1, 1, false, 3).as_slice(), &IMAGE_OF_A_POST[..16]);
    assert_eq!(rt;
        header(0x8000_0010, 24, true, 0).as_slice(),
        &IMAGE_OF_A_TIMER[..16]
    );
    let mut page = [0; 4096];
    page[512] = 0x10;
    page[515] = 0x80;
    assert_eq!(rt; slot_type(&page, Sint::new(2).unwrap()), 0x8000_0010);
    assert_eq!(rt; slot_type(&page, Sint::new(1).unwrap()), 0);
}
