// Traces of readers that never end, and a trace that begins with an image.
use crate::jobs::TRACE;
use crate::peers::{Endless, takes};
use board_terms::{Notices, Vector};
use std::alloc::{AllocError, Global};
use std::cell::Cell;
use synic_board::{Board, Entry, Event};
use text_history::put_trace_from_image;
use text_image::put_image;
use text_trace::{CheckEnd, check_trace};

/// The first bytes, the bytes that repeat after them, and the number of the first wrong line, a
/// single digit.
const READERS: [(&[u8], &[u8], u8); 6] = [
    (b"", b"# no trace has comments\n", 1),
    (b"", b"\n", 1),
    (b"", b"trace 1", 1),
    (TRACE, b"\n", 8),
    (b"trace 1\nboard 1 1 0\n", b"0", 3),
    (b"trace 3\nimage 1\nboard 1 1 0\n", b"moment 1\n", 5),
];

/// Whether the trace is refused at that line.
fn is_refused_at(alloc: Global, first: &[u8], again: &[u8], line: u8) -> bool {
    let mut text = *b"refused 0\n";
    text[8] = b'0' + line % 10;
    let mut reader = Endless { first, again };
    let held_back = Cell::new(0);
    let mut writer = takes(&held_back);
    let end = check_trace(alloc, &mut reader, &mut writer);
    end == CheckEnd::Refused(u64::from(line)) && writer.has(&text)
}

#[test]
fn a_reader_that_never_ends_is_left(rt: HostRuntime) {
    for (first, again, line) in READERS {
        assert!(rt; is_refused_at(rt.alloc(), first, again, line), "{line}");
    }
}

const FROM_AN_IMAGE: &[u8] =
    b"trace 3\nimage 1\nboard 1 1 5\nlapic 0 0 100000000 0 0 0 0 0 0 0 running\nend\n9 take 0\n= taken 60\nend 1 5\n";

#[test]
fn a_trace_that_begins_with_an_image_is_legal(rt: HostRuntime) -> Result<(), AllocError> {
    let alloc = rt.alloc();
    let mut notices = Notices::open(alloc)?;
    let Ok(mut board) = Board::open(alloc, 1, 1, 5) else {
        return Err(AllocError);
    };
    let request = Event::Assert {
        vp: 0,
        vector: Vector::new(0x60).unwrap(),
    };
    board.perform(&request, &mut notices);
    let mut image = Vec::new(alloc);
    put_image(&mut image, &board)?;
    let event = Event::Take { vp: 0 };
    let reply = board.perform(&event, &mut notices);
    let history = [Entry {
        actor: 9,
        event,
        reply,
    }];
    let mut trace = Vec::new(alloc);
    put_trace_from_image(&mut trace, image.as_slice(), &history, board.next_ticket())?;
    assert!(rt; trace.as_slice() == FROM_AN_IMAGE);
    let mut reader = trace.as_slice();
    let mut verdict = Vec::new(alloc);
    assert_eq!(rt;
        check_trace(alloc, &mut reader, &mut verdict),
        CheckEnd::Legal(1)
    );
    Ok(())
}
