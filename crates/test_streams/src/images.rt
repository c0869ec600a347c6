// Images of boards.
use crate::peers::{Refuses, gives, takes};
use board_terms::{Notices, Vector};
use std::alloc::{AllocError, Global};
use std::cell::Cell;
use synic_board::{Board, Event, Reply};
use test_steps::{SCONTROL, SIMP, SINT2, open_messages, post, start_timer, store, write};
use text_image::{SaveEnd, put_image, save};
use text_restore::{RestoreEnd, restore};

/// Three posts, of which the first is in its slot and two are queued, on a board of which each part
/// differs from that of a newly opened one.
fn storm() -> [Event; 13] {
    let [count, config] = start_timer(1, 0, 0x1501, 100);
    [
        Event::Tick { moment: 10 },
        write(0, SCONTROL, 1),
        write(0, SIMP, 0x1001),
        write(0, SINT2, 0x30),
        open_messages(3, 0, 4),
        store(0x10, &[1, 2]),
        Event::Assert {
            vp: 1,
            vector: Vector::new(0x41).unwrap(),
        },
        Event::Suspend { vp: 1 },
        count,
        config,
        post(3, b"ab"),
        post(3, b"cd"),
        post(3, b""),
    ]
}

/// A text with some bytes of zeros, as digits, after each of its first parts.
fn with_zeros(alloc: Global, parts: &[(&[u8], usize)]) -> Result<Vec<u8>, AllocError> {
    let mut text = Vec::new(alloc);
    for (part, zeros) in parts {
        text.extend_from_slice(part)?;
        for _ in 0..*zeros {
            text.extend_from_slice(b"00")?;
        }
    }
    Ok(text)
}

fn image_of_storm(alloc: Global) -> Result<Vec<u8>, AllocError> {
    with_zeros(
        alloc,
        &[
            (
                concat!(
                    "image 1\nboard 2 2 10\nmoment 10\n",
                    "lapic 0 1000000000000 0 0 0 0 0 0 0 0 running\n",
                    "lapic 1 0 2 0 0 0 0 0 0 0 suspended\n",
                    "register 0 scontrol 1\nregister 0 simp 1001\nregister 0 sint2 30\n",
                    "page 0 0 "
                )
                .as_bytes(),
                16,
            ),
            (b"0102", 238),
            (b"\nown 0 sim 200 010000000201000003000000000000006162", 238),
            (
                concat!(
                    "\nopen 3 message 0 2 4\ntimer 1 0 1501 64 due 0 64\n",
                    "message 0 2 8 port 3 1 6364\nmessage 0 2 9 port 3 1 -\n",
                    "slot 0 2 7\nend\n"
                )
                .as_bytes(),
                0,
            ),
        ],
    )
}

#[test]
fn an_image_has_each_part_of_a_board(rt: HostRuntime) -> Result<(), AllocError> {
    let alloc = rt.alloc();
    let mut notices = Notices::open(alloc)?;
    let Ok(mut board) = Board::open(alloc, 2, 2, 7) else {
        return Err(AllocError);
    };
    for event in storm() {
        let reply = board.perform(&event, &mut notices);
        assert!(rt;
            !matches!(reply, Reply::Refused(_) | Reply::GeneralProtection),
            "{reply:?}"
        );
    }
    let mut image: Vec<u8> = Vec::new(alloc);
    put_image(&mut image, &board)?;
    let expected = image_of_storm(alloc)?;
    assert!(rt; image.as_slice() == expected.as_slice());
    Ok(())
}

/// The image of a newly opened board with one processor, one page and the first ticket 5.
const OPENED: &[u8] = b"image 1\nboard 1 1 5\nlapic 0 0 0 0 0 0 0 0 0 0 running\nend\n";

/// Whether a save that fails at this place ends with the image up to there.
fn is_cut_there(board: &Board, refuses: Refuses, place: usize) -> bool {
    let held_back = Cell::new(0);
    let mut writer = takes(&held_back);
    writer.refuses = refuses;
    writer.room = place;
    let end = save(board, &mut writer);
    let written = match refuses {
        Refuses::Flushes => OPENED,
        _ => &OPENED[..place.min(OPENED.len())],
    };
    end == SaveEnd::Writing && writer.text.as_slice() == written
}

#[test]
fn a_failing_writer_has_the_beginning_of_an_image(rt: HostRuntime) -> Result<(), AllocError> {
    let alloc = rt.alloc();
    let Ok(board) = Board::open(alloc, 1, 1, 5) else {
        return Err(AllocError);
    };
    let held_back = Cell::new(0);
    let mut writer = takes(&held_back);
    assert_eq!(rt; save(&board, &mut writer), SaveEnd::Done);
    assert!(rt; writer.has(OPENED));
    for place in 0..OPENED.len() {
        assert!(rt; is_cut_there(&board, Refuses::Writes, place), "{place}");
        assert!(rt; is_cut_there(&board, Refuses::Bytes, place), "{place}");
    }
    assert!(rt; is_cut_there(&board, Refuses::Flushes, 0));
    Ok(())
}

/// The board of an image.
fn restored(alloc: Global, image: &[u8]) -> Option<Board> {
    let mut reader = image;
    match restore(alloc, &mut reader) {
        RestoreEnd::Restored(board) => Some(board),
        _ => None,
    }
}

#[test]
fn a_restored_board_has_its_image(rt: HostRuntime) -> Result<(), AllocError> {
    let alloc = rt.alloc();
    let image = image_of_storm(alloc)?;
    let Some(board) = restored(alloc, image.as_slice()) else {
        return Err(AllocError);
    };
    let mut again: Vec<u8> = Vec::new(alloc);
    put_image(&mut again, &board)?;
    assert!(rt; again.as_slice() == image.as_slice());
    Ok(())
}

/// Whether a restore from a reader that fails at this read ends so.
fn fails_to_read(alloc: Global, place: usize) -> bool {
    let held_back = Cell::new(0);
    let mut reader = gives(OPENED, &held_back);
    reader.fails_at = place;
    matches!(restore(alloc, &mut reader), RestoreEnd::Reading)
}

#[test]
fn a_failing_reader_restores_no_board(rt: HostRuntime) {
    for place in 0..OPENED.len() + 2 {
        let fails = fails_to_read(rt.alloc(), place);
        assert_eq!(rt; fails, place <= OPENED.len(), "{place}");
    }
}

#[test]
fn the_image_of_a_newly_opened_board_is_short(rt: HostRuntime) -> Result<(), AllocError> {
    let alloc = rt.alloc();
    // README text_image: begin
    let Ok(board) = Board::open(alloc, 1, 1, 5) else {
        return Err(AllocError);
    };
    let mut image: Vec<u8> = Vec::new(alloc);
    put_image(&mut image, &board)?;
    let expected = b"image 1\nboard 1 1 5\nlapic 0 0 0 0 0 0 0 0 0 0 running\nend\n";
    assert!(rt; image.as_slice() == expected.as_slice());
    // README text_image: end
    Ok(())
}
