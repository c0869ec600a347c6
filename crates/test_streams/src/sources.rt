// The lines of a reader, and writing.
use crate::peers::{Refuses, gives, takes};
use std::alloc::{AllocError, Global};
use std::cell::Cell;
use std::io::{self, Read, Write};
use text_base::{NextLine, Output, Source, send};

/// The result for the next line, with an output that has nothing in its buffer.
fn next_of<R: Read, W: Write>(source: &mut Source, reader: &mut R, writer: &mut W) -> NextLine {
    let mut output = Output::new(writer);
    let found = source.next_line(reader, &mut output);
    let _ = output.end();
    found
}

/// For each line of a reader that returns one byte per read: how it ends, the line, and the number
/// of flushes. Each read has a flush before it, including the one that finds the end.
const LINES: [(NextLine, &[u8], usize); 3] = [
    (NextLine::Whole, b"ab", 3),
    (NextLine::Whole, b"", 4),
    (NextLine::Last, b"c", 6),
];

/// The first line that differs.
fn first_other(alloc: Global) -> Result<Option<usize>, AllocError> {
    let held_back = Cell::new(0);
    let mut reader = gives(b"ab\n\nc", &held_back);
    let mut writer = takes(&held_back);
    let mut source = Source::open(alloc)?;
    for (place, (ends, line, flushes)) in LINES.iter().enumerate() {
        let ended = next_of(&mut source, &mut reader, &mut writer);
        if ended != *ends || source.line() != *line || writer.flushes != *flushes {
            return Ok(Some(place));
        }
    }
    Ok(None)
}

#[test]
fn finds_lines_byte_by_byte(rt: HostRuntime) -> Result<(), AllocError> {
    assert_eq!(rt; first_other(rt.alloc())?, None);
    Ok(())
}

/// The results for the first line, of two bytes, and the second, if the writer fails at that flush.
fn flushed(alloc: Global, room: usize) -> Result<(NextLine, NextLine), AllocError> {
    let held_back = Cell::new(0);
    let mut reader = gives(b"ab\ncd\n", &held_back);
    let mut writer = takes(&held_back);
    writer.refuses = Refuses::Flushes;
    writer.room = room;
    let mut source = Source::open(alloc)?;
    let first = next_of(&mut source, &mut reader, &mut writer);
    Ok((first, next_of(&mut source, &mut reader, &mut writer)))
}

/// The same if the reader fails at that read.
fn read(alloc: Global, fails_at: usize) -> Result<(NextLine, NextLine), AllocError> {
    let held_back = Cell::new(0);
    let mut reader = gives(b"ab\ncd\n", &held_back);
    let mut writer = takes(&held_back);
    reader.fails_at = fails_at;
    let mut source = Source::open(alloc)?;
    let first = next_of(&mut source, &mut reader, &mut writer);
    Ok((first, next_of(&mut source, &mut reader, &mut writer)))
}

/// Whether exactly the call that reads or flushes at this place reports the failure.
fn fails_at(alloc: Global, place: usize) -> Result<bool, AllocError> {
    let (first, second) = read(alloc, place)?;
    let reads = if place < 3 { first } else { second };
    let (other, next) = flushed(alloc, place)?;
    let flushes = if place < 3 { other } else { next };
    let is_later = place >= 3;
    Ok(
        reads == NextLine::ReadFailed
            && flushes == NextLine::FlushFailed
            && (first == NextLine::Whole) == is_later
            && (other == NextLine::Whole) == is_later,
    )
}

#[test]
fn a_failed_read_or_flush_is_no_line(rt: HostRuntime) -> Result<(), AllocError> {
    for place in 0..6usize {
        assert!(rt; fails_at(rt.alloc(), place)?, "{place}");
    }
    Ok(())
}

/// How a line of that many bytes ends, with its line feed or without.
fn line_of(alloc: Global, length: usize, feed: bool) -> Result<NextLine, AllocError> {
    let mut text = vec![in alloc; b'#'; length]?;
    if feed {
        text.push(b'\n')?;
    }
    let mut reader = text.as_slice();
    Ok(next_of(&mut Source::open(alloc)?, &mut reader, &mut io::sink()))
}

#[test]
fn a_line_is_long_at_its_641st_byte(rt: HostRuntime) -> Result<(), AllocError> {
    for (length, feed, ends) in [
        (640, true, NextLine::Whole),
        (640, false, NextLine::Last),
        (641, true, NextLine::Long),
        (641, false, NextLine::Long),
    ] {
        assert_eq!(rt; line_of(rt.alloc(), length, feed)?, ends);
    }
    Ok(())
}

/// Whether sending three bytes to a writer that fails at this place reports it, after the bytes
/// before it were written.
fn sends(refuses: Refuses, room: usize) -> bool {
    let text = b"abc";
    let held_back = Cell::new(0);
    let mut writer = takes(&held_back);
    writer.refuses = refuses;
    writer.room = room;
    let is_sent = send(&mut writer, text);
    is_sent == (room == 3) && text.get(..room) == Some(writer.text.as_slice())
}

#[test]
fn sends_until_a_write_fails_or_takes_nothing(rt: HostRuntime) {
    for refuses in [Refuses::Bytes, Refuses::Writes] {
        for room in 0..4usize {
            assert!(rt; sends(refuses, room), "{room}");
        }
    }
}
