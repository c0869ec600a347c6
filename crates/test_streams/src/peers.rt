// Readers and writers that transfer little at a time, or fail.
use arrayvec::ArrayVec;
use std::cell::Cell;
use std::io;
use std::io::{ErrorKind, Read, Write};

pub(crate) type Text = ArrayVec<u8, 512>;

pub(crate) fn append(text: &mut Text, bytes: &[u8]) {
    for byte in bytes {
        if text.try_push(*byte).is_err() {
            return;
        }
    }
}

/// Returns one byte per read. One read fails, and a retry would return the byte; every read fails
/// while the writer has unflushed output.
#[derive(Drop)]
pub(crate) struct Trickle<'a> {
    pub(crate) bytes: &'a [u8],
    pub(crate) reads: usize,
    pub(crate) fails_at: usize,
    pub(crate) held_back: &'a Cell<usize>,
}

/// A reader of these bytes that never fails.
pub(crate) fn gives<'a>(bytes: &'a [u8], held_back: &'a Cell<usize>) -> Trickle<'a> {
    Trickle {
        bytes,
        reads: 0,
        fails_at: usize::MAX,
        held_back,
    }
}

impl Read for Trickle<'_> {
    fn read(&mut self, buf: &mut [u8]) -> io::Result<usize> {
        if self.reads == self.fails_at {
            self.fails_at = usize::MAX;
            return Err(io::Error::from(ErrorKind::Interrupted));
        }
        if self.held_back.get() > 0 || buf.is_empty() {
            return Err(io::Error::from(ErrorKind::Interrupted));
        }
        let Some(byte) = self.bytes.get(self.reads) else {
            return Ok(0);
        };
        buf[0] = *byte;
        self.reads = self.reads.saturating_add(1);
        Ok(1)
    }
}

/// Returns some bytes, and then the same bytes repeatedly.
#[derive(Drop)]
pub(crate) struct Endless<'a> {
    pub(crate) first: &'a [u8],
    pub(crate) again: &'a [u8],
}

impl Read for Endless<'_> {
    fn read(&mut self, buf: &mut [u8]) -> io::Result<usize> {
        if self.first.is_empty() {
            self.first = self.again;
        }
        let given = self.first.len().min(buf.len());
        buf[..given].copy_from_slice(&self.first[..given]);
        self.first = &self.first[given..];
        Ok(given)
    }
}

/// How a writer fails.
#[derive(Clone, Copy, PartialEq, Debug)]
pub(crate) enum Refuses {
    Writes,
    Bytes,
    Flushes,
}

/// Accepts one byte per write, and holds it until a flush. One call fails, and later ones succeed.
#[derive(Drop)]
pub(crate) struct Narrow<'a> {
    pub(crate) text: Text,
    pub(crate) held_back: &'a Cell<usize>,
    pub(crate) flushes: usize,
    pub(crate) room: usize,
    pub(crate) refuses: Refuses,
}

/// A writer that never fails.
pub(crate) fn takes(held_back: &Cell<usize>) -> Narrow<'_> {
    Narrow {
        text: Text::new(),
        held_back,
        flushes: 0,
        room: usize::MAX,
        refuses: Refuses::Writes,
    }
}

impl Narrow<'_> {
    /// Whether these bytes were written and flushed.
    pub(crate) fn has(&self, bytes: &[u8]) -> bool {
        self.text.as_slice() == bytes && self.held_back.get() == 0
    }
}

impl Write for Narrow<'_> {
    fn write(&mut self, buf: &[u8]) -> io::Result<usize> {
        if self.refuses != Refuses::Flushes {
            if self.room == 0 {
                self.room = usize::MAX;
                return if self.refuses == Refuses::Bytes {
                    Ok(0)
                } else {
                    Err(io::Error::from(ErrorKind::Interrupted))
                };
            }
            self.room -= 1;
        }
        let Some(byte) = buf.first() else {
            return Ok(0);
        };
        append(&mut self.text, &[*byte]);
        self.held_back.set(self.held_back.get().saturating_add(1));
        Ok(1)
    }

    fn flush(&mut self) -> io::Result<()> {
        if self.refuses == Refuses::Flushes {
            if self.room == 0 {
                self.room = usize::MAX;
                return Err(io::Error::from(ErrorKind::StorageFull));
            }
            self.room -= 1;
        }
        self.flushes = self.flushes.saturating_add(1);
        self.held_back.set(0);
        Ok(())
    }
}
