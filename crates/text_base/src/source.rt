// The lines of a reader.
ghost use Rattle.std.specs.Prelude.{◌≡◌, ℕ, ◌+◌, ◌≤◌, ◌<◌, List, [], MatchOption, IfOk, length, take, get_or, slice_range};
ghost use Rattle.std.specs.Io.KnownBytes.{Consumes, IsAtEnd};
ghost use Rattle.text_base.specs.Lines.{IsOneLine};
ghost use Rattle.text_base.specs.Buffered.{at_start};
ghost use Rattle.text_base.specs.Outputs.{HasSame};
ghost use Rattle.text_base.specs.Streams.{Finds, IsWrittenFirst};
ghost use Rattle.text_base.specs.inside.Filling.{Refills, Fills, FillsAfter, Scans};

use crate::lanes::before_feed;
use crate::output::Output;
use memchr::memchr;
use std::alloc::{AllocError, Global};
use std::io::{Read, Write};
use std::marker::Model;

/// The greatest number of bytes that are read. If the reader has more, the read fails.
pub const LIMIT: u64 = 1_073_741_824;

/// The greatest length of a line, without its line feed.
pub const LONGEST: usize = 640;

const BLOCK: usize = 65_536;

/// Reads a stream in blocks and finds its lines. Allocates only in `open`.
#[derive(Drop)]
pub struct Source {
    bytes: Vec<u8>,
    line_at: usize,
    line_end: usize,
    at: usize,
    end: usize,
    budget: u64,
}

impl Model for Source {
    ghost use Rattle.std.specs.Prelude.{◌≡◌, ◌≤◌, slice_range, vec_len};
    ghost use Rattle.text_base.specs.Buffered.{Buffered};

    ghost Value = { Buffered };

    ghost view = { λ s. record {
      line = slice_range s.bytes.items s.line_at s.line_end;
      waiting = slice_range s.bytes.items s.at s.end;
      budget = s.budget;
    } };

    ghost invariant = { λ s. (s.line_at ≤ s.line_end) × (s.line_end ≤ 65536) × (s.at ≤ s.end) × (s.end ≤ 65536)
        × (vec_len s.bytes ≡ 65536) };
}

#[derive(Drop)]
enum Fill {
    More,
    End,
    ReadFailed,
    FlushFailed,
}

#[derive(Drop)]
enum Scan {
    Whole,
    Long,
    Short,
}

/// The result of looking for the next line.
#[derive(Clone, Copy, PartialEq, Eq, Debug)]
pub enum NextLine {
    /// A whole line with a line feed.
    Whole,
    /// The line has more than 640 bytes.
    Long,
    /// The input has ended, and the line is the rest: nothing, or a line without a line feed.
    Last,
    /// A read failed, or the input exceeds the limit.
    ReadFailed,
    /// The flush before a read failed.
    FlushFailed,
}

impl Source {
    /// A source before its first line.
    pub fn open(alloc: Global) -> Result<Source, AllocError>
        ensures { IfOk result (λ s. s ≡ at_start) }
    {
        let bytes = vec![in alloc; 0; BLOCK]?;
        Ok(Source {
            bytes,
            line_at: 0,
            line_end: 0,
            at: 0,
            end: 0,
            budget: LIMIT,
        })
    }

    /// The line found last, without its line feed.
    #[inline(always)]
    pub fn line(&self) -> &[u8]
        ensures { result.now ≡ self.now.line }
    {
        &self.bytes[self.line_at..self.line_end]
    }

    /// Finds the next line. Flushes the output before each read: the peer may wait for it before it sends
    /// more input. A read that fails does so after the output was written.
    #[inline(always)]
    pub fn next_line<R: Read, W: Write>(
        &mut self,
        reader: &mut R,
        output: &mut Output<'_, W>,
    ) -> NextLine
        ensures same { HasSame output.old output.new }
        ensures written { IsWrittenFirst result output.new }
        ensures found { (came : List ℕ) × Consumes (R.remaining reader.old) (R.remaining reader.new) came
            × Finds result (IsAtEnd (R.remaining reader.new)) self.old self.new came }
    {
        loop {
            match self.scan() {
                Scan::Whole => return NextLine::Whole,
                Scan::Long => return NextLine::Long,
                Scan::Short => {}
            }
            match self.fill(reader, output) {
                Fill::More => {}
                Fill::End => {
                    self.take_rest();
                    return NextLine::Last;
                }
                Fill::ReadFailed => return NextLine::ReadFailed,
                Fill::FlushFailed => return NextLine::FlushFailed,
            }
        }
    }

    /// Takes the next line from the buffer, if it is there.
    #[inline(always)]
    fn scan(&mut self) -> Scan
        ensures { Scans result self.old self.new }
    {
        let waiting = &self.bytes[self.at..self.end];
        let near = &waiting[..waiting.len().min(LONGEST + 1)];
        if let Some(k) = feed(near) {
            self.line_at = self.at;
            self.line_end = self.at + k;
            self.at += k + 1;
            return Scan::Whole;
        }
        if near.len() > LONGEST {
            return Scan::Long;
        }
        Scan::Short
    }

    /// Takes all buffered bytes as the line.
    fn take_rest(&mut self)
        ensures line { self.new.line ≡ self.old.waiting }
        ensures waiting { self.new.waiting ≡ [] }
        ensures budget { self.new.budget ≡ self.old.budget }
    {
        self.line_at = self.at;
        self.line_end = self.end;
        self.at = self.end;
    }

    /// Reads once, after the buffered bytes, within the budget. Out of line: most lines are in the buffer.
    #[inline(never)]
    fn fill<R: Read, W: Write>(&mut self, reader: &mut R, output: &mut Output<'_, W>) -> Fill
        requires { length self.old.waiting ≤ 640 }
        ensures same { HasSame output.old output.new }
        ensures written { FillsAfter result output.new }
        ensures filled { (came : List ℕ) × Consumes (R.remaining reader.old) (R.remaining reader.new) came
            × Fills result (IsAtEnd (R.remaining reader.new)) self.old self.new came }
    {
        if !output.flush() {
            return Fill::FlushFailed;
        }
        if self.budget == 0 {
            return self.probe(reader);
        }
        let held = self.end - self.at;
        let room = self.budget.min((BLOCK - held) as u64) as usize;
        let read = refill(self.bytes.as_mut_slice(), self.at, self.end, room, reader);
        self.at = 0;
        self.end = held;
        match read {
            Some(0) => Fill::End,
            Some(n) => {
                self.end += n;
                self.budget -= n as u64;
                Fill::More
            }
            None => Fill::ReadFailed,
        }
    }

    /// Checks whether the input ends where the budget does.
    fn probe<R: Read>(&self, reader: &mut R) -> Fill
        ensures { (came : List ℕ) × Consumes (R.remaining reader.old) (R.remaining reader.new) came
            × Fills result (IsAtEnd (R.remaining reader.new)) self.now self.now came }
    {
        let mut byte = [0u8; 1];
        match reader.read(&mut byte) {
            Ok(0) => Fill::End,
            _ => Fill::ReadFailed,
        }
    }
}

/// Moves `bytes[at..end]` to the front, and reads once, at most `room` bytes, after it. Returns how
/// many bytes were read, unless the read failed.
fn refill<R: Read>(
    bytes: &mut [u8],
    at: usize,
    end: usize,
    room: usize,
    reader: &mut R,
) -> Option<usize>
    requires range { at ≤ end }
    requires within { end ≤ length bytes.old }
    requires fits { end + room ≤ at + length bytes.old }
    ensures length { length bytes.new ≡ length bytes.old }
    ensures bytes { (came : List ℕ) × Consumes (R.remaining reader.old) (R.remaining reader.new) came
        × Refills result (IsAtEnd (R.remaining reader.new)) room (slice_range bytes.old at end) bytes.new came }
{
    bytes.copy_within(at..end, 0);
    let held = end - at;
    match reader.read(&mut bytes[held..held + room]) {
        Ok(n) => Some(n),
        Err(_) => None,
    }
}

/// The index of the first line feed. Most lines have fewer than 32 bytes, and are searched without a call.
#[inline(always)]
fn feed(text: &[u8]) -> Option<usize>
    ensures { MatchOption result (IsOneLine text.now)
        (λ k. (k < length text.now) × IsOneLine (take k text.now) × (get_or text.now k 0 ≡ 10)) }
{
    if text.len() < 32 {
        return memchr(b'\n', text);
    }
    let near = before_feed(text, 0);
    if near < 16 {
        return Some(near);
    }
    let next = before_feed(text, 16);
    if next < 16 {
        return Some(16 + next);
    }
    memchr(b'\n', text)
}
