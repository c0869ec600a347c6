// A sink that writes to a stream.
ghost use Rattle.std.specs.Prelude.{◌≡◌, ◌++◌, ◌∷◌, ℕ, Option, List, [], IsTrue, not};
ghost use Rattle.text_base.specs.Outputs.{Holds, HasSame, IsWritten};
ghost use Rattle.text_base.specs.inside.Framing.{framed};

use crate::sending::send;
use crate::sink::Sink;
use arrayvec::ArrayVec;
use std::convert::Infallible;
use std::io::Write;
use std::marker::Model;
use text_log::{Chunk, Log, Seen};

/// Writes to a stream through a buffer of 1,024 bytes, and takes no memory. After a write failed or
/// returned 0, it writes no more.
#[derive(Drop)]
pub struct Output<'a, W: Write> {
    writer: &'a mut W,
    // The writer when the output was opened.
    origin: Seen<W>,
    chunk: Chunk,
    failed: bool,
}

impl<'a, W: Write> Model for Output<'a, W> {
    ghost use Rattle.text_base.specs.Outputs.{Written, Holds};
    ghost use Rattle.text_base.specs.inside.Framing.{first_contents};
    ghost use Rattle.std.specs.Prelude.{◌++◌};

    ghost Value = { Written };

    ghost view = { λ o. record {
      name = o.writer.ghost_name;
      start = first_contents W.contents o.origin.values;
      now = W.contents o.writer.now;
      text = o.chunk.before.bytes ++ o.chunk.bytes.items;
      held = o.chunk.bytes.items;
      failed = o.failed;
    } };

    ghost invariant = { λ o. Holds (first_contents W.contents o.origin.values)
        (W.contents o.writer.now) o.chunk.before.bytes o.failed };
}

impl<'a, W: Write> Output<'a, W> {
    /// An output to which nothing was put.
    pub fn new(writer: &'a mut W) -> Output<'a, W>
        ensures name { result.name ≡ writer.entry.ghost_name }
        ensures start { result.start ≡ W.contents writer.old }
        ensures text { result.text ≡ [] }
    {
        let origin = Seen::now(writer);
        Output {
            writer,
            origin,
            chunk: Chunk {
                before: Log::new(),
                bytes: ArrayVec::new(),
            },
            failed: false,
        }
    }

    /// Writes what is in the buffer, and flushes. `false` if a write or the flush failed, or a write
    /// returned 0.
    #[inline(never)]
    pub(crate) fn flush(&mut self) -> bool
        ensures same { HasSame self.old self.new }
        ensures written { IsTrue result → IsWritten self.new }
    {
        self.failed = empty(self.writer, &mut self.chunk, self.failed);
        if self.failed {
            return false;
        }
        self.writer.flush().is_ok()
    }

    /// Writes what is in the buffer, and returns the writer. `false` if a write failed or returned 0; then
    /// a prefix of the text was written. An output of which all is written writes nothing.
    pub fn end(self) -> (&'a mut W, bool)
        ensures name { result.0.ghost_name ≡ self.entry.name }
        ensures written { Holds self.entry.start (W.contents result.0.now) self.entry.text (not result.1) }
        ensures whole { IsWritten self.entry → IsTrue result.1 }
    {
        let Output {
            writer,
            origin: _,
            mut chunk,
            failed,
        } = self;
        if chunk.bytes.is_empty() {
            return (writer, !failed);
        }
        let failed = empty(writer, &mut chunk, failed);
        (writer, !failed)
    }

    /// Writes what is in the buffer, flushes, and returns the writer. `false` if a write or the flush
    /// failed, or a write returned 0; then a prefix of the text was written.
    pub fn finish(self) -> (&'a mut W, bool)
        ensures name { result.0.ghost_name ≡ self.entry.name }
        ensures written { Holds self.entry.start (W.contents result.0.now) self.entry.text (not result.1) }
    {
        let (writer, sent) = self.end();
        let flushed = sent && writer.flush().is_ok();
        (writer, flushed)
    }

    /// Puts bytes one by one. Out of line: mostly there is room for all of them.
    #[inline(never)]
    fn push_each(&mut self, bytes: &[u8])
        ensures name { self.new.name ≡ self.old.name }
        ensures start { self.new.start ≡ self.old.start }
        ensures text { self.new.text ≡ self.old.text ++ bytes.now }
    {
        for byte in bytes {
            self.push(*byte);
        }
    }

    /// Puts a byte.
    #[inline(always)]
    fn push(&mut self, byte: u8)
        ensures name { self.new.name ≡ self.old.name }
        ensures start { self.new.start ≡ self.old.start }
        ensures text { self.new.text ≡ self.old.text ++ byte ∷ [] }
    {
        if self.chunk.bytes.is_full() {
            self.failed = empty(self.writer, &mut self.chunk, self.failed);
        }
        self.chunk.bytes.push(byte);
    }
}

impl<'a, W: Write> Sink for Output<'a, W> {
    ghost text = { λ o. framed o.name o.start o.text };

    type Error = Infallible;

    #[inline(always)]
    fn put(&mut self, bytes: &[u8]) -> Result<(), Infallible> {
        if self.chunk.bytes.try_extend_from_slice(bytes).is_err() {
            self.push_each(bytes);
        }
        Ok(())
    }
}

/// Sends the bytes of a chunk unless a write failed before, and empties it. Returns whether a write
/// failed.
#[inline(never)]
fn empty<W: Write>(writer: &mut W, chunk: &mut Chunk, failed: bool) -> bool
    ensures text { chunk.new.before.bytes ≡ chunk.old.before.bytes ++ chunk.old.bytes.items }
    ensures empty { chunk.new.bytes.items ≡ [] }
    ensures sent { (start : Option (List ℕ)) → Holds start (W.contents writer.old) chunk.old.before.bytes failed
        → Holds start (W.contents writer.new) (chunk.old.before.bytes ++ chunk.old.bytes.items) result }
{
    let failed = fails(writer, chunk.bytes.as_slice(), failed);
    // README text_log: begin
    chunk.before = Log::after(chunk);
    chunk.bytes.clear();
    // README text_log: end
    failed
}

/// Sends bytes unless a write failed before. Returns whether a write failed.
fn fails<W: Write>(writer: &mut W, bytes: &[u8], failed: bool) -> bool
    ensures { (start : Option (List ℕ)) (text : List ℕ) → Holds start (W.contents writer.old) text failed
        → Holds start (W.contents writer.new) (text ++ bytes.now) result }
{
    if failed {
        return true;
    }
    !send(writer, bytes)
}
