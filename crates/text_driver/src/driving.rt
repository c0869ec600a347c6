// Driving a `Judge` over the lines of a reader.
ghost use Rattle.std.specs.Prelude.{◌≡◌, Some};
ghost use Rattle.text_base.specs.Buffered.{at_start};
ghost use Rattle.text_base.specs.Streams.{ReadsUpTo};
ghost use Rattle.text_driver.specs.Driving.{Drives, IsWrittenFirst, most_of, StopsNear};

use crate::judge::{Judge, Taken};
use std::alloc::Global;
use std::io::{Read, Write};
use text_base::{NextLine, Output, Source};

/// How a drive ends. Lines are counted from 1.
#[derive(Clone, Copy)]
pub enum End<F> {
    /// Each line of the input was good, and nothing follows the last line feed. `line` is the
    /// number of lines plus one.
    Last { line: u64 },
    /// This line is wrong.
    Wrong { line: u64, fault: F },
    /// This line has more than 640 bytes.
    Long { line: u64 },
    /// The input ends inside this line.
    Cut { line: u64 },
    /// An allocation failed.
    Memory,
    /// A read failed, or the input has more than 1,073,741,824 bytes.
    Reading,
    /// A write or a flush failed, or a write returned 0.
    Writing,
}

/// Passes each line of the reader to the `Judge` in turn, up to the first that is not good, and writes the
/// answers to the good lines: at the latest before the next read and at the end, whatever the end is. The
/// writer is flushed before each read, and not at the end. The memory that this allocates does not depend on
/// the length of the input.
pub fn drive<R: Read, W: Write, J: Judge>(
    alloc: Global,
    reader: &mut R,
    writer: &mut W,
    judge: &mut J,
) -> End<J::Fault>
    requires { J.ready 0 judge.old }
    ensures lines { Drives J.good J.wrong result judge.old judge.new
        (R.remaining reader.old) (R.remaining reader.new) (W.contents writer.old) (W.contents writer.new) }

    // One byte beyond the limit shows that the input exceeds it.
    ensures limit { ReadsUpTo (most_of result) (R.remaining reader.old) (R.remaining reader.new) }
    ensures near { StopsNear result (R.remaining reader.old) (R.remaining reader.new) }
{
    let Ok(source) = Source::open(alloc) else {
        return End::Memory;
    };
    let mut end = End::Memory;
    let _through = drive_through(source, reader, writer, judge, &mut end);
    end
}

/// A writer to which all that was put was sent, as far as it could be.
#[derive(Drop)]
struct Through<'a, W: Write> {
    writer: &'a mut W,
}

/// Passes the lines of a source to a `Judge`, sends the answers, and stores at `end` how that ended.
fn drive_through<'a, R: Read, W: Write, J: Judge>(
    source: Source,
    reader: &mut R,
    writer: &'a mut W,
    judge: &mut J,
    end: &mut End<J::Fault>,
) -> Through<'a, W>
    requires start { source ≡ at_start }
    requires ready { J.ready 0 judge.old }
    ensures name { result.writer.ghost_name ≡ writer.entry.ghost_name }
    ensures lines { Drives J.good J.wrong end.new judge.old judge.new (R.remaining reader.old)
        (R.remaining reader.new) (W.contents writer.entry.now) (W.contents result.writer.now) }
    ensures limit { ReadsUpTo (most_of end.new) (R.remaining reader.old) (R.remaining reader.new) }
    ensures near { StopsNear end.new (R.remaining reader.old) (R.remaining reader.new) }
{
    let mut output = Output::new(writer);
    *end = take_lines(source, reader, &mut output, judge);
    let (writer, sent) = output.end();
    if !sent {
        *end = End::Writing;
        return Through { writer };
    }
    Through { writer }
}

/// Passes the lines of a source to a `Judge`, which puts the answers. If a read failed, all of them were
/// written before it.
#[inline(always)]
fn take_lines<R: Read, W: Write, J: Judge>(
    mut source: Source,
    reader: &mut R,
    output: &mut Output<'_, W>,
    judge: &mut J,
) -> End<J::Fault>
    requires start { source ≡ at_start }
    requires ready { J.ready 0 judge.old }
    ensures name { output.new.name ≡ output.old.name }
    ensures start { output.new.start ≡ output.old.start }
    ensures lines { Drives J.good J.wrong result judge.old judge.new
        (R.remaining reader.old) (R.remaining reader.new) (Some output.old.text) (Some output.new.text) }
    ensures written { IsWrittenFirst result output.new }
    ensures limit { ReadsUpTo (most_of result) (R.remaining reader.old) (R.remaining reader.new) }
    ensures near { StopsNear result (R.remaining reader.old) (R.remaining reader.new) }
{
    let mut line: u64 = 0;
    loop {
        let found = source.next_line(reader, output);
        line += 1;
        match found {
            NextLine::Whole => match judge.take(source.line(), output) {
                Ok(taken) => match taken {
                    Taken::Good => {}
                    Taken::Wrong(fault) => return End::Wrong { line, fault },
                    Taken::Memory => return End::Memory,
                },
                Err(never) => match never {},
            },
            NextLine::Long => return End::Long { line },
            NextLine::Last => {
                if source.line().is_empty() {
                    return End::Last { line };
                }
                return End::Cut { line };
            }
            NextLine::ReadFailed => return End::Reading,
            NextLine::FlushFailed => return End::Writing,
        }
    }
}
