// Checking a trace.
ghost use Rattle.std.specs.Prelude.{◌≡◌, ◌++◌, OnOk};
ghost use Rattle.text_base.specs.Streams.{ReadsUpTo};
ghost use Rattle.text_trace.specs.Verdicts.{Checks, most_read, StopsNear, verdict_text};
ghost use Rattle.text_trace.specs.inside.Concluding.{conclusion, Concludes, WritesVerdict};

use crate::judge::TraceJudge;
use crate::stage::{Stage, entries_of};
use board_terms::Notices;
use std::alloc::{AllocError, Global};
use std::io::{Read, Write};
use text_base::put_decimal;
use text_driver::{End, close, drive};

/// The result of a check.
#[derive(Clone, Copy, PartialEq, Eq, Debug)]
pub enum CheckEnd {
    /// The input is the trace of a legal history of that many entries.
    Legal(u64),
    /// The input is not; this line is the first wrong one. Lines are counted from 1.
    Refused(u64),
    /// An allocation failed.
    Memory,
    /// A read failed, or the input has more than 1,073,741,824 bytes.
    Reading,
    /// A write or a flush failed, or a write returned 0.
    Writing,
}

/// The verdict of a check.
#[derive(Clone, Copy)]
enum Verdict {
    Legal(u64),
    Refused(u64),
}

/// Checks whether the input is the trace of a legal history. Writes `legal` with the number of its
/// entries, or `refused` with the first wrong line; lines after that are not checked. The memory
/// that this allocates does not depend on the length of the trace.
pub fn check_trace<R: Read, W: Write>(alloc: Global, reader: &mut R, writer: &mut W) -> CheckEnd
    ensures verdict { Checks result (R.remaining reader.old) (W.contents writer.old) (W.contents writer.new) }
    ensures limit { ReadsUpTo (most_read result) (R.remaining reader.old) (R.remaining reader.new) }
    ensures near { StopsNear result (R.remaining reader.old) (R.remaining reader.new) }
{
    let Ok(notices) = Notices::open(alloc) else {
        return CheckEnd::Memory;
    };
    let mut judge = TraceJudge {
        alloc,
        stage: Stage::Title,
        notices,
        text: Vec::new(alloc),
    };
    let end = drive(alloc, reader, writer, &mut judge);
    conclude(alloc, writer, end, entries_of(&judge.stage))
}

/// Writes the verdict when reading ends, given the number of entries if the trace is complete. It
/// is separate from `check_trace`, so that one owner drops everything.
fn conclude<W: Write>(alloc: Global, writer: &mut W, end: End<()>, entries: Option<u64>) -> CheckEnd
    ensures { Concludes (conclusion end entries) result (W.contents writer.old) (W.contents writer.new) }
{
    match end {
        End::Last { line } => match entries {
            Some(entries) => say(alloc, writer, Verdict::Legal(entries)),
            None => say(alloc, writer, Verdict::Refused(line)),
        },
        End::Wrong { line, .. } | End::Long { line } | End::Cut { line } => {
            say(alloc, writer, Verdict::Refused(line))
        }
        End::Memory => CheckEnd::Memory,
        End::Reading => CheckEnd::Reading,
        End::Writing => CheckEnd::Writing,
    }
}

/// Writes the verdict's line, and flushes.
fn say<W: Write>(alloc: Global, writer: &mut W, verdict: Verdict) -> CheckEnd
    ensures { WritesVerdict result verdict (W.contents writer.old) (W.contents writer.new) }
{
    let mut out = Vec::new(alloc);
    if put_verdict(&mut out, verdict).is_err() {
        return CheckEnd::Memory;
    }
    if !close(writer, out.as_slice()) {
        return CheckEnd::Writing;
    }
    match verdict {
        Verdict::Legal(entries) => CheckEnd::Legal(entries),
        Verdict::Refused(line) => CheckEnd::Refused(line),
    }
}

/// Appends the verdict's line to `out`.
fn put_verdict(out: &mut Vec<u8>, verdict: Verdict) -> Result<(), AllocError>
    ensures { OnOk result (out.new.items ≡ out.old.items ++ verdict_text verdict) }
{
    match verdict {
        Verdict::Legal(entries) => {
            out.extend_from_slice(b"legal ")?;
            put_decimal(out, entries)?;
        }
        Verdict::Refused(line) => {
            out.extend_from_slice(b"refused ")?;
            put_decimal(out, line)?;
        }
    }
    out.extend_from_slice(b"\n")
}
