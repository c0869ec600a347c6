// The faults of script lines.
ghost use Rattle.std.specs.Prelude.{◌≡◌, ◌++◌, Some, OnOk};
ghost use Rattle.text_lines.specs.Faults.{is_skipped, fault_word, fault_text};

use std::alloc::AllocError;
use text_base::put_decimal;

/// What is wrong with a line of a script. The faults are checked in this order.
#[derive(Clone, Copy, PartialEq, Eq, Debug)]
pub enum ScriptFault {
    /// The line has more than 640 bytes.
    Long,
    /// The input ends inside the line.
    Cut,
    /// The first line that is not skipped is not a board line.
    First,
    /// The board line has sizes outside the limits.
    Size,
    /// The line denotes nothing at this place.
    Form,
    /// The line adds one actor, line or step more than a crew may have.
    Many,
}

/// Whether a script skips a line: it is empty or a comment.
pub fn skips(line: &[u8]) -> bool
    ensures { result ≡ is_skipped line.now }
{
    match line {
        [] => true,
        [first, ..] => *first == b'#',
    }
}

/// Appends the line of a fault to `out`. An error is an allocation failure.
pub fn put_fault(out: &mut Vec<u8>, line: u64, fault: ScriptFault) -> Result<(), AllocError>
    ensures { OnOk result (out.new.items ≡ out.old.items ++ fault_text (Some (line, fault))) }
{
    out.extend_from_slice(b"! ")?;
    put_decimal(out, line)?;
    out.extend_from_slice(b" ")?;
    out.extend_from_slice(word_of(fault))?;
    out.extend_from_slice(b"\n")
}

fn word_of(fault: ScriptFault) -> &'static [u8]
    ensures { result.now ≡ fault_word fault }
{
    match fault {
        ScriptFault::Long => b"long",
        ScriptFault::Cut => b"cut",
        ScriptFault::First => b"first",
        ScriptFault::Size => b"size",
        ScriptFault::Form => b"form",
        ScriptFault::Many => b"many",
    }
}
