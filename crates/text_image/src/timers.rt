// The timers of the processors.
ghost use Rattle.std.specs.Prelude.{◌≡◌, ◌<◌, ◌++◌, ◌∷◌, Option, OnOk};
ghost use Rattle.text_base.specs.Fields.{spaced, line_of};
ghost use Rattle.text_lines.specs.Printing.{text_of};
ghost use Rattle.synic_board.specs.State.{processors};
ghost use Rattle.text_image.specs.Image.{each_below, timers_lines, timer_lines, timer_fields, due_fields};

use crate::numbers::{timer_of, vp_of};
use board_terms::Vp;
use synic_board::Board;
use text_base::Sink;
use text_lines::{put_decimal_field, put_hex_field};

/// One more than the greatest 64-bit word.
const WORD: u128 = 1 << 64;

/// Appends the timers of each processor.
pub(crate) fn put_timers<S: Sink>(out: &mut S, board: &Board) -> Result<(), S::Error>
    ensures { OnOk result (S.text out.new
        ≡ S.text out.old ++ text_of (each_below (processors board.now.state) (timers_lines board.now.state))) }
{
    for number in 0..board.processors() {
        let vp = vp_of(number);
        put_timers_of(out, board, vp)?;
    }
    Ok(())
}

/// Appends the timers of a processor.
fn put_timers_of<S: Sink>(out: &mut S, board: &Board, vp: Vp) -> Result<(), S::Error>
    ensures { OnOk result (S.text out.new ≡ S.text out.old ++ text_of (timers_lines board.now.state vp)) }
{
    for index in 0..4 {
        put_timer(out, board, vp, index)?;
    }
    Ok(())
}

/// Appends a timer, unless it is idle.
fn put_timer<S: Sink>(out: &mut S, board: &Board, vp: Vp, index: u8) -> Result<(), S::Error>
    requires { index < 4 }
    ensures { OnOk result (S.text out.new ≡ S.text out.old ++ text_of (timer_lines board.now.state vp index)) }
{
    let (config, count, due) = board.timer(timer_of(vp, index));
    if config == 0 && count == 0 && due.is_none() {
        return Ok(());
    }
    put_timer_line(out, vp, index, config, count, due)
}

/// Appends a timer.
fn put_timer_line<S: Sink>(
    out: &mut S,
    vp: Vp,
    index: u8,
    config: u64,
    count: u64,
    due: Option<u128>,
) -> Result<(), S::Error>
    ensures { OnOk result (S.text out.new ≡ S.text out.old ++ line_of (timer_fields (vp, index) config count due)) }
{
    out.put(b"timer")?;
    put_decimal_field(out, u64::from(vp.number()))?;
    put_decimal_field(out, u64::from(index))?;
    put_hex_field(out, config)?;
    put_hex_field(out, count)?;
    put_due(out, due)?;
    out.put(b"\n")
}

/// Appends the fields of a deadline: its high and its low 64 bits.
fn put_due<S: Sink>(out: &mut S, due: Option<u128>) -> Result<(), S::Error>
    ensures { OnOk result (S.text out.new ≡ S.text out.old ++ 32 ∷ spaced (due_fields due)) }
{
    let Some(due) = due else {
        return out.put(b" stopped");
    };
    out.put(b" due")?;
    put_hex_field(out, (due / WORD) as u64)?;
    put_hex_field(out, (due % WORD) as u64)
}
