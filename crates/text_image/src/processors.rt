// The local APICs and the SynIC registers.
ghost use Rattle.std.specs.Prelude.{◌≡◌, ◌<◌, ◌++◌, ◌∷◌, [], OnOk};
ghost use Rattle.text_base.specs.Fields.{spaced};
ghost use Rattle.text_lines.specs.Printing.{text_of};
ghost use Rattle.synic_board.specs.State.{processors};
ghost use Rattle.text_image.specs.Image.{each_below, lapic_lines, words, status_word, register_lines, source_lines, changed_line};

use crate::numbers::{sint_of, vp_of};
use board_terms::{Sint, Vp};
use lapic_core::VectorSet;
use synic_board::Board;
use synic_regs::Register;
use text_base::{Sink, put_decimal};
use text_lines::{put_decimal_field, put_hex_field};

/// A source that was not written since its processor was reset is masked.
pub const MASKED: u64 = 0x10000;

/// Appends the local APIC of each processor.
pub(crate) fn put_lapics<S: Sink>(out: &mut S, board: &Board) -> Result<(), S::Error>
    ensures { OnOk result (S.text out.new
        ≡ S.text out.old ++ text_of (each_below (processors board.now.state) (lapic_lines board.now.state))) }
{
    for number in 0..board.processors() {
        let vp = vp_of(number);
        put_lapic(out, board, vp)?;
    }
    Ok(())
}

/// Appends a local APIC.
fn put_lapic<S: Sink>(out: &mut S, board: &Board, vp: Vp) -> Result<(), S::Error>
    requires { vp < processors board.now.state }
    ensures { OnOk result (S.text out.new ≡ S.text out.old ++ text_of (lapic_lines board.now.state vp)) }
{
    let lapic = board.lapic(vp);
    out.put(b"lapic")?;
    put_decimal_field(out, u64::from(vp.number()))?;
    put_vectors(out, lapic.requested())?;
    put_vectors(out, lapic.in_service())?;
    put_hex_field(out, u64::from(lapic.task_priority()))?;
    put_status(out, lapic.is_suspended())
}

/// Appends four fields: the words of a set of vectors.
fn put_vectors<S: Sink>(out: &mut S, vectors: &VectorSet) -> Result<(), S::Error>
    ensures { OnOk result (S.text out.new ≡ S.text out.old ++ 32 ∷ spaced (words vectors.now)) }
{
    put_hex_field(out, vectors.word(0))?;
    put_hex_field(out, vectors.word(1))?;
    put_hex_field(out, vectors.word(2))?;
    put_hex_field(out, vectors.word(3))
}

/// Appends the last field of a local APIC, and a line feed.
fn put_status<S: Sink>(out: &mut S, is_suspended: bool) -> Result<(), S::Error>
    ensures { OnOk result (S.text out.new ≡ S.text out.old ++ 32 ∷ (status_word is_suspended ++ 10 ∷ [])) }
{
    if is_suspended {
        out.put(b" suspended\n")
    } else {
        out.put(b" running\n")
    }
}

/// Appends the SynIC registers of each processor.
pub(crate) fn put_registers<S: Sink>(out: &mut S, board: &Board) -> Result<(), S::Error>
    ensures { OnOk result (S.text out.new
        ≡ S.text out.old ++ text_of (each_below (processors board.now.state) (register_lines board.now.state))) }
{
    for number in 0..board.processors() {
        let vp = vp_of(number);
        put_registers_of(out, board, vp)?;
    }
    Ok(())
}

/// Appends the SynIC registers of a processor.
fn put_registers_of<S: Sink>(out: &mut S, board: &Board, vp: Vp) -> Result<(), S::Error>
    requires { vp < processors board.now.state }
    ensures { OnOk result (S.text out.new ≡ S.text out.old ++ text_of (register_lines board.now.state vp)) }
{
    let control = board.register(vp, Register::Control);
    put_register(out, vp, b"scontrol", control)?;
    let sief = board.register(vp, Register::Sief);
    put_register(out, vp, b"siefp", sief)?;
    let sim = board.register(vp, Register::Sim);
    put_register(out, vp, b"simp", sim)?;
    put_sources(out, board, vp)
}

/// Appends a register, unless it is 0.
fn put_register<S: Sink>(out: &mut S, vp: Vp, name: &[u8], value: u64) -> Result<(), S::Error>
    ensures { OnOk result (S.text out.new ≡ S.text out.old ++ text_of (changed_line vp name.now value 0)) }
{
    if value == 0 {
        return Ok(());
    }
    out.put(b"register")?;
    put_decimal_field(out, u64::from(vp.number()))?;
    out.put(b" ")?;
    out.put(name)?;
    put_hex_field(out, value)?;
    out.put(b"\n")
}

/// Appends the sources of a processor.
fn put_sources<S: Sink>(out: &mut S, board: &Board, vp: Vp) -> Result<(), S::Error>
    requires { vp < processors board.now.state }
    ensures { OnOk result (S.text out.new
        ≡ S.text out.old ++ text_of (each_below 16 (source_lines board.now.state vp))) }
{
    for number in 0..16 {
        let sint = sint_of(number);
        put_source(out, board, vp, sint)?;
    }
    Ok(())
}

/// Appends a source, unless it is as after a reset.
fn put_source<S: Sink>(out: &mut S, board: &Board, vp: Vp, sint: Sint) -> Result<(), S::Error>
    requires { vp < processors board.now.state }
    ensures { OnOk result (S.text out.new ≡ S.text out.old ++ text_of (source_lines board.now.state vp sint)) }
{
    let value = board.register(vp, Register::Source(sint));
    if value == MASKED {
        return Ok(());
    }
    out.put(b"register")?;
    put_decimal_field(out, u64::from(vp.number()))?;
    out.put(b" sint")?;
    put_decimal(out, sint.number())?;
    put_hex_field(out, value)?;
    out.put(b"\n")
}
