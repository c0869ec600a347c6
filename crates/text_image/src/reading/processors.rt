// Parses a local APIC, or a SynIC register.
ghost use Rattle.std.specs.Prelude.{◌≡◌, ◌∷◌};
ghost use Rattle.text_lines.specs.Reading.{TakesNumber, first_read};
ghost use Rattle.text_image.specs.Parsing.{hex_u8_at, status_at, source_at, read_vectors, parse_lapic, parse_register, parse_named, parse_control, parse_overlay, parse_source};
ghost use Rattle.text_image.specs.inside.Taking.{Takes};

use crate::numbers::sint_of;
use crate::piece::Piece;
use board_terms::{Kind, Sint};
use lapic_core::{Lapic, VectorSet};
use text_base::{Fields, decimal_of, is_word};
use text_lines::{hex_u64_of, u8_of};

pub(crate) fn lapic_of(fields: &mut Fields<'_>) -> Option<Piece>
    ensures { result ≡ parse_lapic fields.old }
{
    let vp = u8_of(fields)?;
    let requested = vectors_of(fields)?;
    let in_service = vectors_of(fields)?;
    let task_priority = hex_u8_of(fields)?;
    let is_suspended = status_of(fields)?;
    if !fields.is_empty() {
        return None;
    }
    let lapic = Lapic::restore(requested, in_service, task_priority, is_suspended);
    Some(Piece::Lapic { vp, lapic })
}

/// Four words: a set of vectors.
fn vectors_of(fields: &mut Fields<'_>) -> Option<VectorSet>
    ensures { Takes read_vectors result fields.old fields.new }
{
    let first = hex_u64_of(fields)?;
    let second = hex_u64_of(fields)?;
    let third = hex_u64_of(fields)?;
    let fourth = hex_u64_of(fields)?;
    VectorSet::from_words([first, second, third, fourth])
}

/// A hexadecimal number up to 255.
fn hex_u8_of(fields: &mut Fields<'_>) -> Option<u8>
    ensures { TakesNumber hex_u8_at result fields.old fields.new }
{
    let number = fields.hexadecimal(u64::from(u8::MAX))?;
    Some(number as u8)
}

/// Whether the processor is suspended.
fn status_of(fields: &mut Fields<'_>) -> Option<bool>
    ensures { Takes (first_read status_at) result fields.old fields.new }
{
    let word = fields.next()?;
    if is_word(word, b"suspended") {
        return Some(true);
    }
    if is_word(word, b"running") {
        return Some(false);
    }
    None
}

pub(crate) fn register_of(fields: &mut Fields<'_>) -> Option<Piece>
    ensures { result ≡ parse_register fields.old }
{
    let vp = u8_of(fields)?;
    let name = fields.next()?;
    named_of(vp, name, fields)
}

/// The register with that name.
fn named_of(vp: u8, name: &[u8], fields: &mut Fields<'_>) -> Option<Piece>
    ensures { result ≡ parse_named vp (name.now ∷ fields.old) }
{
    if is_word(name, b"scontrol") {
        return control_of(vp, fields);
    }
    if is_word(name, b"siefp") {
        return overlay_of(vp, Kind::Sief, fields);
    }
    if is_word(name, b"simp") {
        return overlay_of(vp, Kind::Sim, fields);
    }
    source_of(vp, name, fields)
}

fn control_of(vp: u8, fields: &mut Fields<'_>) -> Option<Piece>
    ensures { result ≡ parse_control vp fields.old }
{
    let value = hex_u64_of(fields)?;
    if !fields.is_empty() {
        return None;
    }
    Some(Piece::Control { vp, value })
}

fn overlay_of(vp: u8, kind: Kind, fields: &mut Fields<'_>) -> Option<Piece>
    ensures { result ≡ parse_overlay vp kind fields.old }
{
    let value = hex_u64_of(fields)?;
    if !fields.is_empty() {
        return None;
    }
    Some(Piece::Overlay { vp, kind, value })
}

fn source_of(vp: u8, name: &[u8], fields: &mut Fields<'_>) -> Option<Piece>
    ensures { result ≡ parse_source vp (name.now ∷ fields.old) }
{
    let sint = source_named(name)?;
    let value = hex_u64_of(fields)?;
    if !fields.is_empty() {
        return None;
    }
    Some(Piece::Source { vp, sint, value })
}

/// The source that `sint0` to `sint15` name.
fn source_named(name: &[u8]) -> Option<Sint>
    ensures { result ≡ source_at name.now }
{
    if name.len() < 4 || !is_word(&name[..4], b"sint") {
        return None;
    }
    let number = decimal_of(&name[4..], 15)?;
    Some(sint_of(number as u8))
}
