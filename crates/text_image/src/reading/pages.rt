// Parses 256 bytes of a page.
ghost use Rattle.std.specs.Prelude.{◌≡◌};
ghost use Rattle.text_lines.specs.Reading.{TakesNumber, first_read};
ghost use Rattle.text_image.specs.Parsing.{offset_at, kind_at, parse_guest, parse_own};
ghost use Rattle.text_image.specs.inside.Taking.{Takes, TakesBlock};

use crate::piece::{Block, Piece};
use arrayvec::ArrayVec;
use board_terms::Kind;
use text_base::{Fields, is_word};
use text_lines::u8_of;

pub(crate) fn guest_of(fields: &mut Fields<'_>) -> Option<Piece>
    ensures { result ≡ parse_guest fields.old }
{
    let page = u8_of(fields)?;
    let at = offset_of(fields)?;
    let bytes = block_of(fields)?;
    if !fields.is_empty() {
        return None;
    }
    Some(Piece::Guest { page, at, bytes })
}

pub(crate) fn own_of(fields: &mut Fields<'_>) -> Option<Piece>
    ensures { result ≡ parse_own fields.old }
{
    let vp = u8_of(fields)?;
    let kind = kind_of(fields)?;
    let at = offset_of(fields)?;
    let bytes = block_of(fields)?;
    if !fields.is_empty() {
        return None;
    }
    Some(Piece::Own {
        vp,
        kind,
        at,
        bytes,
    })
}

/// Which page of a processor it is.
fn kind_of(fields: &mut Fields<'_>) -> Option<Kind>
    ensures { Takes (first_read kind_at) result fields.old fields.new }
{
    let word = fields.next()?;
    if is_word(word, b"sim") {
        return Some(Kind::Sim);
    }
    if is_word(word, b"sief") {
        return Some(Kind::Sief);
    }
    None
}

/// An offset within a page, in hexadecimal.
fn offset_of(fields: &mut Fields<'_>) -> Option<u16>
    ensures { TakesNumber offset_at result fields.old fields.new }
{
    let at = fields.hexadecimal(0xfff)?;
    Some(at as u16)
}

/// 256 bytes, two hexadecimal digits each.
fn block_of(fields: &mut Fields<'_>) -> Option<Block>
    ensures { TakesBlock result fields.old fields.new }
{
    let mut bytes = ArrayVec::new();
    fields.bytes(&mut bytes)?;
    if !bytes.is_full() {
        return None;
    }
    Some(bytes)
}
