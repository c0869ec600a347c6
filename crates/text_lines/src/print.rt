// Printing. Each function appends to `out`, and fails if `out` does.
mod event;
mod notice;
mod reply;
mod summary;

ghost use Rattle.std.specs.Prelude.{◌≡◌, ◌++◌, Option, OnOk};
ghost use Rattle.text_base.specs.Numbers.{AreBytes};
ghost use Rattle.text_lines.specs.Events.{bytes_text};
ghost use Rattle.text_lines.specs.Printing.{vector_or_none};

use board_terms::Vector;
pub use event::{put_decimal_field, put_event, put_hex_field};
pub use notice::put_notices;
pub use reply::put_reply;
pub use summary::put_summary;
use text_base::{Sink, put_byte, put_bytes};

/// Appends a text.
#[inline(always)]
fn put<S: Sink>(out: &mut S, text: &[u8]) -> Result<(), S::Error>
    ensures { OnOk result (S.text out.new ≡ S.text out.old ++ text.now) }
{
    out.put(text)
}

/// Appends bytes as two digits each, or `-` for none.
pub fn put_data<S: Sink>(out: &mut S, bytes: &[u8]) -> Result<(), S::Error>
    ensures written { OnOk result (S.text out.new ≡ S.text out.old ++ bytes_text bytes.now) }
    ensures fits { AreBytes bytes.now }
{
    if bytes.is_empty() {
        return put(out, b"-");
    }
    put_bytes(out, bytes)
}

/// Appends a vector, or `none`.
#[inline(always)]
fn put_vector<S: Sink>(out: &mut S, vector: Option<Vector>) -> Result<(), S::Error>
    ensures { OnOk result (S.text out.new ≡ S.text out.old ++ vector_or_none vector) }
{
    match vector {
        Some(vector) => put_byte(out, vector.number()),
        None => put(out, b"none"),
    }
}
