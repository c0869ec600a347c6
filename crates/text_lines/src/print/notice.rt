// Prints notices.
ghost use Rattle.std.specs.Prelude.{◌≡◌, ◌≤◌, ◌++◌, ◌∷◌, [], OnOk, map, decimal};
ghost use Rattle.text_base.specs.Fields.{line_of};
ghost use Rattle.text_base.specs.Numbers.{two_digits};
ghost use Rattle.text_lines.specs.Printing.{notice_fields, text_of};

use board_terms::{Notice, Sint, Ticket, Vp};
use text_base::{FRONT, Sink, byte_before, decimal_before, small_before, text_before};

/// Appends a line for each notice to `out`.
#[inline(always)]
pub fn put_notices<S: Sink>(out: &mut S, notices: &[Notice]) -> Result<(), S::Error>
    ensures { OnOk result (S.text out.new ≡ S.text out.old ++ text_of (map notice_fields notices.now)) }
{
    for notice in notices {
        put_notice(out, notice)?;
    }
    Ok(())
}

/// Appends the line of a notice.
#[inline(always)]
fn put_notice<S: Sink>(out: &mut S, notice: &Notice) -> Result<(), S::Error>
    ensures { OnOk result (S.text out.new ≡ S.text out.old ++ line_of (notice_fields notice.now)) }
{
    match *notice {
        Notice::Accepted { ticket, vp, sint } => put_message(out, b". accepted ", ticket, vp, sint),
        Notice::Placed { ticket, vp, sint } => put_message(out, b". placed ", ticket, vp, sint),
        Notice::Pending { vp, sint } => put_source(out, b". pending ", vp, sint),
        Notice::Requested { vp, vector } => put_request(out, b". requested ", vp, vector.number()),
        Notice::FlagSet { vp, sint, flag } => {
            put_numbers(out, b". flag ", vp, sint.number(), u64::from(flag))
        }
        Notice::Consumed { ticket, vp, sint } => put_message(out, b". consumed ", ticket, vp, sint),
        Notice::Withdrawn { ticket, vp, sint } => {
            put_message(out, b". withdrawn ", ticket, vp, sint)
        }
        Notice::Expired { vp, index, due } => put_numbers(out, b". expired ", vp, index, due),
        Notice::Skipped { vp, index, count } => put_numbers(out, b". skipped ", vp, index, count),
    }
}

/// Appends the line of a notice with a ticket, a processor and a source.
#[inline(always)]
fn put_message<S: Sink, const N: usize>(
    out: &mut S,
    head: &[u8; N],
    ticket: Ticket,
    vp: Vp,
    sint: Sint,
) -> Result<(), S::Error>
    requires { N ≤ 16 }
    ensures { OnOk result (S.text out.new
        ≡ S.text out.old ++ (head.now ++ line_of (decimal ticket ∷ decimal vp ∷ decimal sint ∷ []))) }
{
    let mut room = [0u8; FRONT];
    let at = text_before(&mut room, FRONT, b"\n");
    let at = small_before(&mut room, at, sint.number());
    let at = text_before(&mut room, at, b" ");
    let at = small_before(&mut room, at, vp.number());
    let at = text_before(&mut room, at, b" ");
    let at = decimal_before(&mut room, at, ticket);
    let at = text_before(&mut room, at, head);
    out.put(&room[at..])
}

/// Appends the line of a notice with a processor, the number of its source or timer, and a value.
#[inline(always)]
fn put_numbers<S: Sink, const N: usize>(
    out: &mut S,
    head: &[u8; N],
    vp: Vp,
    number: u8,
    value: u64,
) -> Result<(), S::Error>
    requires { N ≤ 16 }
    ensures { OnOk result (S.text out.new
        ≡ S.text out.old ++ (head.now ++ line_of (decimal vp ∷ decimal number ∷ decimal value ∷ []))) }
{
    let mut room = [0u8; FRONT];
    let at = text_before(&mut room, FRONT, b"\n");
    let at = decimal_before(&mut room, at, value);
    let at = text_before(&mut room, at, b" ");
    let at = small_before(&mut room, at, number);
    let at = text_before(&mut room, at, b" ");
    let at = small_before(&mut room, at, vp.number());
    let at = text_before(&mut room, at, head);
    out.put(&room[at..])
}

/// Appends the line of a notice with a processor and a source.
#[inline(always)]
fn put_source<S: Sink, const N: usize>(
    out: &mut S,
    head: &[u8; N],
    vp: Vp,
    sint: Sint,
) -> Result<(), S::Error>
    requires { N ≤ 16 }
    ensures { OnOk result (S.text out.new ≡ S.text out.old ++ (head.now ++ line_of (decimal vp ∷ decimal sint ∷ []))) }
{
    let mut room = [0u8; FRONT];
    let at = text_before(&mut room, FRONT, b"\n");
    let at = small_before(&mut room, at, sint.number());
    let at = text_before(&mut room, at, b" ");
    let at = small_before(&mut room, at, vp.number());
    let at = text_before(&mut room, at, head);
    out.put(&room[at..])
}

/// Appends the line of a notice with a processor and a vector.
#[inline(always)]
fn put_request<S: Sink, const N: usize>(
    out: &mut S,
    head: &[u8; N],
    vp: Vp,
    vector: u8,
) -> Result<(), S::Error>
    requires { N ≤ 16 }
    ensures { OnOk result (S.text out.new
        ≡ S.text out.old ++ (head.now ++ line_of (decimal vp ∷ two_digits vector ∷ []))) }
{
    let mut room = [0u8; FRONT];
    let at = text_before(&mut room, FRONT, b"\n");
    let at = byte_before(&mut room, at, vector);
    let at = text_before(&mut room, at, b" ");
    let at = small_before(&mut room, at, vp.number());
    let at = text_before(&mut room, at, head);
    out.put(&room[at..])
}
