// Prints summaries.
ghost use Rattle.std.specs.Prelude.{◌≡◌, ◌<◌, ◌≤◌, ◌++◌, [], ◌∷◌, ◌||◌, if◌then◌else◌, length, IfOk, OnOk, None, slice_index_or, codes, decimal};
ghost use Rattle.std.specs.FinSet as set;
ghost use Rattle.text_base.specs.Fields.{line_of};
ghost use Rattle.synic_board.specs.Summaries.{HasSizes};
ghost use Rattle.text_lines.specs.Printing.{text_of, numbered, next_lines, auto_lines, page_lines, queue_lines, queue_line, timer_line, summary_lines};
ghost use Rattle.text_lines.specs.inside.Autos.{auto_part};

use crate::print::{put, put_vector};
use board_terms::{Owner, Sint, TimerId, Vector, Vp};
use synic_board::Summary;
use text_base::{Sink, put_byte, put_decimal};

/// Appends the summary of a board of that many processors and pages to `out`.
pub fn put_summary<S: Sink>(
    out: &mut S,
    summary: &Summary,
    processors: u8,
    pages: u8,
) -> Result<(), S::Error>
    requires sizes { HasSizes processors pages summary.now.values }
    requires bound { processors ≤ 64 }
    ensures { OnOk result (S.text out.new ≡ S.text out.old ++ text_of (summary_lines summary.now.values)) }
{
    put_nexts(out, summary, processors)?;
    put_autos(out, summary, processors)?;
    put_earliest(out, summary.earliest())?;
    put_pages(out, summary, pages)?;
    put_queues(out, summary, 16 * u16::from(processors))
}

/// Appends the next vector of each processor.
fn put_nexts<S: Sink>(out: &mut S, summary: &Summary, processors: u8) -> Result<(), S::Error>
    requires count { processors ≡ length summary.now.values.nexts }
    requires bound { processors ≤ 64 }
    ensures { OnOk result (S.text out.new
        ≡ S.text out.old ++ text_of (numbered next_lines 0 summary.now.values.nexts)) }
{
    for number in 0..processors {
        if let Some(vp) = Vp::new(number) {
            put_next(out, summary, vp)?;
        }
    }
    Ok(())
}

fn put_next<S: Sink>(out: &mut S, summary: &Summary, vp: Vp) -> Result<(), S::Error>
    ensures { OnOk result (S.text out.new
        ≡ S.text out.old ++ text_of (next_lines vp (slice_index_or summary.now.values.nexts vp None))) }
{
    put(out, b": next ")?;
    put_decimal(out, vp.number())?;
    put(out, b" ")?;
    put_vector(out, summary.next(vp))?;
    put(out, b"\n")
}

/// Appends the auto-EOI vectors of each processor that has any.
fn put_autos<S: Sink>(out: &mut S, summary: &Summary, processors: u8) -> Result<(), S::Error>
    requires count { processors ≡ length summary.now.values.autos }
    requires bound { processors ≤ 64 }
    ensures { OnOk result (S.text out.new
        ≡ S.text out.old ++ text_of (numbered auto_lines 0 summary.now.values.autos)) }
{
    for number in 0..processors {
        put_auto(out, summary, number)?;
    }
    Ok(())
}

fn put_auto<S: Sink>(out: &mut S, summary: &Summary, number: u8) -> Result<(), S::Error>
    requires { number < 64 }
    ensures { OnOk result (S.text out.new
        ≡ S.text out.old ++ text_of (auto_lines number (slice_index_or summary.now.values.autos number set.empty))) }
{
    match Vp::new(number) {
        Some(vp) => put_auto_line(out, summary, vp),
        None => Ok(()),
    }
}

fn put_auto_line<S: Sink>(out: &mut S, summary: &Summary, vp: Vp) -> Result<(), S::Error>
    ensures { OnOk result (S.text out.new
        ≡ S.text out.old ++ text_of (auto_lines vp (slice_index_or summary.now.values.autos vp set.empty))) }
{
    let mut any = false;
    for above in 0..240 {
        any = put_if_auto(out, summary, vp, 16 + above, any)?;
    }
    if !any {
        return Ok(());
    }
    put(out, b"\n")
}

/// Appends a vector if it is auto-EOI, and returns whether the line is begun.
fn put_if_auto<S: Sink>(
    out: &mut S,
    summary: &Summary,
    vp: Vp,
    number: u8,
    any: bool,
) -> Result<bool, S::Error>
    requires { 16 ≤ number }
    ensures begun { IfOk result
        (λ now. now ≡ (any || set.contains (slice_index_or summary.now.values.autos vp set.empty) number)) }
    ensures written { OnOk result
        (S.text out.new ≡ S.text out.old
        ++ (if set.contains (slice_index_or summary.now.values.autos vp set.empty) number then auto_part vp number any
        else [])) }
{
    match Vector::new(number) {
        Some(vector) if summary.is_auto(vp, vector) => {
            put_auto_vector(out, vp, vector, any)?;
            Ok(true)
        }
        _ => Ok(any),
    }
}

/// Appends an auto-EOI vector; the first one follows the head of the line.
fn put_auto_vector<S: Sink>(out: &mut S, vp: Vp, vector: Vector, any: bool) -> Result<(), S::Error>
    ensures { OnOk result (S.text out.new ≡ S.text out.old ++ auto_part vp vector any) }
{
    if !any {
        put(out, b": auto ")?;
        put_decimal(out, vp.number())?;
    }
    put(out, b" ")?;
    put_byte(out, vector.number())
}

/// Appends the earliest timer.
fn put_earliest<S: Sink>(out: &mut S, earliest: Option<(u128, TimerId)>) -> Result<(), S::Error>
    ensures { OnOk result (S.text out.new ≡ S.text out.old ++ line_of (timer_line earliest)) }
{
    let Some((due, timer)) = earliest else {
        return put(out, b": timer none\n");
    };
    put(out, b": timer ")?;
    put_decimal(out, due)?;
    put(out, b" ")?;
    put_decimal(out, timer.vp().number())?;
    put(out, b" ")?;
    put_decimal(out, timer.index())?;
    put(out, b"\n")
}

/// Appends each page that an overlay obscures.
fn put_pages<S: Sink>(out: &mut S, summary: &Summary, pages: u8) -> Result<(), S::Error>
    requires { pages ≡ length summary.now.values.owners }
    ensures { OnOk result (S.text out.new
        ≡ S.text out.old ++ text_of (numbered page_lines 0 summary.now.values.owners)) }
{
    for page in 0..pages {
        put_page(out, page, summary.owner(u64::from(page)))?;
    }
    Ok(())
}

fn put_page<S: Sink>(out: &mut S, page: u8, owner: Owner) -> Result<(), S::Error>
    ensures { OnOk result (S.text out.new ≡ S.text out.old ++ text_of (page_lines page owner)) }
{
    match owner {
        Owner::Guest | Owner::Nothing => Ok(()),
        Owner::Sim(vp) => put_overlay(out, page, b"sim", vp),
        Owner::Sief(vp) => put_overlay(out, page, b"sief", vp),
    }
}

fn put_overlay<S: Sink>(out: &mut S, page: u8, kind: &[u8], vp: Vp) -> Result<(), S::Error>
    ensures { OnOk result (S.text out.new
        ≡ S.text out.old ++ text_of ((codes ":" ∷ codes "page" ∷ decimal page ∷ kind.now ∷ decimal vp ∷ []) ∷ [])) }
{
    put(out, b": page ")?;
    put_decimal(out, page)?;
    put(out, b" ")?;
    put(out, kind)?;
    put(out, b" ")?;
    put_decimal(out, vp.number())?;
    put(out, b"\n")
}

/// Appends the length of each queue that is not empty.
fn put_queues<S: Sink>(out: &mut S, summary: &Summary, sources: u16) -> Result<(), S::Error>
    requires count { sources ≡ length summary.now.values.queued }
    requires bound { sources ≤ 1024 }
    ensures { OnOk result (S.text out.new
        ≡ S.text out.old ++ text_of (numbered queue_lines 0 summary.now.values.queued)) }
{
    for place in 0..sources {
        let (vp, sint) = ((place / 16) as u8, (place % 16) as u8);
        if let (Some(vp), Some(sint)) = (Vp::new(vp), Sint::new(sint)) {
            put_queue(out, place, summary.queued(vp, sint))?;
        }
    }
    Ok(())
}

fn put_queue<S: Sink>(out: &mut S, place: u16, count: u16) -> Result<(), S::Error>
    ensures { OnOk result (S.text out.new ≡ S.text out.old ++ text_of (queue_lines place count)) }
{
    if count == 0 {
        return Ok(());
    }
    put_length(out, place, count)
}

fn put_length<S: Sink>(out: &mut S, place: u16, count: u16) -> Result<(), S::Error>
    ensures { OnOk result (S.text out.new ≡ S.text out.old ++ text_of (queue_line place count ∷ [])) }
{
    put(out, b": queue ")?;
    put_decimal(out, place / 16)?;
    put(out, b" ")?;
    put_decimal(out, place % 16)?;
    put(out, b" ")?;
    put_decimal(out, count)?;
    put(out, b"\n")
}
