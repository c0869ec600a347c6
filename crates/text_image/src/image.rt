// The lines of an image, section by section. Each function appends to `out`; an error is an
// allocation failure.
ghost use Rattle.std.specs.Prelude.{◌≡◌, ◌++◌, OnOk, Some, length};
ghost use Rattle.text_base.specs.Fields.{line_of};
ghost use Rattle.text_lines.specs.Items.{Opening, item_fields};
ghost use Rattle.text_lines.specs.Printing.{text_of};
ghost use Rattle.synic_board.specs.State.{processors};
ghost use Rattle.text_image.specs.Image.{image, each_below, moment_lines, head_lines, port_lines};

use crate::messages::{put_queues, put_slots};
use crate::pages::{put_guest_pages, put_own_pages};
use crate::processors::{put_lapics, put_registers};
use crate::timers::put_timers;
use board_terms::{Moment, Ticket};
use event_ports::port_count;
use synic_board::{Board, Event};
use text_base::{Sink, put_decimal};
use text_lines::put_event;

/// Appends the image of a board to `out`: how its state differs from that of a newly opened board,
/// as lines. The cached summary, the order of the timers and the count of writes are not in it.
pub fn put_image<S: Sink>(out: &mut S, board: &Board) -> Result<(), S::Error>
    ensures { OnOk result (S.text out.new ≡ S.text out.old ++ image board.now.state) }
{
    put_head(out, board)?;
    put_lapics(out, board)?;
    put_registers(out, board)?;
    put_guest_pages(out, board)?;
    put_own_pages(out, board)?;
    put_ports(out, board)?;
    put_timers(out, board)?;
    put_queues(out, board)?;
    put_slots(out, board)?;
    out.put(b"end\n")
}

/// Appends the title, the board line and the moment.
fn put_head<S: Sink>(out: &mut S, board: &Board) -> Result<(), S::Error>
    ensures { OnOk result (S.text out.new ≡ S.text out.old ++ text_of (head_lines board.now.state)) }
{
    out.put(b"image 1\n")?;
    put_opening(out, board.processors(), board.pages(), board.next_ticket())?;
    put_moment(out, board.moment())
}

/// Appends the board line.
fn put_opening<S: Sink>(
    out: &mut S,
    processors: u8,
    pages: u8,
    next_ticket: Ticket,
) -> Result<(), S::Error>
    ensures { OnOk result (S.text out.new
        ≡ S.text out.old ++ line_of (item_fields (Opening processors (Some pages) next_ticket))) }
{
    out.put(b"board ")?;
    put_decimal(out, processors)?;
    out.put(b" ")?;
    put_decimal(out, pages)?;
    out.put(b" ")?;
    put_decimal(out, next_ticket)?;
    out.put(b"\n")
}

/// Appends the present time, unless it is 0.
fn put_moment<S: Sink>(out: &mut S, moment: Moment) -> Result<(), S::Error>
    ensures { OnOk result (S.text out.new ≡ S.text out.old ++ text_of (moment_lines moment)) }
{
    if moment == 0 {
        return Ok(());
    }
    out.put(b"moment ")?;
    put_decimal(out, moment)?;
    out.put(b"\n")
}

/// Appends the open ports.
fn put_ports<S: Sink>(out: &mut S, board: &Board) -> Result<(), S::Error>
    ensures { OnOk result (S.text out.new
        ≡ S.text out.old ++ text_of (each_below (length board.now.state.ports) (port_lines board.now.state))) }
{
    board.facts();
    // 256 ports are more than a u8 counts
    for number in 0..port_count(board.processors(), board.pages() == 0) {
        put_port(out, board, number as u8)?;
    }
    Ok(())
}

/// Appends a port, if it is open.
fn put_port<S: Sink>(out: &mut S, board: &Board, number: u8) -> Result<(), S::Error>
    ensures { OnOk result (S.text out.new ≡ S.text out.old ++ text_of (port_lines board.now.state number)) }
{
    let Some(port) = board.port(number) else {
        return Ok(());
    };
    let event = Event::OpenPort {
        port: number,
        vp: port.vp.number(),
        sint: port.sint.number(),
        shape: port.shape,
    };
    put_event(out, &event)?;
    out.put(b"\n")
}
