// An event after the looks at live pages.
ghost use Rattle.std.specs.Prelude.{◌≡◌, ◌≤◌, ◌+◌, ◌++◌, length};
ghost use Rattle.synic_board.specs.Bounds.{most_notices};
ghost use Rattle.synic_board.specs.declared.event.Event.TheVariants.{Write, Signal};
ghost use Rattle.live_board.specs.inside.Parts.{IsStep};

use board_terms::Notices;
use synic_board::{Board, Event, Reply};

/// Appends notices to those that are there.
pub(crate) fn append(more: &Notices, notices: &mut Notices)
    requires { length notices.old + length more.now ≤ 320 }
    ensures { notices.new ≡ notices.old ++ more.now }
{
    for notice in more.as_slice() {
        notices.push(*notice);
    }
}

/// Performs an event, and appends its notices to those that are there.
#[inline(never)]
pub(crate) fn perform_after(
    board: &mut Board,
    event: &Event,
    scratch: &mut Notices,
    notices: &mut Notices,
) -> Reply
    requires { length notices.old + most_notices event.now ≤ 320 }
    ensures { IsStep board.old.state event.now board.new.state result notices.old notices.new }
{
    if notices.as_slice().is_empty() {
        return board.perform(event, notices);
    }
    let reply = board.perform(event, scratch);
    append(scratch, notices);
    reply
}

/// Performs a signal, and appends its notices to those that are there. The event is made
/// where the board performs it, so it is never in memory.
#[inline(always)]
pub(crate) fn perform_signal(
    board: &mut Board,
    port: u8,
    flag: u16,
    scratch: &mut Notices,
    notices: &mut Notices,
) -> Reply
    requires { length notices.old + 192 ≤ 320 }
    ensures { IsStep board.old.state (Signal port flag) board.new.state result notices.old notices.new }
{
    if notices.as_slice().is_empty() {
        return board.perform(&Event::Signal { port, flag }, notices);
    }
    signal_later(board, port, flag, scratch, notices)
}

/// The same after stores of the guest were found that have notices.
#[cold]
#[inline(never)]
fn signal_later(
    board: &mut Board,
    port: u8,
    flag: u16,
    scratch: &mut Notices,
    notices: &mut Notices,
) -> Reply
    requires { length notices.old + 192 ≤ 320 }
    ensures { IsStep board.old.state (Signal port flag) board.new.state result notices.old notices.new }
{
    perform_after(board, &Event::Signal { port, flag }, scratch, notices)
}

/// Performs a write of a register, and appends its notices to those that are there. The event is
/// made where the board performs it, so it is never in memory.
#[inline(always)]
pub(crate) fn perform_write(
    board: &mut Board,
    vp: u8,
    register: u32,
    value: u64,
    scratch: &mut Notices,
    notices: &mut Notices,
) -> Reply
    requires { length notices.old + 192 ≤ 320 }
    ensures { IsStep board.old.state (Write vp register value) board.new.state result notices.old notices.new }
{
    if notices.as_slice().is_empty() {
        return board.perform(
            &Event::Write {
                vp,
                register,
                value,
            },
            notices,
        );
    }
    write_later(board, vp, register, value, scratch, notices)
}

/// The same after stores of the guest were found that have notices.
#[cold]
#[inline(never)]
fn write_later(
    board: &mut Board,
    vp: u8,
    register: u32,
    value: u64,
    scratch: &mut Notices,
    notices: &mut Notices,
) -> Reply
    requires { length notices.old + 192 ≤ 320 }
    ensures { IsStep board.old.state (Write vp register value) board.new.state result notices.old notices.new }
{
    perform_after(
        board,
        &Event::Write {
            vp,
            register,
            value,
        },
        scratch,
        notices,
    )
}
