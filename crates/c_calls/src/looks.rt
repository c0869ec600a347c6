// Queries, which change nothing.
ghost use Rattle.std.specs.Prelude.{◌≡◌, None};
ghost use Rattle.std.specs.FinSet as set;
ghost use Rattle.board_terms.specs.declared.pages.Owner.TheVariants as owner;
ghost use Rattle.c_calls.specs.Looks.{next_vector_of, is_auto_eoi_of, owner_to_c, owner_at, IsNextOverlayOf, queue_length_of, deadline_to_c, earliest_of, earliest_after_of, alarm_of, time_of, next_ticket_of};

use board_terms::{Owner, Sint, TimerId, Vector, Vp};
use c_handles::BoardHandle;

/// Which page a guest sees. `kind` is 0 if there is no such page or no board, 1 for the guest page,
/// and 2 or 3 for the message or the event flags page of processor `vp`. For other kinds `vp` is 0.
#[repr(C)]
#[derive(Clone, Copy, PartialEq)]
pub struct COwner {
    pub kind: u8,
    pub vp: u8,
}

/// A page at which a guest sees an overlay, and its owner. All 0 if there is none.
#[repr(C)]
#[derive(Clone, Copy, PartialEq)]
pub struct COverlay {
    pub owner: COwner,
    pub page: u64,
}

/// The earliest deadline: if `is_due`, timer `timer` of processor `vp` is due at `high` * 2^64 +
/// `low`, in units of 100 ns. The clock never reaches a deadline with `high` above 0.
#[repr(C)]
#[derive(Clone, Copy, PartialEq)]
pub struct CDeadline {
    pub is_due: bool,
    pub vp: u8,
    pub timer: u8,
    pub low: u64,
    pub high: u64,
}

/// The next vector of a processor; 0 if there is none, no such processor, or no board.
#[unsafe(no_mangle)]
pub extern "C" fn synicboard_next(handle: &mut BoardHandle, vp: u8) -> u8
    ensures board { handle.new.board ≡ handle.old.board }
    ensures next { result ≡ next_vector_of handle.old.board vp }
{
    let (Some(board), Some(vp)) = (handle.board_mut(), Vp::new(vp)) else {
        return 0;
    };
    match board.board().summary().next(vp) {
        Some(vector) => vector.number(),
        None => 0,
    }
}

/// Whether a vector is auto-EOI on a processor.
#[unsafe(no_mangle)]
pub extern "C" fn synicboard_is_auto(handle: &mut BoardHandle, vp: u8, vector: u8) -> bool
    ensures board { handle.new.board ≡ handle.old.board }
    ensures auto { result ≡ is_auto_eoi_of handle.old.board vp vector }
{
    let (Some(vp), Some(vector)) = (Vp::new(vp), Vector::new(vector)) else {
        return false;
    };
    match handle.board_mut() {
        Some(board) => board.board().summary().is_auto(vp, vector),
        None => false,
    }
}

/// Which page a guest sees at a page number.
#[unsafe(no_mangle)]
pub extern "C" fn synicboard_owner(handle: &mut BoardHandle, page: u64) -> COwner
    ensures board { handle.new.board ≡ handle.old.board }
    ensures owner { result ≡ owner_at handle.old.board page }
{
    match handle.board_mut() {
        Some(board) => owner_to_c(board.board().owner(page)),
        None => owner_to_c(Owner::Nothing),
    }
}

/// The first page from `from` on at which a guest sees an overlay. Kind 0 if there is none.
#[unsafe(no_mangle)]
pub extern "C" fn synicboard_next_overlay(handle: &mut BoardHandle, from: u64) -> COverlay
    ensures board { handle.new.board ≡ handle.old.board }
    ensures overlay { IsNextOverlayOf handle.old.board from result }
{
    let next = match handle.board_mut() {
        Some(board) => board.board().next_overlay(from),
        None => None,
    };
    match next {
        Some((page, owner)) => COverlay {
            owner: owner_to_c(owner),
            page,
        },
        None => COverlay {
            owner: owner_to_c(Owner::Nothing),
            page: 0,
        },
    }
}

/// An owner as a struct.
fn owner_to_c(owner: Owner) -> COwner
    ensures { result ≡ owner_to_c owner }
{
    match owner {
        Owner::Nothing => COwner { kind: 0, vp: 0 },
        Owner::Guest => COwner { kind: 1, vp: 0 },
        Owner::Sim(vp) => COwner {
            kind: 2,
            vp: vp.number(),
        },
        Owner::Sief(vp) => COwner {
            kind: 3,
            vp: vp.number(),
        },
    }
}

/// How many messages are queued for a source of a processor.
#[unsafe(no_mangle)]
pub extern "C" fn synicboard_queued(handle: &mut BoardHandle, vp: u8, sint: u8) -> u16
    ensures board { handle.new.board ≡ handle.old.board }
    ensures count { result ≡ queue_length_of handle.old.board vp sint }
{
    let (Some(vp), Some(sint)) = (Vp::new(vp), Sint::new(sint)) else {
        return 0;
    };
    match handle.board_mut() {
        Some(board) => board.board().summary().queued(vp, sint),
        None => 0,
    }
}

/// The timer with the earliest deadline.
#[unsafe(no_mangle)]
pub extern "C" fn synicboard_earliest(handle: &mut BoardHandle) -> CDeadline
    ensures board { handle.new.board ≡ handle.old.board }
    ensures due { result ≡ earliest_of handle.old.board }
{
    earliest_on(handle)
}

/// The same, for calls of this crate.
pub(crate) fn earliest_on(handle: &mut BoardHandle) -> CDeadline
    ensures board { handle.new.board ≡ handle.old.board }
    ensures due { result ≡ earliest_of handle.old.board }
{
    let earliest = match handle.board_mut() {
        Some(board) => board.board().summary().earliest(),
        None => None,
    };
    deadline_to_c(earliest)
}

/// The timer with the earliest deadline that is later than `moment`.
#[unsafe(no_mangle)]
pub extern "C" fn synicboard_earliest_after(handle: &mut BoardHandle, moment: u64) -> CDeadline
    ensures board { handle.new.board ≡ handle.old.board }
    ensures due { result ≡ earliest_after_of handle.old.board moment }
{
    let earliest = match handle.board_mut() {
        Some(board) => board.board().earliest_after(moment),
        None => None,
    };
    deadline_to_c(earliest)
}

/// When a host must tick next: at `moment`, if `is_set`.
#[repr(C)]
#[derive(Clone, Copy, PartialEq)]
pub struct CAlarm {
    pub is_set: bool,
    pub moment: u64,
}

/// The least time after the present at which a tick makes a timer expire or skip periods.
#[unsafe(no_mangle)]
pub extern "C" fn synicboard_alarm(handle: &mut BoardHandle) -> CAlarm
    ensures board { handle.new.board ≡ handle.old.board }
    ensures alarm { result ≡ alarm_of handle.old.board }
{
    let alarm = match handle.board_mut() {
        Some(board) => board.board().alarm(),
        None => None,
    };
    match alarm {
        Some(moment) => CAlarm {
            is_set: true,
            moment,
        },
        None => CAlarm {
            is_set: false,
            moment: 0,
        },
    }
}

/// A timer with its deadline as a struct.
fn deadline_to_c(earliest: Option<(u128, TimerId)>) -> CDeadline
    ensures { result ≡ deadline_to_c earliest }
{
    match earliest {
        Some((due, timer)) => CDeadline {
            is_due: true,
            vp: timer.vp().number(),
            timer: timer.index(),
            low: (due % (1 << 64)) as u64,
            high: (due >> 64) as u64,
        },
        None => CDeadline {
            is_due: false,
            vp: 0,
            timer: 0,
            low: 0,
            high: 0,
        },
    }
}

/// The present time, in units of 100 ns; 0 if there is no board.
#[unsafe(no_mangle)]
pub extern "C" fn synicboard_moment(handle: &mut BoardHandle) -> u64
    ensures board { handle.new.board ≡ handle.old.board }
    ensures moment { result ≡ time_of handle.old.board }
{
    match handle.board_mut() {
        Some(board) => board.board().moment(),
        None => 0,
    }
}

/// The ticket that the next accepted message gets; 0 if there is no board.
#[unsafe(no_mangle)]
pub extern "C" fn synicboard_next_ticket(handle: &mut BoardHandle) -> u64
    ensures board { handle.new.board ≡ handle.old.board }
    ensures ticket { result ≡ next_ticket_of handle.old.board }
{
    match handle.board_mut() {
        Some(board) => board.board().next_ticket(),
        None => 0,
    }
}
