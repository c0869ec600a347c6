// What a run loop acts on, and what has changed in it.
ghost use Rattle.std.specs.Prelude.{◌≡◌, ◌≢◌, ◌==◌, ◌↔◌, ◌<◌, ◌≤◌, ℕ, true, length};
ghost use Rattle.std.specs.Int.{bit_at};
ghost use Rattle.c_calls.specs.Looks.{earliest_of};
ghost use Rattle.c_calls.specs.Views.{AreNexts, AreOwners, IsView, IsWideView, MarkNexts, MarksOwners, MarksView, MarksWideView};

use crate::looks::{CDeadline, COwner, synicboard_earliest, synicboard_next, synicboard_owner};
use c_handles::BoardHandle;

/// What a run loop acts on: the next vector of each processor, 0 for none, and the earliest
/// deadline.
#[repr(C)]
#[derive(Clone, Copy)]
pub struct CView {
    pub next: [u8; 8],
    pub earliest: CDeadline,
}

/// The same for up to 64 processors.
#[repr(C)]
#[derive(Clone, Copy)]
pub struct CWideView {
    pub next: [u8; 64],
    pub earliest: CDeadline,
}

/// What differs in a wide view: bit p for the next vector of processor p, and whether the earliest
/// deadline does.
#[repr(C)]
#[derive(Clone, Copy)]
pub struct CChanges {
    pub next: u64,
    pub earliest: bool,
}

/// Which page a guest sees at each page number.
#[repr(C)]
#[derive(Clone, Copy)]
pub struct COwners {
    pub page: [COwner; 64],
}

/// The bit for the earliest deadline.
const EARLIEST: u8 = 8;

/// Updates a view, and returns which of it differs: bit p for the next vector of processor p, and
/// bit 8 for the earliest deadline. Without a board, no processor has a next vector and no timer a
/// deadline.
#[unsafe(no_mangle)]
pub extern "C" fn synicboard_update(handle: &mut BoardHandle, view: &mut CView) -> u64
    ensures board { handle.new.board ≡ handle.old.board }
    ensures view { IsView handle.old.board view.new }
    ensures changes { MarksView result view.old view.new }
{
    let changed = update_nexts(handle, view.next.as_mut_slice());
    let differs = update_earliest(handle, &mut view.earliest);
    with_bit(changed, EARLIEST, differs)
}

/// Updates a view of 64 processors, and returns what of it differs. Without a board, no processor has a
/// next vector and no timer a deadline; nor has a processor that is not on the board.
#[unsafe(no_mangle)]
pub extern "C" fn synicboard_update_wide(handle: &mut BoardHandle, view: &mut CWideView) -> CChanges
    ensures board { handle.new.board ≡ handle.old.board }
    ensures view { IsWideView handle.old.board view.new }
    ensures changes { MarksWideView result view.old view.new }
{
    CChanges {
        next: update_nexts(handle, view.next.as_mut_slice()),
        earliest: update_earliest(handle, &mut view.earliest),
    }
}

/// Updates the earliest deadline, and returns whether it differs.
fn update_earliest(handle: &mut BoardHandle, earliest: &mut CDeadline) -> bool
    ensures board { handle.new.board ≡ handle.old.board }
    ensures earliest { earliest.new ≡ earliest_of handle.old.board }
    ensures differs { result ≡ true ↔ (earliest.old ≢ earliest.new) }
{
    let now = synicboard_earliest(handle);
    let differs = *earliest != now;
    *earliest = now;
    differs
}

/// Updates the next vectors of the first processors, and returns a word with a bit for each that
/// differs.
fn update_nexts(handle: &mut BoardHandle, nexts: &mut [u8]) -> u64
    requires { length nexts.old ≤ 64 }
    ensures board { handle.new.board ≡ handle.old.board }
    ensures as_many { length nexts.new ≡ length nexts.old }
    ensures nexts { AreNexts (length nexts.old) handle.old.board nexts.new }
    ensures changes { MarkNexts (length nexts.old) result nexts.old nexts.new }
    ensures others { (i : ℕ) → length nexts.old ≤ i → i < 64 → bit_at result i ≡ 0 }
{
    let mut changed = 0;
    for vp in 0..nexts.len() as u8 {
        let next = synicboard_next(handle, vp);
        changed = with_bit(changed, vp, nexts[vp as usize] != next);
        nexts[vp as usize] = next;
    }
    changed
}

/// Updates the owners of all pages, and returns which of them differ: bit i for page i. Without a
/// board there is no page.
#[unsafe(no_mangle)]
pub extern "C" fn synicboard_update_owners(handle: &mut BoardHandle, owners: &mut COwners) -> u64
    ensures board { handle.new.board ≡ handle.old.board }
    ensures owners { AreOwners handle.old.board owners.new.page }
    ensures changes { MarksOwners result owners.old.page owners.new.page }
{
    let mut changed = 0;
    for page in 0..64u8 {
        let owner = synicboard_owner(handle, u64::from(page));
        changed = with_bit(changed, page, owners.page[page as usize] != owner);
        owners.page[page as usize] = owner;
    }
    changed
}

/// A word with a bit set or cleared; its other bits stay.
pub(crate) fn with_bit(word: u64, bit: u8, set: bool) -> u64
    requires { bit < 64 }
    ensures here { (bit_at result bit == 1) ≡ set }
    ensures others { (i : ℕ) → i < 64 → i ≢ bit → bit_at result i ≡ bit_at word i }
{
    let mask = 1 << bit;
    if set { word | mask } else { word & !mask }
}
