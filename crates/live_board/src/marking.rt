// Marks of message slots after an event that has marked the board's own.
ghost use Rattle.std.specs.Prelude.{◌≡◌, ◌≢◌, ◌⊎◌, ℕ, ◌<◌, ◌≤◌, ◌+◌, ◌*◌, ◌%◌, slice_index, length};
ghost use Rattle.board_terms.specs.declared.pages.Kind.TheVariants.{Sim};
ghost use Rattle.synic_board.specs.State.{processors};
ghost use Rattle.live_pages.specs.Words.{known, type_of};
ghost use Rattle.live_board.specs.Words.{word_of};
ghost use Rattle.live_board.specs.Live.{IsShown};
ghost use Rattle.live_board.specs.inside.Parts.{MayBeMarked, IsMarked, IsMarking};

use crate::passing::{own_word, pass};
use crate::posting::{PENDING, is_empty};
use crate::publishing::SOURCES;
use board_terms::{Kind, Notices, Sint, Vp};
use live_pages::{LivePage, WORDS};
use synic_board::Board;

/// Marks the slot of a source if the board's own is marked and the host does not know a mark there.
/// `was` is the header that the host knew before the event. Returns whether the mark found the slot
/// empty.
fn mark_slot(
    board: &mut Board,
    page: &mut LivePage,
    vp: Vp,
    sint: Sint,
    was: u64,
    scratch: &mut Notices,
    notices: &mut Notices,
) -> bool
    requires on { vp < processors board.old.state }
    requires shown { IsShown board.old.state vp Sim }
    requires known { type_of was ≢ 0 → known page.old.log (32 * sint) ≡ was }
    requires header { MayBeMarked was (known page.old.log (32 * sint)) (word_of board.old.state (2 * vp) (32 * sint)) }
    requires capacity { length notices.old < 320 }
    ensures marked { IsMarked board.old.state vp sint page.old.log board.new.state page.new.log result notices.old
        notices.new }
    ensures name { page.new.name ≡ page.old.name }
{
    let slot = 32 * usize::from(sint.number());
    if is_empty(was) || own_word(board, vp, Kind::Sim, slot) == was {
        return false;
    }
    let found = page.fetch_or(slot, PENDING);
    pass(
        board,
        vp,
        Kind::Sim,
        slot,
        found | PENDING,
        scratch,
        notices,
    );
    is_empty(found)
}

/// Marks each slot that the event has marked and the host has not. `words` are those that the host
/// knew before the event. Returns whether a mark found an empty slot.
pub(crate) fn mark_slots(
    board: &mut Board,
    page: &mut LivePage,
    vp: Vp,
    words: &[u64; WORDS],
    scratch: &mut Notices,
    notices: &mut Notices,
) -> bool
    requires on { vp < processors board.old.state }
    requires shown { IsShown board.old.state vp Sim }
    requires payload { (x : ℕ) → x < 512 → x % 32 ≢ 0 → known page.old.log x ≡ word_of board.old.state (2 * vp) x }
    requires known { (i : ℕ) → i < 16 → type_of (slice_index words.now (32 * i)) ≢ 0
        → known page.old.log (32 * i) ≡ slice_index words.now (32 * i) }
    requires headers { (i : ℕ) → i < 16
        → MayBeMarked (slice_index words.now (32 * i)) (known page.old.log (32 * i))
        (word_of board.old.state (2 * vp) (32 * i)) }
    requires capacity { length notices.old + 16 ≤ 320 }
    ensures marking { IsMarking board.old.state vp words.now page.old.log board.new.state page.new.log result
        notices.old notices.new
        16 }
    ensures name { page.new.name ≡ page.old.name }
{
    let mut owed = false;
    for number in 0..SOURCES {
        let Some(sint) = Sint::new(number) else {
            unreachable!()
        };
        let was = words[32 * usize::from(number)];
        let is_empty = mark_slot(board, page, vp, sint, was, scratch, notices);
        owed = is_empty || owed;
    }
    owed
}
