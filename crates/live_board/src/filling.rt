// Writes what the board did to a slot into the live page.
ghost use Rattle.std.specs.Prelude.{◌≡◌, ℕ, ◌<◌, ◌≤◌, ◌+◌, ◌*◌, slice_index};
ghost use Rattle.synic_board.specs.State.{processors};
ghost use Rattle.live_pages.specs.Words.{known};
ghost use Rattle.live_board.specs.inside.Parts.{AreSlotWords, IsFilled};

use crate::words::word_at;
use board_terms::{Kind, Sint, Vp};
use live_pages::{LivePage, SLOT_WORDS};
use synic_board::Board;

/// The words of the slot of a source in the board's own page.
pub(crate) fn slot_words(board: &Board, vp: Vp, sint: Sint) -> [u64; SLOT_WORDS]
    requires { vp < processors board.now.state }
    ensures { AreSlotWords board.now.state vp sint result }
{
    board.facts();
    let Some(page) = board.own_page(vp, Kind::Sim) else {
        unreachable!()
    };
    let slot = usize::from(sint.number());
    let mut words = [0; SLOT_WORDS];
    for k in 0..SLOT_WORDS {
        words[k] = word_at(page, 8 * (32 * slot + k));
    }
    words
}

/// Gives all words of a slot their values, and stores the header last, unless the host knows the
/// header: then nothing. A word that no look reads may hold what the guest stored there, so each is
/// loaded: what the host knows of it is not asked.
pub(crate) fn fill(page: &mut LivePage, sint: Sint, header: u64, after: &[u64; SLOT_WORDS])
    requires header { known page.old.log (32 * sint) ≡ header }
    requires payload { slice_index after.now 0 ≡ header
        → (k : ℕ) → 1 ≤ k → k < 32 → known page.old.log (32 * sint + k) ≡ slice_index after.now k }
    ensures filled { IsFilled sint header after.now page.old.log page.new.log }
    ensures name { page.new.name ≡ page.old.name }
{
    if after[0] == header {
        return;
    }
    let slot = usize::from(sint.number());
    for k in 1..SLOT_WORDS {
        page.put(32 * slot + k, after[k]);
    }
    page.store(32 * slot, after[0]);
}
