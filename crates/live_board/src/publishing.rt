// Brings a message page up to date after an event.
ghost use Rattle.std.specs.Prelude.{◌≡◌, ℕ, ◌<◌, ◌+◌, ◌*◌, slice_index, length};
ghost use Rattle.synic_board.specs.State.{processors};
ghost use Rattle.live_pages.specs.Words.{known};
ghost use Rattle.live_board.specs.Words.{word_of};
ghost use Rattle.live_board.specs.inside.Parts.{IsFilledFrom, IsPublished, AreKept};

use crate::filling::{fill, slot_words};
use crate::passing::own_word;
use crate::posting::is_empty;
use crate::words::word_at;
use board_terms::{Kind, Sint, Vp};
use live_pages::{LivePage, WORDS};
use synic_board::Board;

/// The number of sources of a processor.
pub(crate) const SOURCES: u8 = 16;

/// The words of a board's own message page.
pub(crate) fn page_words(board: &Board, vp: Vp) -> [u64; WORDS]
    requires { vp < processors board.now.state }
    ensures count { length result ≡ 512 }
    ensures words { (x : ℕ) → x < 512 → slice_index result x ≡ word_of board.now.state (2 * vp) x }
{
    board.facts();
    let Some(page) = board.own_page(vp, Kind::Sim) else {
        unreachable!()
    };
    let mut words = [0; WORDS];
    for word in 0..WORDS {
        words[word] = word_at(page, 8 * word);
    }
    words
}

/// Stores the slot of a source, unless the host knows its header: then nothing.
fn publish_slot(board: &Board, page: &mut LivePage, vp: Vp, sint: Sint, words: &[u64; WORDS])
    requires on { vp < processors board.now.state }
    requires known { (k : ℕ) → k < 32 → known page.old.log (32 * sint + k) ≡ slice_index words.now (32 * sint + k) }
    requires kept { AreKept board.now.state vp words.now }
    ensures slot { IsFilledFrom board.now.state vp sint (slice_index words.now (32 * sint)) page.old.log page.new.log }
    ensures name { page.new.name ≡ page.old.name }
{
    let slot = 32 * usize::from(sint.number());
    if own_word(board, vp, Kind::Sim, slot) == words[slot] {
        return;
    }
    let after = slot_words(board, vp, sint);
    fill(page, sint, words[slot], &after);
}

/// Stores the slots of a message page whose headers the host does not know: all, or the empty ones if
/// the guest sees the page.
pub(crate) fn publish(
    board: &Board,
    page: &mut LivePage,
    vp: Vp,
    words: &[u64; WORDS],
    is_shown: bool,
)
    requires on { vp < processors board.now.state }
    requires known { (x : ℕ) → x < 512 → known page.old.log x ≡ slice_index words.now x }
    requires kept { AreKept board.now.state vp words.now }
    ensures published { IsPublished board.now.state vp is_shown words.now 16 page.old.log page.new.log }
    ensures name { page.new.name ≡ page.old.name }
{
    for number in 0..SOURCES {
        let Some(sint) = Sint::new(number) else {
            unreachable!()
        };
        if !is_shown || is_empty(words[32 * usize::from(number)]) {
            publish_slot(board, page, vp, sint, words);
        }
    }
}
