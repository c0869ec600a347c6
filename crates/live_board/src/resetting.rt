// A reset of a processor, after which both its live pages are zero.
ghost use Rattle.std.specs.Prelude.{◌≡◌, ◌<◌, ◌+◌, ◌*◌, [], length};
ghost use Rattle.synic_board.specs.declared.event.Event.TheVariants.{Reset};
ghost use Rattle.synic_board.specs.State.{processors};
ghost use Rattle.live_board.specs.inside.Parts.{IsShadow, IsCleared, IsResetPart};

use crate::observing::view_slots;
use crate::performing::perform_after;
use board_terms::{Notices, Vp};
use live_pages::{LivePage, WORDS};
use synic_board::{Board, Event, Reply};

/// Stores zero to all words of a page.
pub(crate) fn clear(page: &mut LivePage)
    ensures cleared { IsCleared 512 page.old.log page.new.log }
    ensures name { page.new.name ≡ page.old.name }
{
    for word in 0..WORDS {
        page.store(word, 0);
    }
}

/// Performs a reset of a processor, after a look at its message slots, and clears its message page.
pub(crate) fn reset_messages(
    board: &mut Board,
    page: &mut LivePage,
    vp: Vp,
    event: &Event,
    scratch: &mut Notices,
    notices: &mut Notices,
) -> Reply
    requires on { vp < processors board.old.state }
    requires inside { 2 * vp + 1 < length board.old.state.own }
    requires reset { event.now ≡ Reset vp }
    requires shadow { IsShadow board.old.state (2 * vp) page.old.log }
    requires empty { notices.old ≡ [] }
    ensures part { IsResetPart board.old.state vp page.old.log event.now board.new.state page.new.log result
        notices.new }
    ensures name { page.new.name ≡ page.old.name }
{
    view_slots(board, page, vp, scratch, notices);
    let reply = perform_after(board, event, scratch, notices);
    clear(page);
    reply
}
