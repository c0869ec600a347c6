// Looks at the message slots of a live page.
ghost use Rattle.std.specs.Prelude.{◌≡◌, ◌<◌, ◌*◌, List, [], IfNone, IfSome};
ghost use Rattle.board_terms.specs.declared.pages.Kind.TheVariants.{Sim};
ghost use Rattle.synic_board.specs.State.{processors};
ghost use Rattle.live_pages.specs.declared.access.Access.{Access};
ghost use Rattle.live_board.specs.Live.{IsShown};
ghost use Rattle.live_board.specs.inside.Parts.{IsShadow, IsLooks, IsOther, IsViewed};

use crate::passing::{is_shown, look, pass};
use crate::words::word_at;
use board_terms::{Kind, Notices, Vp};
use live_pages::LivePage;
use synic_board::Board;

/// The number of message slots of a page.
const SLOTS: usize = 16;

/// Looks at the header of each slot of a message page that the guest sees, until one is not what the
/// board has. Returns the slot and the header of that one.
#[inline(always)]
fn look_until_other(board: &Board, page: &mut LivePage, vp: Vp) -> Option<(usize, u64)>
    requires on { vp < processors board.now.state }
    requires shown { IsShown board.now.state vp Sim }
    requires shadow { IsShadow board.now.state (2 * vp) page.old.log }
    ensures same { IfNone result (IsLooks board.now.state vp page.old.log board.now.state page.new.log [] 16) }
    ensures other { IfSome result (λ r. IsOther board.now.state vp r.0 r.1 page.old.log page.new.log) }
    ensures name { page.new.name ≡ page.old.name }
{
    board.facts();
    let Some(own) = board.own_page(vp, Kind::Sim) else {
        unreachable!()
    };
    for slot in 0..SLOTS {
        let found = page.load(32 * slot);
        if found != word_at(own, 8 * (32 * slot)) {
            return Some((slot, found));
        }
    }
    None
}

/// Passes the header of a slot that is not what the board has to the board, and looks at the slots after
/// it. Out of line: in most looks there is no such slot.
#[cold]
#[inline(never)]
fn look_on(
    board: &mut Board,
    page: &mut LivePage,
    vp: Vp,
    other: usize,
    found: u64,
    scratch: &mut Notices,
    notices: &mut Notices,
)
    requires on { vp < processors board.old.state }
    requires shown { IsShown board.old.state vp Sim }
    requires other { (log : List Access) × IsOther board.old.state vp other found log page.old.log }
    requires empty { notices.old ≡ [] }
    ensures looks { (log : List Access) → IsOther board.old.state vp other found log page.old.log
        → IsLooks board.old.state vp log board.new.state page.new.log notices.new 16 }
    ensures name { page.new.name ≡ page.old.name }
{
    pass(board, vp, Kind::Sim, 32 * other, found, scratch, notices);
    for slot in other + 1..SLOTS {
        look(board, page, vp, Kind::Sim, 32 * slot, scratch, notices);
    }
}

/// Looks at the header of each slot of a message page that the guest sees.
#[inline(always)]
pub(crate) fn look_at_slots(
    board: &mut Board,
    page: &mut LivePage,
    vp: Vp,
    scratch: &mut Notices,
    notices: &mut Notices,
)
    requires on { vp < processors board.old.state }
    requires shown { IsShown board.old.state vp Sim }
    requires shadow { IsShadow board.old.state (2 * vp) page.old.log }
    requires empty { notices.old ≡ [] }
    ensures looks { IsLooks board.old.state vp page.old.log board.new.state page.new.log notices.new 16 }
    ensures name { page.new.name ≡ page.old.name }
{
    if let Some((other, found)) = look_until_other(board, page, vp) {
        look_on(board, page, vp, other, found, scratch, notices);
    }
}

/// Looks at the header of each slot of a message page, if the guest sees it.
#[inline(always)]
pub(crate) fn view_slots(
    board: &mut Board,
    page: &mut LivePage,
    vp: Vp,
    scratch: &mut Notices,
    notices: &mut Notices,
)
    requires on { vp < processors board.old.state }
    requires shadow { IsShadow board.old.state (2 * vp) page.old.log }
    requires empty { notices.old ≡ [] }
    ensures viewed { IsViewed board.old.state vp page.old.log board.new.state page.new.log notices.new }
    ensures name { page.new.name ≡ page.old.name }
{
    if is_shown(board, vp, Kind::Sim) {
        look_at_slots(board, page, vp, scratch, notices);
    }
}
