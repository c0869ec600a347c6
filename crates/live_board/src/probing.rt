// Probes of the message slots of a live page before an EOM.
ghost use Rattle.std.specs.Prelude.{◌≡◌, ◌<◌, ◌*◌, [], true, false, length};
ghost use Rattle.board_terms.specs.declared.pages.Kind.TheVariants.{Sim};
ghost use Rattle.live_pages.specs.Words.{known};
ghost use Rattle.synic_board.specs.State.{processors};
ghost use Rattle.live_board.specs.Words.{word_of};
ghost use Rattle.live_board.specs.Live.{IsShown, NoneQueued, is_waiting};
ghost use Rattle.live_board.specs.inside.Parts.{IsShadow, IsProbed, IsProbing};

use crate::attempt::ENABLE;
use crate::passing::{look, mark};
use crate::posting::{PENDING, is_empty, is_pending};
use crate::publishing::{SOURCES, page_words};
use board_terms::{Kind, Notices, Sint, Vp};
use live_pages::{LivePage, WORDS};
use synic_board::Board;
use synic_regs::Register;

/// Whether a delivery attempt at a source has a message to deliver.
fn is_waiting(board: &Board, vp: Vp, sint: Sint) -> bool
    requires { vp < processors board.now.state }
    ensures { result ≡ is_waiting board.now.state vp sint }
{
    board.facts();
    board.register(vp, Register::Control) & ENABLE == ENABLE
        && board.register(vp, Register::Sim) & ENABLE == ENABLE
        && board.summary().queued(vp, sint) > 0
}

/// Whether a message of a processor is queued.
pub(crate) fn is_any_queued(board: &Board, vp: Vp) -> bool
    ensures some { result ≡ true → NoneQueued board.now.state vp → ⊥ }
    ensures none { result ≡ false → NoneQueued board.now.state vp }
{
    board.summary().has_queued(vp)
}

/// Looks at the header of a source's slot, and marks it if it is occupied and not marked. Returns
/// the header that the host left there.
fn probe(
    board: &mut Board,
    page: &mut LivePage,
    vp: Vp,
    sint: Sint,
    scratch: &mut Notices,
    notices: &mut Notices,
) -> u64
    requires on { vp < processors board.old.state }
    requires shown { IsShown board.old.state vp Sim }
    requires known { known page.old.log (32 * sint) ≡ word_of board.old.state (2 * vp) (32 * sint) }
    requires capacity { length notices.old < 319 }
    ensures probed { IsProbed board.old.state vp sint page.old.log board.new.state page.new.log result notices.old
        notices.new }
    ensures name { page.new.name ≡ page.old.name }
{
    let slot = 32 * usize::from(sint.number());
    let found = look(board, page, vp, Kind::Sim, slot, scratch, notices);
    if is_empty(found) || is_pending(found) {
        return found;
    }
    mark(board, page, vp, Kind::Sim, slot, PENDING, scratch, notices) | PENDING
}

/// Probes the slot of each source of a processor that waits. Returns the words of the page that the
/// host knows then.
pub(crate) fn probe_waiting(
    board: &mut Board,
    page: &mut LivePage,
    vp: Vp,
    scratch: &mut Notices,
    notices: &mut Notices,
) -> [u64; WORDS]
    requires on { vp < processors board.old.state }
    requires shown { IsShown board.old.state vp Sim }
    requires shadow { IsShadow board.old.state (2 * vp) page.old.log }
    requires empty { notices.old ≡ [] }
    ensures probing { IsProbing board.old.state vp page.old.log board.new.state page.new.log result notices.new 16 }
    ensures name { page.new.name ≡ page.old.name }
{
    let mut words = page_words(board, vp);
    for number in 0..SOURCES {
        let Some(sint) = Sint::new(number) else {
            unreachable!()
        };
        if is_waiting(board, vp, sint) {
            words[32 * usize::from(number)] = probe(board, page, vp, sint, scratch, notices);
        }
    }
    words
}
