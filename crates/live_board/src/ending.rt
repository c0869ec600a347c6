// An EOM of a processor, whose message page a guest may see.
ghost use Rattle.std.specs.Prelude.{◌≡◌, ◌<◌, ◌*◌, [], true, false, IfSome};
ghost use Rattle.board_terms.specs.declared.pages.Kind.TheVariants.{Sim};
ghost use Rattle.synic_board.specs.State.{processors};
ghost use Rattle.live_board.specs.Live.{IsShown, HasProbed, NoneQueued};
ghost use Rattle.live_board.specs.inside.Kinds.{eom_of};
ghost use Rattle.live_board.specs.inside.Parts.{IsShadow, IsPart, IsEomOf};

use crate::passing::is_shown;
use crate::performing::perform_after;
use crate::probing::{is_any_queued, probe_waiting};
use crate::publishing::{page_words, publish};
use board_terms::{Kind, Notices, Vp};
use live_pages::LivePage;
use synic_board::{Board, Event, Reply};
use synic_regs::{Register, decode};

/// Whether a processor is on the board and has no queued message. Then an EOM changes nothing.
#[inline(always)]
pub(crate) fn is_idle(board: &Board, vp: u8) -> bool
    ensures idle { result ≡ true → (vp < processors board.now.state) × NoneQueued board.now.state vp }
    ensures busy { result ≡ false → vp < processors board.now.state → NoneQueued board.now.state vp → ⊥ }
{
    if vp >= board.processors() {
        return false;
    }
    let Some(vp) = Vp::new(vp) else {
        unreachable!()
    };
    !is_any_queued(board, vp)
}

/// The processor whose EOM an event is, if it is on the board.
#[inline(always)]
pub(crate) fn ended_by(board: &Board, event: &Event) -> Option<Vp>
    ensures value { result ≡ eom_of board.now.state event.now }
    ensures eom { IfSome result (λ p. IsEomOf board.now.state p event.now) }
{
    let Event::Write { vp, register, .. } = event else {
        return None;
    };
    if decode(*register) != Some(Register::Eom) || *vp >= board.processors() {
        return None;
    }
    Vp::new(*vp)
}

/// Performs an EOM of a processor whose message page the guest sees. Out of line: an event that has no
/// use for the words of a page must not make room for them.
#[inline(never)]
fn end_shown(
    board: &mut Board,
    page: &mut LivePage,
    vp: Vp,
    event: &Event,
    scratch: &mut Notices,
    notices: &mut Notices,
) -> Reply
    requires eom { IsEomOf board.old.state vp event.now }
    requires shown { IsShown board.old.state vp Sim }
    requires shadow { IsShadow board.old.state (2 * vp) page.old.log }
    requires empty { notices.old ≡ [] }
    ensures part { IsPart board.old.state vp Sim page.old.log event.now board.new.state page.new.log result
        notices.new }
    ensures probed { HasProbed board.old.state vp page.old.log page.new.log }
    ensures name { page.new.name ≡ page.old.name }
{
    let words = probe_waiting(board, page, vp, scratch, notices);
    board.facts();
    let reply = perform_after(board, event, scratch, notices);
    board.facts();
    publish(board, page, vp, &words, true);
    reply
}

/// The same where the guest does not see the page.
#[inline(never)]
fn end_hidden(
    board: &mut Board,
    page: &mut LivePage,
    vp: Vp,
    event: &Event,
    scratch: &mut Notices,
    notices: &mut Notices,
) -> Reply
    requires eom { IsEomOf board.old.state vp event.now }
    requires hidden { IsShown board.old.state vp Sim → ⊥ }
    requires shadow { IsShadow board.old.state (2 * vp) page.old.log }
    requires empty { notices.old ≡ [] }
    ensures part { IsPart board.old.state vp Sim page.old.log event.now board.new.state page.new.log result
        notices.new }
    ensures name { page.new.name ≡ page.old.name }
{
    board.facts();
    let words = page_words(board, vp);
    let reply = perform_after(board, event, scratch, notices);
    board.facts();
    publish(board, page, vp, &words, false);
    reply
}

/// Performs an EOM of a processor for which messages are queued, and brings its message page up to
/// date.
pub(crate) fn end_on(
    board: &mut Board,
    page: &mut LivePage,
    vp: Vp,
    event: &Event,
    scratch: &mut Notices,
    notices: &mut Notices,
) -> Reply
    requires eom { IsEomOf board.old.state vp event.now }
    requires shadow { IsShadow board.old.state (2 * vp) page.old.log }
    requires empty { notices.old ≡ [] }
    ensures part { IsPart board.old.state vp Sim page.old.log event.now board.new.state page.new.log result
        notices.new }
    ensures probed { IsShown board.old.state vp Sim → HasProbed board.old.state vp page.old.log page.new.log }
    ensures name { page.new.name ≡ page.old.name }
{
    if is_shown(board, vp, Kind::Sim) {
        end_shown(board, page, vp, event, scratch, notices)
    } else {
        end_hidden(board, page, vp, event, scratch, notices)
    }
}
