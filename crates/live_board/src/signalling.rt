// A signal to a port whose target is a source of a live page.
ghost use Rattle.std.specs.Prelude.{◌≡◌, ℕ, ◌<◌, ◌+◌, ◌*◌, ◌==◌, [], Some, IfSome};
ghost use Rattle.std.specs.Int.{bit_at};
ghost use Rattle.board_terms.specs.declared.pages.Kind.TheVariants.{Sief};
ghost use Rattle.event_ports.specs.Ports.{port_at};
ghost use Rattle.synic_board.specs.declared.event.Event.TheVariants.{Signal};
ghost use Rattle.synic_board.specs.State.{processors, ports_of};
ghost use Rattle.live_board.specs.Live.{IsShown};
ghost use Rattle.live_board.specs.inside.Parts.{IsShadow, IsPart};
ghost use Rattle.live_board.specs.Signals.{signal_reply, signalled_flag, IsSet};

use crate::attempt::ENABLE;
use crate::passing::{mark, own_word};
use crate::performing::perform_signal;
use board_terms::{Kind, Notices, PortShape};
use event_ports::Port;
use live_pages::LivePage;
use synic_board::{Board, Event, Reply};
use synic_regs::Register;

/// The event flag that a signal sets, 0 to 2047, if the board accepts the signal.
#[inline(always)]
pub(crate) fn flag_of(board: &Board, number: u8, flag: u16, port: &Port) -> Option<u16>
    requires { port_at (ports_of board.now.state) number ≡ Some port.now }
    ensures value { result ≡ signalled_flag board.now.state flag port.now }
    ensures range { IfSome result (λ f. f < 2048) }
{
    board.facts();
    let PortShape::Flags { base, count } = port.shape else {
        return None;
    };
    if flag >= count {
        return None;
    }
    if board.register(port.vp, Register::Control) & ENABLE != ENABLE {
        return None;
    }
    if board.register(port.vp, Register::Sief) & ENABLE != ENABLE {
        return None;
    }
    Some(base + flag)
}

/// Whether a bit, 0 to 63, of a word is set.
#[inline(always)]
fn is_set(word: u64, bit: u16) -> bool
    requires { bit < 64 }
    ensures { result ≡ (bit_at word bit == 1) }
{
    (word >> bit) & 1 == 1
}

/// Performs a signal of an event flag, 0 to 2047, that the board accepts, where the guest sees the
/// event flags page. The flag is set in the live page first, and the board learns what was there. If
/// it was set, the signal changes nothing more. Returns whether it was.
#[inline(always)]
pub(crate) fn signal_shown(
    board: &mut Board,
    page: &mut LivePage,
    port: &Port,
    number: u8,
    flag: u16,
    place: u16,
    scratch: &mut Notices,
    notices: &mut Notices,
) -> bool
    requires open { port_at (ports_of board.old.state) number ≡ Some port.now }
    requires on { port.now.vp < processors board.old.state }
    requires source { port.now.sint < 16 }
    requires place { signalled_flag board.old.state flag port.now ≡ Some place }
    requires range { place < 2048 }
    requires shown { IsShown board.old.state port.now.vp Sief }
    requires shadow { IsShadow board.old.state (2 * port.now.vp + 1) page.old.log }
    requires empty { notices.old ≡ [] }
    ensures part { IsPart board.old.state port.now.vp Sief page.old.log (Signal number flag) board.new.state
        page.new.log
        (signal_reply result) notices.new }
    ensures set { IsSet port.now.sint place page.old.log page.new.log (signal_reply result) }
    ensures name { page.new.name ≡ page.old.name }
{
    board.facts();
    let word = 32 * usize::from(port.sint.number()) + usize::from(place / 64);
    let bit = place % 64;
    let found = mark(
        board,
        page,
        port.vp,
        Kind::Sief,
        word,
        1 << bit,
        scratch,
        notices,
    );
    board.facts();
    if is_set(found, bit) {
        return true;
    }
    let _ = perform_signal(board, number, flag, scratch, notices);
    false
}

/// The same where the guest does not see the page: the word that the board has is stored.
#[inline(never)]
fn signal_hidden(
    board: &mut Board,
    page: &mut LivePage,
    port: &Port,
    number: u8,
    flag: u16,
    place: u16,
    scratch: &mut Notices,
    notices: &mut Notices,
) -> Reply
    requires open { port_at (ports_of board.old.state) number ≡ Some port.now }
    requires on { port.now.vp < processors board.old.state }
    requires source { port.now.sint < 16 }
    requires place { signalled_flag board.old.state flag port.now ≡ Some place }
    requires range { place < 2048 }
    requires hidden { IsShown board.old.state port.now.vp Sief → ⊥ }
    requires shadow { IsShadow board.old.state (2 * port.now.vp + 1) page.old.log }
    requires empty { notices.old ≡ [] }
    ensures part { IsPart board.old.state port.now.vp Sief page.old.log
        (Signal number flag) board.new.state page.new.log result notices.new }
    ensures name { page.new.name ≡ page.old.name }
{
    board.facts();
    let word = 32 * usize::from(port.sint.number()) + usize::from(place / 64);
    let reply = perform_signal(board, number, flag, scratch, notices);
    page.store(word, own_word(board, port.vp, Kind::Sief, word));
    reply
}

/// Performs a signal of a port that the board refuses, or whose event flags page the guest does not see,
/// and brings that page up to date.
pub(crate) fn signal_to(
    board: &mut Board,
    page: &mut LivePage,
    port: &Port,
    number: u8,
    flag: u16,
    scratch: &mut Notices,
    notices: &mut Notices,
) -> Reply
    requires open { port_at (ports_of board.old.state) number ≡ Some port.now }
    requires on { port.now.vp < processors board.old.state }
    requires hidden { (f : ℕ) → signalled_flag board.old.state flag port.now ≡ Some f
        → IsShown board.old.state port.now.vp Sief → ⊥ }
    requires shadow { IsShadow board.old.state (2 * port.now.vp + 1) page.old.log }
    requires empty { notices.old ≡ [] }
    ensures part { IsPart board.old.state port.now.vp Sief page.old.log
        (Signal number flag) board.new.state page.new.log result notices.new }
    ensures name { page.new.name ≡ page.old.name }
{
    board.facts();
    let Some(place) = flag_of(board, number, flag, port) else {
        return perform_signal(board, number, flag, scratch, notices);
    };
    signal_hidden(board, page, port, number, flag, place, scratch, notices)
}
