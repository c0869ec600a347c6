// A client's signal, and its post, as the guest finds them in memory.
ghost use Rattle.std.specs.Prelude.{◌≡◌, ◌≢◌, ◌<◌, ◌≤◌, ◌+◌, ◌*◌, ◌%◌, length, Some};
ghost use Rattle.std.specs.Int.{bit_at};
ghost use Rattle.board_terms.specs.declared.pages.Kind.TheVariants.{Sim, Sief};
ghost use Rattle.event_ports.specs.Ports.{port_at};
ghost use Rattle.synic_board.specs.State.{ports_of};
ghost use Rattle.live_pages.specs.Words.{type_of};
ghost use Rattle.live_board.specs.Live.{IsGuestOf, IsShown, slot_word};
ghost use Rattle.live_board.specs.Signals.{signalled_flag};

use board_terms::Kind;
use event_ports::Port;
use live_board::{LiveBoard, LiveNotices};
use live_pages::Guest;

/// The guest finds the event flag that a signal has set, where it sees the page and the board accepts
/// the signal. `place` is the flag's number in the page, 0 to 2047.
pub fn a_signal_is_found(
    live: &mut LiveBoard,
    guest: Guest,
    port: u8,
    flag: u16,
    target: &Port,
    place: u16,
    notices: &mut LiveNotices,
) -> (u64, Guest)
    requires own { IsGuestOf live.old target.now.vp Sief guest }
    requires open { port_at (ports_of live.old.board.state) port ≡ Some target.now }
    requires accepted { signalled_flag live.old.board.state flag target.now ≡ Some place }
    requires place { place < 2048 }
    requires shown { IsShown live.old.board.state target.now.vp Sief }
    ensures { bit_at result.0 (place % 64) ≡ 1 }
{
    let word = 32 * usize::from(target.sint.number()) + usize::from(place / 64);
    let (_, guest) = live.guest_load(target.vp, Kind::Sief, guest, word);
    let _ = live.signal(port, flag, notices);
    live.guest_load(target.vp, Kind::Sief, guest, word)
}

/// A guest whose slot was empty, and which finds a type in its header after a post, finds the whole
/// message: each word, 0 to 31, is the one that the board has. So no message is torn, and nothing that
/// the guest left there follows a payload.
pub fn a_message_is_read_whole(
    live: &mut LiveBoard,
    guest: Guest,
    port: u8,
    kind: u32,
    payload: &[u8],
    target: &Port,
    word: usize,
    notices: &mut LiveNotices,
) -> (u64, u64, u64, Guest)
    requires own { IsGuestOf live.old target.now.vp Sim guest }
    requires open { port_at (ports_of live.old.board.state) port ≡ Some target.now }
    requires fits { length payload.now ≤ 240 }
    requires word { word < 32 }
    ensures { type_of result.0 ≡ 0 → type_of result.1 ≢ 0
        → result.2 ≡ slot_word live.new.board.state target.now.vp target.now.sint word }
{
    let slot = 32 * usize::from(target.sint.number());
    let (before, guest) = live.guest_load(target.vp, Kind::Sim, guest, slot);
    let _ = live.post(port, kind, payload, notices);
    let (header, guest) = live.guest_load(target.vp, Kind::Sim, guest, slot);
    let (found, guest) = live.guest_load(target.vp, Kind::Sim, guest, slot + word);
    (before, header, found, guest)
}
