// A write of a timer, which may deliver a message to one source of its processor.
ghost use Rattle.std.specs.Prelude.{◌≡◌, ◌<◌, ◌*◌, [], true, false, IfSome};
ghost use Rattle.std.specs.Option.{option_map_or};
ghost use Rattle.board_terms.specs.declared.pages.Kind.TheVariants.{Sim};
ghost use Rattle.stimer_bank.specs.Bank.{timer_in};
ghost use Rattle.stimer_bank.specs.Timer.{is_direct};
ghost use Rattle.synic_regs.specs.Registers.{register_of};
ghost use Rattle.synic_board.specs.State.{processors, bank_of};
ghost use Rattle.live_board.specs.Live.{IsShown};
ghost use Rattle.live_board.specs.Timers.{is_timer_register, timer_of, is_direct_by};
ghost use Rattle.live_board.specs.inside.Parts.{IsShadow, IsTimedPart, IsTimerOf};

use crate::marking::mark_slots;
use crate::observing::look_at_slots;
use crate::passing::is_shown;
use crate::performing::perform_after;
use crate::publishing::{page_words, publish};
use board_terms::{Kind, Notices, TimerId, Vp};
use live_pages::LivePage;
use synic_board::{Board, Event, Reply};
use synic_regs::msr;

/// The bits of a timer's configuration that a write stores (TLFS, "Synthetic Timer Configuration Register").
const STORED: u64 = 0xf_1fff;

/// Whether a register is the configuration or the count of a timer. A test of its number: a decoded
/// register costs a call.
#[inline(always)]
pub(crate) fn is_timer(register: u32) -> bool
    ensures { result ≡ option_map_or is_timer_register (register_of register) false }
{
    msr::STIMER0_CONFIG <= register && register <= msr::STIMER3_COUNT
}

/// The processor whose timer an event writes, if it is on the board.
#[inline(always)]
pub(crate) fn timed_by(board: &Board, event: &Event) -> Option<Vp>
    ensures value { result ≡ timer_of board.now.state event.now }
    ensures timer { IfSome result (λ p. IsTimerOf board.now.state p event.now) }
{
    let Event::Write { vp, register, .. } = event else {
        return None;
    };
    if !is_timer(*register) || *vp >= board.processors() {
        return None;
    }
    Vp::new(*vp)
}

/// Performs a write of a timer of a processor whose message page the guest sees. Out of line: an event
/// that has no use for the words of a page must not make room for them.
#[inline(never)]
fn time_shown(
    board: &mut Board,
    page: &mut LivePage,
    vp: Vp,
    event: &Event,
    scratch: &mut Notices,
    notices: &mut Notices,
) -> (Reply, bool)
    requires timer { IsTimerOf board.old.state vp event.now }
    requires shown { IsShown board.old.state vp Sim }
    requires shadow { IsShadow board.old.state (2 * vp) page.old.log }
    requires empty { notices.old ≡ [] }
    ensures timed { IsTimedPart board.old.state vp page.old.log event.now board.new.state page.new.log result.0
        result.1 notices.new }
    ensures name { page.new.name ≡ page.old.name }
{
    look_at_slots(board, page, vp, scratch, notices);
    board.facts();
    let words = page_words(board, vp);
    let reply = perform_after(board, event, scratch, notices);
    board.facts();
    publish(board, page, vp, &words, true);
    let owed = mark_slots(board, page, vp, &words, scratch, notices);
    (reply, owed)
}

/// The same where the guest does not see the page.
#[inline(never)]
fn time_hidden(
    board: &mut Board,
    page: &mut LivePage,
    vp: Vp,
    event: &Event,
    scratch: &mut Notices,
    notices: &mut Notices,
) -> (Reply, bool)
    requires timer { IsTimerOf board.old.state vp event.now }
    requires hidden { IsShown board.old.state vp Sim → ⊥ }
    requires shadow { IsShadow board.old.state (2 * vp) page.old.log }
    requires empty { notices.old ≡ [] }
    ensures timed { IsTimedPart board.old.state vp page.old.log event.now board.new.state page.new.log result.0
        result.1 notices.new }
    ensures name { page.new.name ≡ page.old.name }
{
    board.facts();
    let words = page_words(board, vp);
    let reply = perform_after(board, event, scratch, notices);
    board.facts();
    publish(board, page, vp, &words, false);
    (reply, false)
}

/// Whether a timer is in direct mode after a write of its configuration or its count.
#[inline(always)]
pub(crate) fn is_direct(board: &Board, vp: Vp, register: u32, value: u64) -> bool
    requires { option_map_or is_timer_register (register_of register) false ≡ true }
    ensures { result ≡ is_direct_by board.now.state vp value (register_of register) }
{
    // The two registers of each timer are consecutive.
    let place = (register - msr::STIMER0_CONFIG) as u8;
    let config = if place % 2 == 0 {
        value & STORED
    } else {
        config_of(board, vp, place / 2)
    };
    is_direct_config(config)
}

/// Whether a timer with a configuration is in direct mode.
pub(crate) fn is_direct_config(config: u64) -> bool
    ensures { result ≡ is_direct config }
{
    (config >> 12) & 1 == 1
}

/// The configuration of a timer, 0 if there is none.
fn config_of(board: &Board, vp: Vp, index: u8) -> u64
    ensures { index < 4 → result ≡ (timer_in (bank_of board.now.state) (vp, index)).config }
{
    match TimerId::new(vp, index) {
        Some(timer) => board.timer(timer).0,
        None => 0,
    }
}

/// Performs a write of a timer of a processor, in message mode, and brings its message page up to date.
/// Returns whether the processor is owed an EOM.
pub(crate) fn time_posted(
    board: &mut Board,
    page: &mut LivePage,
    vp: Vp,
    event: &Event,
    scratch: &mut Notices,
    notices: &mut Notices,
) -> (Reply, bool)
    requires timer { IsTimerOf board.old.state vp event.now }
    requires shadow { IsShadow board.old.state (2 * vp) page.old.log }
    requires empty { notices.old ≡ [] }
    ensures timed { IsTimedPart board.old.state vp page.old.log event.now board.new.state page.new.log result.0
        result.1 notices.new }
    ensures name { page.new.name ≡ page.old.name }
{
    if is_shown(board, vp, Kind::Sim) {
        time_shown(board, page, vp, event, scratch, notices)
    } else {
        time_hidden(board, page, vp, event, scratch, notices)
    }
}
