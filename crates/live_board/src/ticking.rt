// A tick, which may deliver messages to several sources of several processors.
ghost use Rattle.std.specs.Prelude.{◌≡◌, ℕ, ◌<◌, ◌≤◌, ◌+◌, ◌-◌, ◌*◌, ◌&&◌, not, true, false, [], length, slice_index, slice_index_or};
ghost use Rattle.stimer_bank.specs.Bank.{timer_in};
ghost use Rattle.stimer_bank.specs.Timer.{is_due, is_direct};
ghost use Rattle.synic_board.specs.declared.event.Event.TheVariants.{Tick};
ghost use Rattle.synic_board.specs.State.{processors, bank_of};
ghost use Rattle.live_pages.specs.Words.{known};
ghost use Rattle.live_board.specs.Live.{is_any_due, AreDueDirect};
ghost use Rattle.live_board.specs.inside.Pages.{logs_of, names_of};
ghost use Rattle.live_board.specs.inside.Parts.{IsShadow, IsStep, IsFirst, IsFirstAt, IsFinished, IsTickFrom, WordsGrow, AreKept};

use crate::marking::mark_slots;
use crate::notices::{Journal, move_to};
use crate::observing::view_slots;
use crate::owing::with_owed;
use crate::passing::is_shown;
use crate::publishing::{page_words, publish};
use crate::timing::is_direct_config;
use board_terms::{Kind, Moment, Notices, TimerId, Vp};
use live_pages::{LivePage, WORDS};
use synic_board::{Board, Event, Reply};

/// The timers of a processor.
const TIMERS: u8 = 4;

/// Whether some timer is due at a time.
pub(crate) fn is_any_due(board: &Board, moment: Moment) -> bool
    ensures { result ≡ is_any_due board.now.state moment }
{
    match board.summary().earliest() {
        Some((due, _)) => due <= u128::from(moment),
        None => false,
    }
}

/// Whether a timer, 0 to 3, is due at a time and in message mode.
fn is_due_posted(board: &Board, vp: Vp, index: u8, moment: Moment) -> bool
    requires { index < 4 }
    ensures { result ≡ (is_due (timer_in (bank_of board.now.state) (vp, index)) moment
        && not (is_direct (timer_in (bank_of board.now.state) (vp, index)).config)) }
{
    let Some(timer) = TimerId::new(vp, index) else {
        unreachable!()
    };
    let (config, _, due) = board.timer(timer);
    let Some(due) = due else {
        return false;
    };
    due <= u128::from(moment) && !is_direct_config(config)
}

/// Whether the timers of a processor that are due at a time are in direct mode.
fn are_due_direct(board: &Board, vp: Vp, moment: Moment) -> bool
    ensures all { result ≡ true → AreDueDirect board.now.state vp moment }
    ensures some { result ≡ false → AreDueDirect board.now.state vp moment → ⊥ }
{
    for index in 0..TIMERS {
        if is_due_posted(board, vp, index, moment) {
            return false;
        }
    }
    true
}

/// Looks at the header of each slot of a message page that the guest sees. `part` is empty before and
/// after.
fn look_first(
    board: &mut Board,
    page: &mut LivePage,
    vp: Vp,
    scratch: &mut Notices,
    part: &mut Notices,
    notices: &mut Journal,
)
    requires on { vp < processors board.old.state }
    requires shadow { IsShadow board.old.state (2 * vp) page.old.log }
    requires capacity { length notices.old + 16 ≤ 22720 }
    requires empty { part.old ≡ [] }
    ensures looks { IsFirst board.old.state vp page.old.log board.new.state page.new.log notices.old notices.new }
    ensures empty { part.new ≡ [] }
    ensures name { page.new.name ≡ page.old.name }
{
    view_slots(board, page, vp, scratch, part);
    move_to(part, notices);
}

/// The same at the page of a processor.
fn look_at(
    board: &mut Board,
    pages: &mut Vec<LivePage>,
    vp: Vp,
    scratch: &mut Notices,
    part: &mut Notices,
    notices: &mut Journal,
)
    requires on { vp < processors board.old.state }
    requires count { length pages.old.items ≡ 2 * processors board.old.state }
    requires shadow { (p : ℕ) → vp ≤ p → p < processors board.old.state
        → IsShadow board.old.state (2 * p) (slice_index_or (logs_of pages.old.items) (2 * p) []) }
    requires capacity { length notices.old + 16 ≤ 22720 }
    requires empty { part.old ≡ [] }
    ensures looks { IsFirstAt board.old.state vp (logs_of pages.old.items) board.new.state
        (logs_of pages.new.items) notices.old notices.new }
    ensures shadow { (p : ℕ) → vp < p → p < processors board.new.state
        → IsShadow board.new.state (2 * p) (slice_index_or (logs_of pages.new.items) (2 * p) []) }
    ensures processors { processors board.new.state ≡ processors board.old.state }
    ensures count { length pages.new.items ≡ length pages.old.items }
    ensures names { names_of pages.new.items ≡ names_of pages.old.items }
    ensures empty { part.new ≡ [] }
{
    let page = &mut pages[2 * usize::from(vp.number())];
    look_first(board, page, vp, scratch, part, notices);
}

/// Whether the timers of all processors that are due at a time are in direct mode.
#[inline(always)]
pub(crate) fn are_all_direct(board: &Board, moment: Moment) -> bool
    ensures { result ≡ true → (p : ℕ) → p < processors board.now.state → AreDueDirect board.now.state p moment }
{
    for number in 0..board.processors() {
        let Some(processor) = Vp::new(number) else {
            unreachable!()
        };
        if !are_due_direct(board, processor, moment) {
            return false;
        }
    }
    true
}

/// Brings a message page up to date after an event that sets at most MessagePending in its occupied
/// slots. `words` are those that the host knows. Returns whether a mark found an empty slot.
fn finish(
    board: &mut Board,
    page: &mut LivePage,
    vp: Vp,
    words: &[u64; WORDS],
    scratch: &mut Notices,
    notices: &mut Notices,
) -> bool
    requires on { vp < processors board.old.state }
    requires known { (x : ℕ) → x < 512 → known page.old.log x ≡ slice_index words.now x }
    requires grow { WordsGrow board.old.state vp words.now }
    requires kept { AreKept board.old.state vp words.now }
    requires capacity { length notices.old + 16 ≤ 320 }
    ensures finished { IsFinished board.old.state vp page.old.log board.new.state page.new.log result notices.old
        notices.new }
    ensures name { page.new.name ≡ page.old.name }
{
    if !is_shown(board, vp, Kind::Sim) {
        publish(board, page, vp, words, false);
        return false;
    }
    publish(board, page, vp, words, true);
    mark_slots(board, page, vp, words, scratch, notices)
}

/// Performs a tick, and appends its notices. `part` is empty after it.
pub(crate) fn tick_now(
    board: &mut Board,
    moment: Moment,
    part: &mut Notices,
    notices: &mut Journal,
) -> Reply
    requires { length notices.old + 192 ≤ 22720 }
    ensures ticked { IsStep board.old.state (Tick moment) board.new.state result notices.old notices.new }
    ensures empty { part.new ≡ [] }
{
    let reply = board.perform(&Event::Tick { moment }, part);
    move_to(part, notices);
    reply
}

/// Performs a tick, and brings the message pages of those processors from `number` on up to date of which a
/// timer in message mode is due. Returns which of them are owed an EOM. `part` is empty before and after.
#[cycle(tick_from)]
pub(crate) fn tick_from(
    board: &mut Board,
    pages: &mut Vec<LivePage>,
    number: u8,
    moment: Moment,
    scratch: &mut Notices,
    part: &mut Notices,
    notices: &mut Journal,
) -> (Reply, u64)
    requires on { number ≤ processors board.old.state }
    requires few { processors board.old.state ≤ 64 }
    requires count { length pages.old.items ≡ 2 * processors board.old.state }
    requires shadow { (p : ℕ) → number ≤ p → p < processors board.old.state
        → IsShadow board.old.state (2 * p) (slice_index_or (logs_of pages.old.items) (2 * p) []) }
    requires capacity { length notices.old + 32 * (processors board.old.state - number) + 192 ≤ 22720 }
    requires empty { part.old ≡ [] }
    ensures ticked { IsTickFrom board.old.state number (processors board.old.state - number) (logs_of pages.old.items)
        (Tick moment) board.new.state (logs_of pages.new.items) result.0 result.1 notices.old notices.new }
    ensures names { names_of pages.new.items ≡ names_of pages.old.items }
    ensures empty { part.new ≡ [] }
{
    board.facts();
    if number >= board.processors() {
        return (tick_now(board, moment, part, notices), 0);
    }
    let Some(vp) = Vp::new(number) else {
        unreachable!()
    };
    if !are_due_direct(board, vp, moment) {
        return tick_posted(board, pages, vp, moment, scratch, part, notices);
    }
    tick_from(board, pages, number + 1, moment, scratch, part, notices)
}

/// The same from a processor on of which a timer in message mode is due. Out of line: a processor without
/// one has no use for the words of a page.
#[cycle(tick_from)]
#[inline(never)]
fn tick_posted(
    board: &mut Board,
    pages: &mut Vec<LivePage>,
    vp: Vp,
    moment: Moment,
    scratch: &mut Notices,
    part: &mut Notices,
    notices: &mut Journal,
) -> (Reply, u64)
    requires posted { AreDueDirect board.old.state vp moment → ⊥ }
    requires on { vp < processors board.old.state }
    requires few { processors board.old.state ≤ 64 }
    requires count { length pages.old.items ≡ 2 * processors board.old.state }
    requires shadow { (p : ℕ) → vp ≤ p → p < processors board.old.state
        → IsShadow board.old.state (2 * p) (slice_index_or (logs_of pages.old.items) (2 * p) []) }
    requires capacity { length notices.old + 32 * (processors board.old.state - vp) + 192 ≤ 22720 }
    requires empty { part.old ≡ [] }
    ensures ticked { IsTickFrom board.old.state vp (processors board.old.state - vp) (logs_of pages.old.items)
        (Tick moment) board.new.state (logs_of pages.new.items) result.0 result.1 notices.old notices.new }
    ensures names { names_of pages.new.items ≡ names_of pages.old.items }
    ensures empty { part.new ≡ [] }
{
    board.facts();
    let number = vp.number();
    look_at(board, pages, vp, scratch, part, notices);
    board.facts();
    let words = page_words(board, vp);
    let (reply, owed) = tick_from(board, pages, number + 1, moment, scratch, part, notices);
    board.facts();
    let page = &mut pages[2 * usize::from(number)];
    let is_owed = finish(board, page, vp, &words, scratch, part);
    move_to(part, notices);
    (reply, with_owed(owed, vp, is_owed))
}
