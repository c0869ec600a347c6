// Batches of plain events.
ghost use Rattle.std.specs.Prelude.{◌≡◌, ◌≤◌, ◌<◌, ◌+◌, ◌⊎◌, ◌↔◌, true, [], ◌∷◌, None, length, take, slice_get, Some};
ghost use Rattle.c_terms.specs.Batches.{IsNotAnEvent};
ghost use Rattle.c_calls.specs.Batched.{IsBatch};
ghost use Rattle.c_calls.specs.Live.{is_live};
ghost use Rattle.c_calls.specs.Outcomes.{is_among};

use c_handles::{AnyBoard, BoardHandle};
use c_terms::{CEvent, CNotice, CReply, perform_batch};

/// The result of a batch.
#[repr(C)]
#[derive(Clone, Copy)]
pub struct CBatch {
    /// 0 if each event was performed; 4 if the handle is closed; 8 if the next event is invalid; 9
    /// if one more reply, or 276 more notices, might not fit; 14 if the board has live pages.
    pub end: u8,
    /// How many events were performed.
    pub done: usize,
    /// How many notices they emitted.
    pub emitted: usize,
}

/// Performs events in order. Stops before an event that is invalid, or if no reply fits, or fewer
/// than 276 notices fit. The notices of all events follow one another; each reply counts its own.
#[unsafe(no_mangle)]
pub extern "C" fn synicboard_perform_all(
    handle: &mut BoardHandle,
    events: &[CEvent],
    replies: &mut [CReply],
    notices: &mut [CNotice],
) -> CBatch
    ensures performed { IsBatch handle.old.board
        (take result.done events.now) handle.new.board replies.old replies.new notices.old notices.new result }
    ensures kinds { is_among (0 ∷ 4 ∷ 8 ∷ 9 ∷ 14 ∷ []) result.end ≡ true }
    ensures closed { (result.end ≡ 4) ↔ (handle.old.board ≡ None) }
    ensures live { (result.end ≡ 14) ↔ (is_live handle.old.board ≡ true) }
    ensures within { result.done ≤ length events.now }
    ensures all { result.end ≡ 0 → result.done ≡ length events.now }
    ensures none { result.end ≡ 8 → IsNotAnEvent (slice_get events.now result.done) }
    ensures room_first { result.end ≡ 8 → (result.done < length replies.old)
        × (result.emitted + 276 ≤ length notices.old) }
    ensures room { result.end ≡ 9 → (length replies.old ≡ result.done) ⊎ (length notices.old < result.emitted + 276) }
{
    match handle.board_mut() {
        Some(board) => perform_all_in(board, events, replies, notices),
        None => not_begun(4),
    }
}

/// Performs events on a board, if it has no live pages.
fn perform_all_in(
    board: &mut AnyBoard,
    events: &[CEvent],
    replies: &mut [CReply],
    notices: &mut [CNotice],
) -> CBatch
    ensures performed { IsBatch (Some board.old) (take result.done events.now)
        (Some board.new) replies.old replies.new notices.old notices.new result }
    ensures kinds { is_among (0 ∷ 8 ∷ 9 ∷ 14 ∷ []) result.end ≡ true }
    ensures live { (result.end ≡ 14) ↔ (is_live (Some board.old) ≡ true) }
    ensures within { result.done ≤ length events.now }
    ensures all { result.end ≡ 0 → result.done ≡ length events.now }
    ensures none { result.end ≡ 8 → IsNotAnEvent (slice_get events.now result.done) }
    ensures room_first { result.end ≡ 8 → (result.done < length replies.old)
        × (result.emitted + 276 ≤ length notices.old) }
    ensures room { result.end ≡ 9 → (length replies.old ≡ result.done) ⊎ (length notices.old < result.emitted + 276) }
{
    let AnyBoard::Plain(board) = board else {
        return not_begun(14);
    };
    let batch = perform_batch(board, events, replies, notices);
    CBatch {
        end: batch.end as u8,
        done: batch.done,
        emitted: batch.emitted,
    }
}

/// The result of a batch that performed no event, for a reason.
fn not_begun(end: u8) -> CBatch
    ensures { result ≡ record { end = end; done = 0; emitted = 0 } }
{
    CBatch {
        end,
        done: 0,
        emitted: 0,
    }
}
