// Batches of plain events.
ghost use Rattle.std.specs.Prelude.{◌≡◌, ◌≤◌, ◌<◌, ◌+◌, ◌⊎◌, length, take, map, slice_get};
ghost use Rattle.c_terms.specs.Notices.{notice_to_c};
ghost use Rattle.c_terms.specs.Rooms.{Fronts};
ghost use Rattle.c_terms.specs.Batches.{view_of, batch, IsNotAnEvent};

use crate::{CEvent, CNotice, CReply, perform_c, put_plain, reply_to_c};
use c_handles::BoardWithNotices;

/// The greatest number of notices of an event.
const MOST_NOTICES: usize = 276;

/// Why a batch stopped.
#[derive(Clone, Copy, PartialEq, Eq, Debug)]
pub enum BatchEnd {
    /// Each event was performed.
    All = 0,
    /// The next event is invalid.
    NoEvent = 8,
    /// One more reply, or 276 more notices, might not fit.
    NoRoom = 9,
}

/// The result of a batch.
#[derive(Clone, Copy)]
pub struct Batch {
    /// Why it stopped.
    pub end: BatchEnd,
    /// How many events it performed.
    pub done: usize,
    /// How many notices they emitted.
    pub emitted: usize,
}

/// Performs events in order. Stops before an event that is invalid, or if no reply fits, or fewer
/// than 276 notices fit, which is checked first. The notices of all events follow one another; each
/// reply counts its own.
pub fn perform_batch(
    board: &mut BoardWithNotices,
    events: &[CEvent],
    replies: &mut [CReply],
    notices: &mut [CNotice],
) -> Batch
    ensures board { view_of board.new ≡ (batch (view_of board.old) (take result.done events.now)).board }
    ensures replies { Fronts (batch (view_of board.old) (take result.done events.now)).replies replies.old replies.new }
    ensures notices { Fronts
        (map notice_to_c (batch (view_of board.old) (take result.done events.now)).notices) notices.old notices.new }
    ensures done { length (batch (view_of board.old) (take result.done events.now)).replies ≡ result.done }
    ensures emitted { length (batch (view_of board.old) (take result.done events.now)).notices ≡ result.emitted }
    ensures within { result.done ≤ length events.now }
    ensures fits { (result.done ≤ length replies.old) × (result.emitted ≤ length notices.old) }
    ensures all { result.end ≡ BatchEnd.All → result.done ≡ length events.now }
    ensures none { result.end ≡ BatchEnd.NoEvent → IsNotAnEvent (slice_get events.now result.done) }
    ensures room_first { result.end ≡ BatchEnd.NoEvent → (result.done < length replies.old)
        × (result.emitted + 276 ≤ length notices.old) }
    ensures room { result.end ≡ BatchEnd.NoRoom → (length replies.old ≡ result.done)
        ⊎ (length notices.old < result.emitted + 276) }
{
    let mut emitted = 0;
    for done in 0..events.len() {
        if done == replies.len() || notices.len() - emitted < MOST_NOTICES {
            return Batch {
                end: BatchEnd::NoRoom,
                done,
                emitted,
            };
        }
        // README c_terms: begin
        let Some(reply) = perform_c(&mut board.board, &mut board.notices, &events[done]) else {
            return Batch {
                end: BatchEnd::NoEvent,
                done,
                emitted,
            };
        };
        let given = board.notices.as_slice();
        replies[done] = reply_to_c(reply, given.len() as u16);
        put_plain(given, &mut notices[emitted..]);
        // README c_terms: end
        emitted += given.len();
    }
    Batch {
        end: BatchEnd::All,
        done: events.len(),
        emitted,
    }
}
