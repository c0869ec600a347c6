// Runs: events in sequence.
ghost use Rattle.std.specs.Prelude.{◌≡◌, ◌<◌, ◌≤◌, ◌+◌, ◌*◌, ◌++◌, [], length, take, drop, vec_len, vec_capacity, IfOk, IfErr};
ghost use Rattle.synic_board.specs.Run.{run_of, with_earlier_notices};
ghost use Rattle.synic_board.specs.Locations.{Conserves};
ghost use Rattle.synic_board.specs.inside.Progress.{HasPerformed};

use crate::board::Board;
use crate::event::{Event, Reply};
use board_terms::{Notice, Notices};
use std::alloc::Global;
use thiserror::Error;

/// A run that stopped at an allocation failure: the first `done` events were performed, with these
/// replies, and no other event was.
#[derive(Debug, Drop, Error)]
#[error("out of memory after {done} events")]
pub struct Stopped {
    pub done: usize,
    pub replies: Vec<Reply>,
}

/// Performs events in order, appends their notices to `notices`, and returns all replies. Ensures
/// capacity before each event, so that the notices of every performed event are recorded.
pub fn run(
    alloc: Global,
    board: &mut Board,
    events: &[Event],
    notices: &mut Vec<Notice>,
) -> Result<Vec<Reply>, Stopped>
    ensures all { IfOk result
        (λ replies. (board.new.state, replies.items, notices.new.items)
        ≡ with_earlier_notices notices.old.items (run_of board.old.state events.now)) }
    ensures stopped { IfErr result (λ stopped. (board.new.state, stopped.replies.items, notices.new.items)
        ≡ with_earlier_notices notices.old.items (run_of board.old.state (take stopped.done events.now))) }
    ensures within { IfErr result (λ stopped. stopped.done < length events.now) }
    ensures conserves { Conserves board.old.state board.new.state (drop (length notices.old.items) notices.new.items) }
    ensures tickets_monotone { board.old.state.next_ticket ≤ board.new.state.next_ticket }
    ensures writes_monotone { board.old.writes ≤ board.new.writes }
    ensures bound { board.new.writes + length notices.old.items
        ≤ board.old.writes + 8 * length events.now + length notices.new.items }
{
    let mut replies = Vec::new(alloc);
    let done = perform_all(alloc, board, events, &mut replies, notices);
    if done == events.len() {
        Ok(replies)
    } else {
        Err(Stopped { done, replies })
    }
}

/// Performs events in order, each after ensuring capacity for its reply and its notices. Returns
/// how many it performed.
fn perform_all(
    alloc: Global,
    board: &mut Board,
    events: &[Event],
    replies: &mut Vec<Reply>,
    notices: &mut Vec<Notice>,
) -> usize
    requires none { replies.old.items ≡ [] }
    ensures within { result ≤ length events.now }
    ensures behind { HasPerformed board.old.state events.now result notices.old.items board.new.state
        replies.new.items notices.new.items }
    ensures writes_monotone { board.old.writes ≤ board.new.writes }
    ensures bound { board.new.writes + length notices.old.items
        ≤ board.old.writes + 8 * result + length notices.new.items }
{
    let Ok(mut emitted) = Notices::open(alloc) else {
        return 0;
    };
    for (done, event) in events.iter().enumerate() {
        if replies.reserve(1).is_err() || notices.reserve(320).is_err() {
            return done;
        }
        let reply = board.perform(event, &mut emitted);
        replies.push_reserved(reply);
        keep(notices, emitted.as_slice());
    }
    events.len()
}

/// Appends notices within the capacity.
fn keep(notices: &mut Vec<Notice>, more: &[Notice])
    requires { vec_len notices.old + length more.now ≤ vec_capacity notices.old }
    ensures { notices.new.items ≡ notices.old.items ++ more.now }
{
    let _ = notices.extend_from_slice(more);
}
