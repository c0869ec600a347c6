// A board, its notices, and runs.
use crate::stopped::{Stopped, ended};
use board_terms::{Notice, Notices, Vector, Vp};
use std::alloc::Global;
use synic_board::{Board, Event, Reply, run};

pub(crate) fn opened(alloc: Global) -> Result<bool, Stopped> {
    let board = Board::open(alloc, 8, 64, 7)?;
    ended(
        (board.processors(), board.pages()) == (8, 64)
            && (board.moment(), board.next_ticket()) == (0, 7),
    )
}

pub(crate) fn notices(alloc: Global) -> Result<bool, Stopped> {
    ended(Notices::open(alloc)?.as_slice().is_empty())
}

/// Asserts, takes, and asserts twice vector 0x60, which is one request; then the clock moves.
fn nine_events(vector: Vector) -> [Event; 9] {
    [
        Event::Assert { vp: 0, vector },
        Event::Take { vp: 0 },
        Event::Take { vp: 0 },
        Event::Assert { vp: 0, vector },
        Event::Tick { moment: 5 },
        Event::Assert { vp: 0, vector },
        Event::Take { vp: 0 },
        Event::Tick { moment: 6 },
        Event::Tick { moment: 7 },
    ]
}

fn replies_to_them(vector: Vector) -> [Reply; 9] {
    [
        Reply::Done,
        Reply::Taken(Some(vector)),
        Reply::Taken(None),
        Reply::Done,
        Reply::Done,
        Reply::Done,
        Reply::Taken(None),
        Reply::Done,
        Reply::Done,
    ]
}

fn notices_of_them(vector: Vector) -> [Notice; 2] {
    let vp = Vp::new(0).unwrap();
    [
        Notice::Requested { vp, vector },
        Notice::Requested { vp, vector },
    ]
}

/// A run of the events, and whether it stopped at an allocation failure; then the rest is run.
fn all_replies(
    alloc: Global,
    board: &mut Board,
    events: &[Event],
    notices: &mut Vec<Notice>,
) -> Result<(Vec<Reply>, bool), Stopped> {
    match run(alloc, board, events, notices) {
        Ok(replies) => Ok((replies, false)),
        Err(stopped) => {
            let mut replies = stopped.replies;
            if replies.len() != stopped.done {
                return Err(Stopped::Otherwise);
            }
            match run(alloc, board, &events[stopped.done..], notices) {
                Ok(mut rest) => replies.append(&mut rest)?,
                Err(_) => return Err(Stopped::Memory),
            }
            Ok((replies, true))
        }
    }
}

/// Whether these are the replies and the notices of the events.
fn are_theirs(replies: &[Reply], notices: &[Notice], vector: Vector) -> bool {
    replies == replies_to_them(vector).as_slice() && notices == notices_of_them(vector).as_slice()
}

/// A run continues where it stopped.
pub(crate) fn ran(alloc: Global) -> Result<bool, Stopped> {
    let vector = Vector::new(0x60).unwrap();
    let mut board = Board::open(alloc, 1, 1, 0)?;
    let mut notices = Vec::new(alloc);
    let (replies, has_stopped) = all_replies(
        alloc,
        &mut board,
        &nine_events(vector),
        &mut notices,
    )?;
    if are_theirs(replies.as_slice(), notices.as_slice(), vector) {
        Ok(has_stopped)
    } else {
        Err(Stopped::Otherwise)
    }
}
