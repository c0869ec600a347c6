// The result of settling a shared board with one processor.
ghost use Rattle.std.specs.Prelude.{◌≡◌, length};

use board_terms::{Ticket, Vp};
use board_threads::{ActorCalls, Ended, Standing};
use synic_board::{Entry, Event};

/// The result of settling a board.
#[derive(Clone, Copy, PartialEq, Eq, Debug)]
pub(crate) struct End {
    /// The number of entries in its history.
    pub(crate) entries: usize,
    /// The number of calls of actors 0, 1 and 2.
    pub(crate) calls: [usize; 3],
    /// The bits taken by all absorbs of the history.
    pub(crate) absorbed: u64,
    /// The next vector of its processor.
    pub(crate) next: Option<u8>,
    pub(crate) next_ticket: Ticket,
    pub(crate) standing: [u64; 4],
}

/// The result for a board on which nothing was done.
pub(crate) const NEW: End = End {
    entries: 0,
    calls: [0; 3],
    absorbed: 0,
    next: None,
    next_ticket: 0,
    standing: [0; 4],
};

fn calls_of(actors: &[ActorCalls], number: u8) -> usize {
    let mut calls = 0;
    for actor in actors {
        if actor.number == number {
            calls = actor.calls.len();
        }
    }
    calls
}

fn absorbed_bits(history: &[Entry]) -> u64 {
    let mut all = 0;
    for entry in history {
        if let Event::Absorb { bits, .. } = entry.event {
            all |= bits;
        }
    }
    all
}

fn words_of(standing: &Standing, vp: Vp) -> [u64; 4]
    requires processor { vp ≡ 0 }
    requires words { length standing.now ≡ 4 }
{
    [
        standing.word(vp, 0),
        standing.word(vp, 1),
        standing.word(vp, 2),
        standing.word(vp, 3),
    ]
}

pub(crate) fn end_of(ended: &Ended) -> End
    requires { length ended.now.standing ≡ 4 }
{
    let vp = Vp::new(0).unwrap();
    let actors = ended.actors.as_slice();
    End {
        entries: ended.history.len(),
        calls: [
            calls_of(actors, 0),
            calls_of(actors, 1),
            calls_of(actors, 2),
        ],
        absorbed: absorbed_bits(ended.history.as_slice()),
        next: ended.board.summary().next(vp).map(|vector| vector.number()),
        next_ticket: ended.board.next_ticket(),
        standing: words_of(&ended.standing, vp),
    }
}
