// Shared boards with their actors and lines.
ghost use Rattle.std.specs.Prelude.{◌≡◌, true, All, IfSome};
ghost use Rattle.synic_board.specs.State.{opened, processors};
ghost use Rattle.posted_words.specs.Words.{IsOf};
ghost use Rattle.actor_calls.specs.Absorbed.{only_raises};

use board_threads::{Actor, Line, Origin, RecordedBoard};
use std::alloc::Global;
use synic_board::Board;

/// A board with one processor, one page and first ticket 0.
pub(crate) struct Smallest;

impl Origin for Smallest {
    ghost start = { opened 1 1 0 };
}

/// That board, its actors and its lines.
pub(crate) fn opened(
    alloc: Global,
    actors: u8,
    lines: u8,
) -> Option<(RecordedBoard<Smallest>, Vec<Actor>, Vec<Line>)>
    ensures processors { IfSome result (λ r. r.0.processors ≡ 1) }
    ensures actors { IfSome result (λ r. All (λ a. a.of ≡ r.0.name) r.1.items) }
    ensures lines { IfSome result (λ r. All (IsOf r.0.name) r.2.items) }
    ensures raises { IfSome result (λ r. All (λ l. only_raises l.actions ≡ true) r.2.items) }
{
    match RecordedBoard::open(alloc, 1, 1, 0, actors, lines) {
        Ok(opened) => Some(opened),
        Err(_) => None,
    }
}

/// A board that is given, its actors and its lines.
pub(crate) fn shared<S: Origin>(
    alloc: Global,
    board: Board,
    actors: u8,
    lines: u8,
) -> Option<(RecordedBoard<S>, Vec<Actor>, Vec<Line>)>
    requires start { board.state ≡ S.start }
    ensures processors { IfSome result (λ r. r.0.processors ≡ processors board.state) }
    ensures actors { IfSome result (λ r. All (λ a. a.of ≡ r.0.name) r.1.items) }
    ensures lines { IfSome result (λ r. All (IsOf r.0.name) r.2.items) }
    ensures raises { IfSome result (λ r. All (λ l. only_raises l.actions ≡ true) r.2.items) }
{
    match RecordedBoard::share(alloc, board, actors, lines) {
        Ok(shared) => Some(shared),
        Err(_) => None,
    }
}

/// The last of a board's actors.
pub(crate) fn take_actor<S: Origin>(
    board: &RecordedBoard<S>,
    actors: &mut Vec<Actor>,
) -> Option<Actor>
    requires { All (λ a. a.of ≡ board.now.name) actors.old.items }
    ensures taken { IfSome result (λ a. a.of ≡ board.now.name) }
    ensures others { All (λ a. a.of ≡ board.now.name) actors.new.items }
{
    actors.pop()
}

/// The last of a board's lines.
pub(crate) fn take_line<S: Origin>(board: &RecordedBoard<S>, lines: &mut Vec<Line>) -> Option<Line>
    requires own { All (IsOf board.now.name) lines.old.items }
    requires raises { All (λ l. only_raises l.actions ≡ true) lines.old.items }
    ensures own { IfSome result (IsOf board.now.name) }
    ensures raises { IfSome result (λ l. only_raises l.actions ≡ true) }
{
    lines.pop()
}
