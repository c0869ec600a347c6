// The token of a thread that reads a word.
use crate::rule::View;
use atomic_table::Seat;
use ghost_history::History;
use std::marker::Model;

/// The right of one thread to load one word. Its contract shows the words and the word, the history
/// of the board at the value that it loaded last, and its floor: a history that its next value
/// includes as well.
#[derive(Drop)]
pub struct Watcher {
    pub(crate) seat: Seat<History, View>,
    pub(crate) word: u8,
}

impl Model for Watcher {
    ghost use Rattle.std.specs.Prelude.{◌≡◌, [], true};
    ghost use Rattle.published_words.specs.Words.{Watching, words_of, watching};
    ghost use Rattle.published_words.specs.inside.Rule.{start_of, seen_of, floor_of, is_reader};
    ghost use Rattle.published_words.specs.inside.Codes.{watching_code};

    ghost Value = { Watching };

    ghost coded = { watching_code };

    ghost view = { λ w. watching (words_of w.seat.table_id (start_of w.seat.me.0)) w.word (seen_of w.seat.me.0)
        (floor_of w.seat.me.0) };

    ghost invariant = { λ w. (is_reader w.word w.seat.me.0 ≡ true) × (w.seat.me.1 ≡ []) };
}
