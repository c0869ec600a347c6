// The token of the one thread at a time that stores words.
ghost use Rattle.std.specs.Prelude.{◌≡◌, ◌<◌};
ghost use mathlib.Core.List.{IsPrefix};
ghost use Rattle.published_words.specs.Values.{word_count};
ghost use Rattle.published_words.specs.Words.{log_at, IsWithin};
ghost use Rattle.published_words.specs.Storing.{IsContinued, IsStored};
ghost use Rattle.published_words.specs.inside.Rule.{IsRight, IsStoredAt};

use crate::rule::{Copies, Finds, MarksOff, Meets, Stores, View};
use crate::watcher::Watcher;
use crate::words::{LINE, PublishedWords, deadline_value, next_value};
use atomic_table::Seat;
use board_terms::Vp;
use ghost_history::History;
use std::marker::Model;
use synic_board::Board;

/// The right to store the words of a board. Its contract shows the words, and for each of them the
/// history of the board up to the call that stored its value.
#[derive(Drop)]
pub struct Publisher {
    pub(crate) seat: Seat<History, View>,
    // what the words hold, so that an unchanged word is neither loaded nor stored
    pub(crate) values: Vec<u64>,
}

impl Model for Publisher {
    ghost use Rattle.std.specs.Prelude.{◌≡◌, [], true};
    ghost use Rattle.published_words.specs.Words.{Published, words_of, published};
    ghost use Rattle.published_words.specs.inside.Rule.{start_of, logs_of, is_writer, HasValues};
    ghost use Rattle.published_words.specs.inside.Codes.{published_code};

    ghost Value = { Published };

    ghost coded = { published_code };

    ghost view = { λ p. published (words_of p.seat.table_id (start_of p.seat.me.0)) (logs_of p.seat.me.0) };

    ghost invariant = { λ p. (is_writer p.seat.me.0 ≡ true) × (p.seat.me.1 ≡ [])
        × HasValues (start_of p.seat.me.0) (logs_of p.seat.me.0) p.values.items };
}

/// What the words held at some time. A watcher that takes it as its floor reads no earlier value. It
/// has no bytes, and may go to another thread. Its contract shows the words, and for each of them the
/// history of the board up to the call that had stored its value.
#[derive(Drop)]
pub struct Checkpoint {
    pub(crate) seat: Seat<History, View>,
}

impl Model for Checkpoint {
    ghost use Rattle.std.specs.Prelude.{◌≡◌, [], true};
    ghost use Rattle.published_words.specs.Words.{Published, words_of, published};
    ghost use Rattle.published_words.specs.inside.Rule.{start_of, logs_of, is_mark};
    ghost use Rattle.published_words.specs.inside.Codes.{published_code};

    ghost Value = { Published };

    ghost coded = { published_code };

    ghost view = { λ c. published (words_of c.seat.table_id (start_of c.seat.me.0)) (logs_of c.seat.me.0) };

    ghost invariant = { λ c. (is_mark c.seat.me.0 ≡ true) × (c.seat.me.1 ≡ []) };
}

impl Publisher {
    /// Stores the words whose values have changed, each by one atomic step. The history is that of
    /// the board since the words were opened, so it continues those of all words. Requires a publisher
    /// of these words.
    pub fn publish(&mut self, words: &PublishedWords, board: &Board, history: &History)
        requires own { self.old.of ≡ words.now }
        requires continued { IsContinued words.now.start board.now.state history.now.entries self.old.logs }
        ensures own { self.new.of ≡ self.old.of }
        ensures stored { IsStored words.now.start history.now.entries self.old.logs self.new.logs }
    {
        let summary = board.summary();
        let processors = words.processors();
        for number in 0..processors {
            let vp = Vp::new(number).unwrap();
            self.store(words, number, next_value(summary.next(vp)), history);
        }
        let deadline = deadline_value(summary.earliest());
        self.store(words, processors, deadline, history);
    }

    /// Stores a word if its value has changed.
    fn store(&mut self, words: &PublishedWords, word: u8, value: u64, history: &History)
        requires own { self.old.of ≡ words.now }
        requires there { word < word_count words.now.start }
        requires later { IsPrefix (log_at self.old.logs word) history.now.entries }
        requires right { IsRight words.now.start word history.now.entries value }
        ensures own { self.new.of ≡ self.old.of }
        ensures stored { IsStoredAt words.now.start word history.now.entries self.old.logs self.new.logs }
    {
        let index = usize::from(word);
        let old = self.values[index];
        if old != value {
            words
                .table
                .shared
                .compare_exchange_with::<Stores>(&mut self.seat, LINE * index, old, value, history);
            self.values[index] = value;
        }
    }

    /// What the words hold now. Requires a publisher of these words.
    pub fn checkpoint(&mut self, words: &PublishedWords) -> Checkpoint
        requires own { self.old.of ≡ words.now }
        ensures checkpoint { result ≡ self.old }
        ensures same { self.new ≡ self.old }
    {
        Checkpoint {
            seat: words.table.shared.split_seat::<MarksOff>(&mut self.seat),
        }
    }

    /// Compares a watcher with the publisher: what it has seen, and its floor, are prefixes of the
    /// history of its word. Changes neither. Requires a publisher and a watcher of these words.
    pub fn compare(&mut self, words: &PublishedWords, watcher: &mut Watcher)
        requires own { self.old.of ≡ words.now }
        requires watcher { watcher.old.of ≡ words.now }
        ensures same { (self.new ≡ self.old) × (watcher.new ≡ watcher.old) }
        ensures within { IsWithin (log_at self.old.logs watcher.old.word) watcher.old }
    {
        let shared = &words.table.shared;
        let copy = shared.split_seat::<Copies>(&mut watcher.seat);
        shared.join_seat::<Meets>(&mut self.seat, copy);
        shared.load::<Finds>(&mut self.seat, 0);
    }
}
