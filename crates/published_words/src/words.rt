// The words, and what a watcher loads.
ghost use Rattle.std.specs.Prelude.{◌≡◌, ℕ, ◌+◌, ◌*◌, ◌<◌, ◌≤◌, [], IfOk, Some, length, slice_index};
ghost use Rattle.synic_board.specs.State.{processors};
ghost use Rattle.synic_board.specs.History.{leads_to};
ghost use Rattle.published_words.specs.Values.{word_count, next_word, next_of, deadline_word, deadline_of, time_of};
ghost use Rattle.published_words.specs.Words.{words_of, no_logs, log_at, published, watching, IsLoaded};
ghost use Rattle.published_words.specs.inside.Rule.{IsRight, AreOpening, AreSpread};

use crate::publisher::{Checkpoint, Publisher};
use crate::rule::{Begins, Loads, Raises, Ruled, View};
use crate::watcher::Watcher;
use atomic_table::Table;
use board_terms::{Moment, TimerId, Vector, Vp};
use ghost_history::History;
use std::alloc::{AllocError, Global};
use std::marker::Model;
use std::snapshot::Snapshot;
use synic_board::Board;

/// The words of 64 bits in a cache line.
pub(crate) const LINE: usize = 8;

/// A word for the next vector of each processor, and one for the earliest deadline, each in a cache
/// line of its own. Threads share the words by reference.
#[derive(Drop)]
pub struct PublishedWords {
    pub(crate) table: Table<History, View, Snapshot<Board>, Ruled, Global>,
    count: u8,
}

impl Model for PublishedWords {
    ghost use Rattle.std.specs.Prelude.{◌≡◌, ◌*◌, ◌≤◌};
    ghost use Rattle.synic_board.specs.State.{processors};
    ghost use Rattle.published_words.specs.Values.{word_count};
    ghost use Rattle.published_words.specs.Words.{Words, words_of};
    ghost use Rattle.published_words.specs.inside.Codes.{words_code};

    ghost Value = { Words };

    ghost coded = { words_code };

    ghost view = { λ w. words_of w.table.shared.table_id w.table.shared.key.value.state };

    ghost invariant = { λ w. (w.count ≡ processors w.table.shared.key.value.state) × (w.count ≤ 64)
        × (w.table.shared.table_id.words ≡ 8 * word_count w.table.shared.key.value.state) };
}

/// The word for a next vector.
pub(crate) fn next_value(next: Option<Vector>) -> u64
    ensures value { result ≡ next_word next }
    ensures range { (v : ℕ) → next ≡ Some v → (16 ≤ v) × (v < 256) }
{
    match next {
        Some(vector) => u64::from(vector.number()),
        None => 0,
    }
}

/// The word for the earliest timer.
pub(crate) fn deadline_value(earliest: Option<(u128, TimerId)>) -> u64
    ensures { result ≡ deadline_word (time_of earliest) }
{
    match earliest {
        Some((due, _)) if due < u128::from(u64::MAX) => due as u64,
        _ => u64::MAX,
    }
}

/// The values of the words of a board.
fn values_of(alloc: Global, board: &Board) -> Result<Vec<u64>, AllocError>
    ensures { IfOk result (λ v. AreOpening board.now.state v.items) }
{
    let summary = board.summary();
    let processors = board.processors();
    let mut values = Vec::with_capacity(alloc, usize::from(processors) + 1)?;
    for number in 0..processors {
        let vp = Vp::new(number).unwrap();
        values.push(next_value(summary.next(vp)))?;
    }
    values.push(deadline_value(summary.earliest()))?;
    Ok(values)
}

/// The values, each in a cache line of its own.
fn spread(alloc: Global, values: &[u64]) -> Result<Vec<u64>, AllocError>
    requires { length values.now ≤ 65 }
    ensures { IfOk result (λ w. AreSpread values.now w.items) }
{
    let mut words = Vec::from_elem(alloc, 0, LINE * values.len())?;
    for i in 0..values.len() {
        words[LINE * i] = values[i];
    }
    Ok(words)
}

impl PublishedWords {
    /// Words with the values of a board, and their publisher. Fails only if an allocation fails.
    pub fn open(alloc: Global, board: &Board) -> Result<(PublishedWords, Publisher), AllocError>
        ensures words { IfOk result (λ r. r.0 ≡ words_of r.0.name board.now.state) }
        ensures publisher { IfOk result (λ r. r.1 ≡ published r.0 (no_logs board.now.state)) }
    {
        let values = values_of(alloc, board)?;
        let spread = spread(alloc, values.as_slice())?;
        let (table, seat) = Table::of_words(alloc, spread.as_slice(), &Snapshot::of(board))?;
        let words = PublishedWords {
            table,
            count: board.processors(),
        };
        Ok((words, Publisher { seat, values }))
    }

    /// The number of processors of the board, at most 64.
    pub fn processors(&self) -> u8
        ensures count { result ≡ processors self.now.start }
        ensures bound { result ≤ 64 }
    {
        self.count
    }

    /// A watcher of the next vector of a processor. Requires that the processor is on the board.
    pub fn watch_next(&self, vp: Vp) -> Watcher
        requires { vp < processors self.now.start }
        ensures { result ≡ watching self.now vp result.seen [] }
    {
        self.watch(vp.number())
    }

    /// A watcher of the earliest deadline.
    pub fn watch_deadline(&self) -> Watcher
        ensures { result ≡ watching self.now (processors self.now.start) result.seen [] }
    {
        self.watch(self.count)
    }

    fn watch(&self, word: u8) -> Watcher
        requires { word < word_count self.now.start }
        ensures { result ≡ watching self.now word result.seen [] }
    {
        let (_, seat) = self
            .table
            .shared
            .load_new_seat::<Begins>(LINE * usize::from(word));
        Watcher { seat, word }
    }

    /// The next vector of a processor, by one load. It is that of the state to which the history leads
    /// that the watcher has then seen. Requires a watcher of a processor of these words.
    pub fn next_vector(&self, watcher: &mut Watcher) -> Option<Vector>
        requires own { watcher.old.of ≡ self.now }
        requires word { watcher.old.word < processors self.now.start }
        ensures loaded { IsLoaded watcher.old watcher.new }
        ensures next { result ≡ next_of (leads_to self.now.start watcher.new.seen) watcher.old.word }
    {
        let value = self.load(watcher);
        if value == 0 {
            None
        } else {
            Vector::new(value as u8)
        }
    }

    /// The earliest deadline, by one load, in units of 100 ns: that of the state to which the history
    /// leads that the watcher has then seen. `None` if no timer has a deadline below 2^64 - 1. Requires
    /// a watcher of the deadline of these words.
    pub fn deadline(&self, watcher: &mut Watcher) -> Option<Moment>
        requires own { watcher.old.of ≡ self.now }
        requires word { watcher.old.word ≡ processors self.now.start }
        ensures loaded { IsLoaded watcher.old watcher.new }
        ensures deadline { result ≡ deadline_of (leads_to self.now.start watcher.new.seen) }
    {
        let value = self.load(watcher);
        if value == u64::MAX { None } else { Some(value) }
    }

    fn load(&self, watcher: &mut Watcher) -> u64
        requires own { watcher.old.of ≡ self.now }
        requires there { watcher.old.word < word_count self.now.start }
        ensures loaded { IsLoaded watcher.old watcher.new }
        ensures right { IsRight self.now.start watcher.old.word watcher.new.seen result }
    {
        let word = usize::from(watcher.word);
        let shared = &self.table.shared;
        shared.load::<Loads>(&mut watcher.seat, LINE * word)
    }

    /// Raises the floor of a watcher to a checkpoint. Requires a watcher and a checkpoint of these
    /// words.
    pub fn catch_up(&self, watcher: &mut Watcher, checkpoint: Checkpoint)
        requires watcher { watcher.old.of ≡ self.now }
        requires checkpoint { checkpoint.of ≡ self.now }
        ensures { watcher.new ≡ watching watcher.old.of watcher.old.word watcher.old.seen
            (log_at checkpoint.logs watcher.old.word) }
    {
        let Checkpoint { seat } = checkpoint;
        self.table
            .shared
            .join_seat::<Raises>(&mut watcher.seat, seat);
    }
}
