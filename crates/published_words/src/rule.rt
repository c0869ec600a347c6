// The protocol of the words: the state of a seat, and the effect of each kind of step. All types
// here are ghost.
use atomic_table::{Join, Play, Split, TableRule};
use ghost_history::History;
use std::collections::LinkedList;
use std::snapshot::Snapshot;
use synic_board::{Board, Entry};

/// What a seat knows of the histories of the words. Ghost.
pub enum View {
    /// The publisher: they are these.
    Writes {
        start: Snapshot<Board>,
        own: LinkedList<LinkedList<Entry>>,
    },
    /// A checkpoint: they begin with these.
    Marks {
        start: Snapshot<Board>,
        own: LinkedList<LinkedList<Entry>>,
    },
    /// A watcher: that of its word begins with these two.
    Reads {
        start: Snapshot<Board>,
        word: u64,
        seen: LinkedList<Entry>,
        floor: LinkedList<Entry>,
    },
    /// The publisher, with what a watcher knows: they are these, and that of the watcher's word begins
    /// with these two.
    Compares {
        start: Snapshot<Board>,
        own: LinkedList<LinkedList<Entry>>,
        word: u64,
        seen: LinkedList<Entry>,
        floor: LinkedList<Entry>,
    },
    /// Nothing.
    Spent,
}

/// The rule. Its key is the board when the words are opened.
pub struct Ruled;

impl TableRule<History, View, Snapshot<Board>> for Ruled {
    ghost use Rattle.published_words.specs.inside.Rule.{IsRuled};
    ghost use Rattle.published_words.specs.Words.{no_logs};
    ghost use Rattle.published_words.specs.declared.rule.View.TheVariants.{Writes};

    ghost holds = { λ key. IsRuled key.value.state };

    ghost first = { λ key. Writes key (no_logs key.value.state) };
}

/// A store of a word, with the history that leads to its value.
pub struct Stores;

impl Play<History, View> for Stores {
    ghost use Rattle.published_words.specs.inside.Rule.{stored_as};

    ghost then = { stored_as };
}

/// A load by a watcher.
pub struct Loads;

impl Play<History, View> for Loads {
    ghost use Rattle.published_words.specs.inside.Rule.{loaded_as};

    ghost then = { loaded_as };
}

/// The load that makes a watcher.
pub struct Begins;

impl Play<History, View> for Begins {
    ghost use Rattle.published_words.specs.inside.Rule.{begun_as};

    ghost then = { begun_as };
}

/// Splits a checkpoint off the publisher.
pub struct MarksOff;

impl Split<View> for MarksOff {
    ghost use Rattle.published_words.specs.inside.Rule.{mark_of};

    ghost left = { λ v. v };

    ghost right = { mark_of };
}

/// A watcher takes a checkpoint as its floor.
pub struct Raises;

impl Join<View> for Raises {
    ghost use Rattle.published_words.specs.inside.Rule.{raised};
    ghost use Rattle.published_words.specs.declared.rule.View.TheVariants.{Spent};

    ghost both = { raised };

    ghost spent = { Spent };
}

/// Splits a copy off a watcher.
pub struct Copies;

impl Split<View> for Copies {
    ghost left = { λ v. v };

    ghost right = { λ v. v };
}

/// The publisher takes the copy of a watcher.
pub struct Meets;

impl Join<View> for Meets {
    ghost use Rattle.published_words.specs.inside.Rule.{met};
    ghost use Rattle.published_words.specs.declared.rule.View.TheVariants.{Spent};

    ghost both = { met };

    ghost spent = { Spent };
}

/// A load by the publisher that compares what it took with what it knows.
pub struct Finds;

impl Play<History, View> for Finds {
    ghost use Rattle.published_words.specs.inside.Rule.{compared_as};

    ghost then = { compared_as };
}
