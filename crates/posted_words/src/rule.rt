// The protocol of the words: the state of a seat, and the effect of each kind of step. All types
// here are ghost.
use atomic_table::{Join, Play, Split, TableRule};
use std::collections::LinkedList;

/// One step of a token. Ghost.
pub enum Action {
    /// A raise of a bit of a word, and whether the bit was clear.
    Raise { word: u64, bit: u64, fresh: bool },
    /// A sweep of a word, and the bits that it took.
    Sweep { word: u64, bits: u64 },
}

/// The state of a seat. Ghost.
pub struct View {
    /// How many tokens the seat holds.
    pub parts: u64,
    /// The steps of each of them, the last one first.
    pub logs: LinkedList<LinkedList<Action>>,
}

/// The rule. Its key is the number of words, and of tokens.
pub struct Counted;

impl TableRule<(), View, (u64, u64)> for Counted {
    ghost use Rattle.posted_words.specs.inside.Posted.{Posted, view_of};
    ghost use Rattle.std.specs.Prelude.{[], ◌∷◌};

    ghost holds = { Posted };

    ghost first = { λ key. view_of key.1 ([] ∷ []) };
}

/// A raise: one `fetch_or` with the mask of a bit.
pub struct Raises;

impl Play<(), View> for Raises {
    ghost use Rattle.posted_words.specs.inside.Posted.{raised_as};

    ghost then = { raised_as };
}

/// A sweep: one `swap` with zero.
pub struct Sweeps;

impl Play<(), View> for Sweeps {
    ghost use Rattle.posted_words.specs.inside.Posted.{swept_as};

    ghost then = { swept_as };
}

/// Splits a token without steps off a seat.
pub struct Deals;

impl Split<View> for Deals {
    ghost use Rattle.posted_words.specs.inside.Posted.{view_of};
    ghost use Rattle.std.specs.Prelude.{◌-◌, [], ◌∷◌};

    ghost left = { λ v. view_of (v.parts - 1) v.logs };

    ghost right = { λ v. view_of 1 ([] ∷ []) };
}

/// A seat takes over the tokens of another.
pub struct Gathers;

impl Join<View> for Gathers {
    ghost use Rattle.posted_words.specs.inside.Posted.{view_of};
    ghost use Rattle.std.specs.Prelude.{◌+◌, [], ◌++◌};

    ghost both = { λ v w. view_of (v.parts + w.parts) (w.logs ++ v.logs) };

    ghost spent = { view_of 0 [] };
}
