// The tokens that raise and sweep.
ghost use Rattle.std.specs.Prelude.{◌≡◌, [], ◌∷◌};
ghost use Rattle.posted_words.specs.inside.Posted.{view_of};
ghost use Rattle.posted_words.specs.Words.{token};

use crate::rule::View;
use atomic_table::Seat;
use std::marker::Model;

/// The result of a raise.
#[derive(Clone, Copy, PartialEq, Eq, Debug)]
pub enum Raised {
    /// The bit was clear, and this raise set it.
    Fresh,
    /// The bit was already set.
    Already,
}

/// The right of one thread to raise and sweep some words. It has no bytes. Its contract shows the
/// words and the steps of the token.
#[derive(Drop)]
pub struct Line {
    pub(crate) seat: Seat<(), View>,
}

/// The token of an actor, which sweeps.
pub type Sweeper = Line;

impl Model for Line {
    ghost use Rattle.std.specs.Prelude.{◌≡◌, [], ◌∷◌};
    ghost use Rattle.posted_words.specs.Words.{Token, token};
    ghost use Rattle.posted_words.specs.inside.Posted.{first_log};
    ghost use Rattle.posted_words.specs.inside.Posted.{view_of};

    ghost Value = { Token };

    ghost view = { λ l. token l.seat.table_id (first_log l.seat.me.0.logs) };

    ghost invariant = { λ l. l.seat.me ≡ (view_of 1 (first_log l.seat.me.0.logs ∷ []), []) };
}

impl Line {
    /// A token without steps, from a seat that holds it alone.
    pub(crate) fn new(seat: Seat<(), View>) -> Line
        requires { seat.me ≡ (view_of 1 ([] ∷ []), []) }
        ensures { result ≡ token seat.table_id [] }
    {
        Line { seat }
    }

    /// The seat of the token.
    pub(crate) fn into_seat(self) -> Seat<(), View>
        ensures own { result.table_id ≡ self.of }
        ensures alone { result.me ≡ (view_of 1 (self.actions ∷ []), []) }
    {
        let Line { seat } = self;
        seat
    }
}
