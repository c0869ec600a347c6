// An actor, whose calls exist only in contracts.
ghost use Rattle.std.specs.Prelude.{◌≡◌, []};
ghost use Rattle.ghost_history.specs.Rows.{row};
ghost use Rattle.shared_board.specs.Calling.{calling};

use crate::sharing::Sharing;
use ghost_history::Part;
use std::marker::{Model, PhantomData};

/// The right of one thread to perform events on a shared board. It takes eight bytes. Its contract
/// shows its number and its calls in order, with their replies and notices, of which nothing is stored.
#[derive(Drop)]
pub struct Actor<S: Sharing> {
    number: u64,
    pub(crate) part: Part,
    of: PhantomData<S>,
}

impl<S: Sharing> Model for Actor<S> {
    ghost use Rattle.std.specs.Prelude.{◌≡◌};
    ghost use Rattle.shared_board.specs.Calling.{Calling, calling};

    ghost Value = { Calling };

    ghost view = { λ a. calling a.number a.part.row.1 };

    ghost invariant = { λ a. (a.part.name ≡ S.name) × (a.part.row.0 ≡ a.number) };
}

impl<S: Sharing> Actor<S> {
    /// The actor with a part of the roster, which has its number.
    pub(crate) fn new(number: u64, part: Part) -> Actor<S>
        requires name { part.name ≡ S.name }
        requires row { part.row ≡ row number [] }
        ensures { result ≡ calling number [] }
    {
        Actor {
            number,
            part,
            of: PhantomData,
        }
    }

    /// Its number in the history.
    pub fn number(&self) -> u64
        ensures { result ≡ self.now.number }
    {
        self.number
    }
}
