// The parts of all actors.
ghost use Rattle.std.specs.Prelude.{◌≡◌, List, [], ◌∷◌, ◌++◌, ℕ};
ghost use base.Fml.{fex};
ghost use base.Share.{three_quarters};
ghost use Rattle.atomic_table.specs.Seated.{roster, seen};
ghost use Rattle.ghost_history.specs.Rows.{Row, row, answer, IsExtended, IsAmong};
ghost use Rattle.ghost_history.specs.inside.Codes.{row_coded, rows_coded};

use board_terms::Notices;
use std::marker::{Model, PhantomData};
use std::snapshot::Snapshot;
use synic_board::{Event, Reply};

/// A row for each actor: its number, and what its events were answered. Only an actor's own part
/// changes its row, so a roster under a lock and the parts outside agree. It takes no bytes.
pub struct Roster {
    marker: PhantomData<()>,
    pub ghost name: { ℕ },
    pub ghost rows: { List Row } by { rows_coded },
}

impl Model for Roster {
    ghost also_owns = { λ r. roster row_coded.code r.name 0 r.rows };
}

/// The row of one actor, which the actor holds. It takes no bytes.
pub struct Part {
    marker: PhantomData<()>,
    pub ghost name: { ℕ },
    pub ghost row: { Row } by { row_coded },
}

impl Model for Part {
    ghost also_owns = { λ p. fex ℕ (λ k. seen row_coded.code p.name k three_quarters p.row) };
}

/// An event with its reply and its notices. It takes no bytes.
#[derive(Drop)]
pub struct Answered {
    pub event: Snapshot<Event>,
    pub reply: Snapshot<Reply>,
    pub notices: Snapshot<Notices>,
}

impl Roster {
    /// A roster without rows.
    pub fn new() -> Roster
        ensures { result.rows ≡ [] }
    {
        Roster {
            marker: PhantomData,
        }
    }

    /// Adds the row of an actor with this number, without answers.
    pub fn enroll(&mut self, number: u64) -> Part
        ensures names { (self.new.name ≡ self.old.name) × (result.name ≡ self.old.name) }
        ensures rows { self.new.rows ≡ self.old.rows ++ row number [] ∷ [] }
        ensures part { result.row ≡ row number [] }
    {
        let _ = number;
        Part {
            marker: PhantomData,
        }
    }

    /// Appends an answer to the row of a part. The roster has that row, and changes no other.
    pub fn extend(&mut self, part: &mut Part, one: &Answered)
        requires { part.old.name ≡ self.old.name }
        ensures names { (self.new.name ≡ self.old.name) × (part.new.name ≡ self.old.name) }
        ensures rows { IsExtended self.old.rows part.old.row
            (answer one.now.event.value one.now.reply.value one.now.notices.value) self.new.rows part.new.row }
    {
        let _ = one;
    }

    /// Finds the row of a part, which the roster has. Changes nothing.
    pub fn find(&mut self, part: &mut Part)
        requires { part.old.name ≡ self.old.name }
        ensures names { (self.new.name ≡ self.old.name) × (part.new.name ≡ self.old.name) }
        ensures rows { (self.new.rows ≡ self.old.rows) × (part.new.row ≡ part.old.row)
            × IsAmong self.old.rows part.old.row }
    {}
}

impl Drop for Roster {
    fn drop(self) {
        let Self { marker: _ } = self;
    }
}

impl Drop for Part {
    fn drop(self) {
        let Self { marker: _ } = self;
    }
}

// They have no bytes, and their ghost values do not depend on the thread.
unsafe impl Send for Roster {}

unsafe impl Send for Part {}
