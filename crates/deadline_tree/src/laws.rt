// Theorems about the definitions.
ghost use Rattle.board_terms.specs.Dues.{Dues};
ghost use Rattle.deadline_tree.specs.Laws.{FindsLeast};

/// The earliest timer is the least by deadline, processor and index; there is none iff no timer has
/// a deadline.
pub fn the_first_is_the_least()
    ensures { (m : Dues) → FindsLeast m }
{}
