// Which shared board a value belongs to.
ghost use Rattle.std.specs.Prelude.{ℕ};
ghost use Rattle.synic_board.specs.State.{State, opened};

use std::marker::Brand;

/// Which shared board a value belongs to, and the state in which that board was shared. A program
/// picks both where it calls the function that shares the board, by `Brand`.
pub trait Sharing {
    ghost name: { ℕ };

    ghost start: { State };
}

impl Sharing for Brand {
    ghost name = { 0 };

    ghost start = { opened 1 1 0 };
}
