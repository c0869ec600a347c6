// Where a history begins.
ghost use Rattle.synic_board.specs.State.{State, opened};

use std::marker::Brand;

/// The state in which a recorded board was opened or shared. A program picks it where it calls a
/// function with `Brand`, or declares a type with a state of its own.
pub trait Origin: Send + Sync {
    ghost start: { State };
}

impl Origin for Brand {
    ghost start = { opened 1 1 0 };
}
