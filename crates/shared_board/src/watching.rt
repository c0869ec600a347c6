// Which words a watched board publishes.
ghost use Rattle.std.specs.Prelude.{[]};
ghost use Rattle.atomic_table.specs.Seated.{TableId};

use crate::sharing::Sharing;
use std::marker::Brand;

/// Which words a watched board publishes. A program picks them where it calls the function that
/// shares the board, by `Brand`.
pub trait Watching: Sharing {
    ghost table: { TableId };
}

impl Watching for Brand {
    ghost table = { record { words = 0; slots = 0; views_name = 0; atom = 0; block = 0; offset = 0; slot_names = [] } };
}
