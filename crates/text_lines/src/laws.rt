//! Theorems about the definitions.
ghost use Rattle.std.specs.Prelude.{◌≡◌, ◌↔◌, ℕ, List, Option, Some, IsTrue};
ghost use Rattle.text_base.specs.Fields.{spaced};
ghost use Rattle.synic_board.specs.declared.event.Event.{Event};
ghost use Rattle.text_lines.specs.Events.{event_fields, IsEvent};
ghost use Rattle.text_lines.specs.Items.{Item, Performs, item_fields, IsItem, Denotes};
ghost use Rattle.text_lines.specs.Reading.{item_at};
ghost use Rattle.text_lines.specs.Sizes.{AreBoardSizes, are_sizes};

/// Parsing a line gives an item iff the line denotes it.
pub fn reading_is_exact()
    ensures { (line : List ℕ) (item : Item) → (item_at line ≡ Some item) ↔ Denotes line item }
{}

/// No two lines denote the same item.
pub fn one_line()
    ensures { (a b : List ℕ) (item : Item) → Denotes a item → Denotes b item → a ≡ b }
{}

/// Each item whose fields are in range has a line.
pub fn some_line()
    ensures { (item : Item) → IsItem item → Denotes (spaced (item_fields item)) item }
{}

/// Parsing the printed line of an event gives that event.
pub fn a_written_event_is_read()
    ensures { (event : Event) → IsEvent event → item_at (spaced (event_fields event)) ≡ Some (Performs event) }
{}

/// A line denotes at most one item.
pub fn one_item()
    ensures { (line : List ℕ) (a b : Item) → Denotes line a → Denotes line b → a ≡ b }
{}

/// The sizes that scripts and traces accept are those that a board can be opened with: a sparse one
/// where no pages are given.
pub fn sizes_are_those_of_open()
    ensures { (processors : ℕ) (pages : Option ℕ)
        → IsTrue (are_sizes processors pages) ↔ AreBoardSizes processors pages }
{}
