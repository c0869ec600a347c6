// The timers that have deadlines, with the earliest first.
ghost use Rattle.std.specs.Prelude.{◌≡◌, ◌+◌, ◌*◌, ◌≤◌, None, Some, IfOk, length, slice_set};
ghost use Rattle.board_terms.specs.Dues.{number_of, due_of, least, later_than};
ghost use Rattle.deadline_tree.specs.Deadlines.{no_dues, without_processor, has_due, levels};

pub(crate) mod comparer;

use crate::table::Table;
use crate::tree::comparer::Comparer;
use board_terms::{Moment, TimerId, Vp};
use std::alloc::{AllocError, Global};
use std::marker::Model;

/// The deadlines of the timers of some processors (TLFS, "Synthetic Timers"). The contract also shows how
/// many comparisons `set`, `clear` and `clear_processor` have made. A timer of any other processor has
/// no deadline, and is given none.
#[derive(Drop)]
pub struct DeadlineTree {
    table: Table,
    /// Makes and counts the comparisons of entries.
    comparer: Comparer,
}

impl Model for DeadlineTree {
    ghost use Rattle.deadline_tree.specs.Deadlines.{TreeModel};
    ghost use Rattle.deadline_tree.specs.inside.Codes.{tree_code};

    ghost Value = { TreeModel };

    ghost coded = { tree_code };

    ghost use Rattle.deadline_tree.specs.inside.View.{tree_of, TreeInvariant};

    ghost view = { tree_of };

    ghost invariant = { TreeInvariant };
}

impl DeadlineTree {
    /// A tree for the timers of that many processors, 1 to 64, without deadlines. The only call here that
    /// allocates.
    pub fn open(alloc: Global, processors: u8) -> Result<DeadlineTree, AllocError>
        requires some { 1 ≤ processors }
        requires bound { processors ≤ 64 }
        ensures dues { IfOk result (λ tree. tree.dues ≡ no_dues processors) }
        ensures compared { IfOk result (λ tree. tree.compared ≡ 0) }
    {
        Ok(DeadlineTree {
            table: Table::open(alloc, processors)?,
            comparer: Comparer::new(),
        })
    }

    /// Sets the deadline of a timer, and replaces an earlier one, with at most one comparison at each
    /// level.
    #[inline(always)]
    pub fn set(&mut self, timer: TimerId, due: u128)
        ensures set { self.new.dues ≡ slice_set self.old.dues (number_of timer) (Some due) }
        ensures compared { self.new.compared ≤ self.old.compared + levels (length self.old.dues) }
    {
        let number = timer.number();
        if (number as usize) < self.table.count() {
            self.table.set(number, due, &mut self.comparer);
        }
    }

    /// Removes the deadline of a timer, if it has one, with at most one comparison at each level.
    pub fn clear(&mut self, timer: TimerId)
        ensures set { self.new.dues ≡ slice_set self.old.dues (number_of timer) None }
        ensures compared { self.new.compared ≤ self.old.compared + levels (length self.old.dues) }
    {
        let number = timer.number();
        if (number as usize) < self.table.count() && self.table.is_set(number) {
            self.table.clear(number, &mut self.comparer);
        }
    }

    /// Removes the deadlines of a processor's timers, with at most four comparisons at each level.
    pub fn clear_processor(&mut self, vp: Vp)
        ensures set { self.new.dues ≡ without_processor self.old.dues vp }
        ensures compared { self.new.compared ≤ self.old.compared + 4 * levels (length self.old.dues) }
    {
        self.clear(TimerId::new(vp, 0).unwrap());
        self.clear(TimerId::new(vp, 1).unwrap());
        self.clear(TimerId::new(vp, 2).unwrap());
        self.clear(TimerId::new(vp, 3).unwrap());
    }

    /// The earliest timer and its deadline: the least by deadline, processor and index.
    pub fn least(&self) -> Option<(u128, TimerId)>
        ensures { result ≡ least self.now.dues }
    {
        self.table.least()
    }

    /// The earliest of the timers whose deadlines are later than `moment`, and its deadline. Looks at
    /// all timers.
    pub fn least_after(&self, moment: u128) -> Option<(u128, TimerId)>
        ensures { result ≡ least (later_than moment self.now.dues) }
    {
        self.table.least_after(moment)
    }

    /// Whether a processor has a timer that is due. Looks at one node, or also at four timers if the
    /// earliest of them has a late deadline.
    pub fn has_due(&self, vp: Vp, moment: Moment) -> bool
        ensures { result ≡ has_due self.now.dues moment vp }
    {
        let processor = vp.number();
        4 * (processor as usize) < self.table.count() && self.table.has_due(processor, moment)
    }

    /// The deadline of a timer, if it has one.
    pub fn due_of(&self, timer: TimerId) -> Option<u128>
        ensures { result ≡ due_of self.now.dues timer }
    {
        self.table.due(timer.number())
    }
}
