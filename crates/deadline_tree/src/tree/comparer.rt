// The only place where deadlines are compared.
ghost use Rattle.std.specs.Prelude.{◌≡◌, ◌+◌, nat_lt};

use counter::Count;

/// Compares deadlines, and counts the comparisons. Only the tree can create one, so code that moves a timer
/// cannot use a second one whose comparisons are not counted.
#[derive(Drop)]
pub(crate) struct Comparer {
    /// Ghost: all comparisons.
    total: Count,
}

impl Comparer {
    /// A comparer that has made no comparison.
    pub(super) fn new() -> Comparer
        ensures { result.total.number ≡ 0 }
    {
        Comparer {
            total: Count::zero(),
        }
    }

    /// Whether `a` precedes `b`. A deadline is compared by one word.
    #[inline(always)]
    pub(crate) fn is_before(&mut self, a: u64, b: u64) -> bool
        ensures value { result ≡ nat_lt a b }
        ensures total { self.new.total.number ≡ self.old.total.number + 1 }
    {
        self.total = Count::after(&self.total);
        a < b
    }
}
