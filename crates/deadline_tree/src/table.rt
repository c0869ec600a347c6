// The deadlines of the timers, and a tree of the timers that come first.
ghost use Rattle.std.specs.Prelude.{◌≡◌, ◌≢◌, ◌+◌, ◌*◌, ◌/◌, ◌<◌, ◌≤◌, IsTrue, None, Some, IfOk, length, min, nat_lt, slice_index_or, slice_set};
ghost use Rattle.std.specs.Option.{option_map, option_map_or};
ghost use Rattle.board_terms.specs.Dues.{timer_of, least, earlier, if_later, later_than};
ghost use Rattle.deadline_tree.specs.Deadlines.{no_dues, is_due_by, has_due, levels};
ghost use Rattle.deadline_tree.specs.inside.Table.{tree_in, count, node, word_of, late_due, due_from, late, late_word, never, dues, IsWord, IsSound};
ghost use Rattle.deadline_tree.specs.inside.Climbs.{IsClimbing};

use crate::tree::comparer::Comparer;
use board_terms::TimerId;
use std::alloc::{AllocError, Global};

/// Deadlines before this one have a word of their own.
const LATE: u128 = 1 << 55;

/// The word of a timer with a late deadline.
const LATE_WORD: u64 = 1 << 63;

/// The word of a timer without a deadline.
const NEVER: u64 = u64::MAX;

/// The deadlines of the timers, by number.
#[derive(Drop)]
pub(crate) struct Table {
    /// The word of a timer is 256 times its deadline plus its number, so the lesser of two words is that
    /// of the timer that comes first. For each node of a tree, this is the least word below it. Node 1 is
    /// the root, and node i has the children 2 * i and 2 * i + 1. Of n timers, the leaf of number k is
    /// node n + k, so any n will do: some leaves may be a level higher than others.
    nodes: Vec<u64>,
    /// The deadline of each timer that has a late one.
    lates: Vec<u128>,
}

/// The earlier of a timer and the earliest so far. On a tie, the earliest so far.
fn earlier(first: Option<(u128, u8)>, due: u128, number: u8) -> (u128, u8)
    ensures { result ≡ earlier first (due, number) }
{
    match first {
        Some(first) if first.0 <= due => first,
        _ => (due, number),
    }
}

/// Compares the word of a node and that of the other child of its parent. The parent gets the lesser
/// one, which is returned.
#[inline(always)]
fn compare(nodes: &mut [u64], child: usize, first: u64, comparer: &mut Comparer) -> u64
    requires above { 1 < child }
    requires bound { child / 2 * 2 + 1 < length nodes.old }
    requires first { first ≡ slice_index_or nodes.old child 0 }
    ensures lesser { result ≡ min (slice_index_or nodes.old (2 * (child / 2)) 0)
        (slice_index_or nodes.old (2 * (child / 2) + 1) 0) }
    ensures written { nodes.new ≡ slice_set nodes.old (child / 2) result }
    ensures total { comparer.new.total.number ≡ comparer.old.total.number + 1 }
{
    let other = nodes[child ^ 1];
    let least = if comparer.is_before(other, first) {
        other
    } else {
        first
    };
    nodes[child / 2] = least;
    least
}

impl Table {
    /// A table without deadlines.
    pub(crate) fn open(alloc: Global, processors: u8) -> Result<Table, AllocError>
        requires some { 1 ≤ processors }
        requires bound { processors ≤ 64 }
        ensures sound { IfOk result (λ table. IsSound (tree_in table)) }
        ensures dues { IfOk result (λ table. dues (tree_in table) ≡ no_dues processors) }
    {
        let timers = 4 * processors as usize;
        let nodes = vec![in alloc; NEVER; 2 * timers]?;
        let lates = vec![in alloc; 0; timers]?;
        Ok(Table { nodes, lates })
    }

    /// How many timers there are.
    #[inline]
    pub(crate) fn count(&self) -> usize
        ensures { result ≡ count (tree_in self.now) }
    {
        self.lates.len()
    }

    /// The leaf of a timer.
    #[inline]
    fn leaf(&self, number: u8) -> usize
        requires sound { IsSound (tree_in self.now) }
        requires number { number < count (tree_in self.now) }
        ensures { result ≡ count (tree_in self.now) + number }
    {
        self.lates.len() + number as usize
    }

    /// The word of a timer.
    #[inline]
    fn word(&self, number: u8) -> u64
        requires sound { IsSound (tree_in self.now) }
        requires number { number < count (tree_in self.now) }
        ensures { result ≡ word_of (tree_in self.now) number }
    {
        self.nodes[self.leaf(number)]
    }

    /// Whether a timer has a deadline.
    #[inline]
    pub(crate) fn is_set(&self, number: u8) -> bool
        requires sound { IsSound (tree_in self.now) }
        requires number { number < count (tree_in self.now) }
        ensures { result ≡ nat_lt (word_of (tree_in self.now) number) never }
    {
        self.word(number) < NEVER
    }

    /// The deadline of a timer, if there is this timer and it has one.
    #[inline]
    pub(crate) fn due(&self, number: u8) -> Option<u128>
        requires { IsSound (tree_in self.now) }
        ensures { result ≡ slice_index_or (dues (tree_in self.now)) number None }
    {
        if number as usize >= self.count() {
            return None;
        }
        let word = self.word(number);
        if word < LATE_WORD {
            Some((word / 256) as u128)
        } else if word == LATE_WORD {
            Some(self.lates[number as usize])
        } else {
            None
        }
    }

    /// Whether a timer is due.
    fn is_due(&self, number: u8, moment: u64) -> bool
        requires { IsSound (tree_in self.now) }
        ensures { result ≡ is_due_by (dues (tree_in self.now)) moment number }
    {
        match self.due(number) {
            Some(due) => due <= moment as u128,
            None => false,
        }
    }

    /// Whether a processor has a timer that is due, by a look at each of its timers.
    #[cold]
    #[inline(never)]
    fn finds_due(&self, processor: u8, moment: u64) -> bool
        requires sound { IsSound (tree_in self.now) }
        requires bound { processor < 64 }
        ensures { result ≡ has_due (dues (tree_in self.now)) moment processor }
    {
        let first = 4 * processor;
        self.is_due(first, moment)
            || self.is_due(first + 1, moment)
            || self.is_due(first + 2, moment)
            || self.is_due(first + 3, moment)
    }

    /// Whether a processor has a timer that is due. The four leaves of a processor have one node two levels
    /// up.
    pub(crate) fn has_due(&self, processor: u8, moment: u64) -> bool
        requires sound { IsSound (tree_in self.now) }
        requires processor { 4 * processor < count (tree_in self.now) }
        ensures { result ≡ has_due (dues (tree_in self.now)) moment processor }
    {
        let word = self.nodes[self.count() / 4 + processor as usize];
        if word < LATE_WORD {
            word / 256 <= moment
        } else {
            word < NEVER && self.finds_due(processor, moment)
        }
    }

    /// Updates the nodes above a leaf, each by a comparison. Out of line: in the loop of a caller LLVM makes
    /// branches of the comparisons, which are mispredicted. Two levels at a time save instructions.
    #[inline(never)]
    fn climb(&mut self, leaf: usize, word: u64, comparer: &mut Comparer)
        requires above { count (tree_in self.old) ≤ leaf }
        requires bound { leaf < 2 * count (tree_in self.old) }
        requires climbing { IsClimbing (tree_in self.old) leaf }
        requires word { word ≡ node (tree_in self.old) leaf }
        ensures sound { IsSound (tree_in self.new) }
        ensures dues { dues (tree_in self.new) ≡ dues (tree_in self.old) }
        ensures compared { comparer.new.total.number ≤ comparer.old.total.number + levels (count (tree_in self.old)) }
    {
        // The slice is in a register, and the vector is in memory.
        let nodes = self.nodes.as_mut_slice();
        let mut node = leaf;
        let mut first = word;
        while node > 3 {
            first = compare(nodes, node, first, comparer);
            first = compare(nodes, node / 2, first, comparer);
            node /= 4;
        }
        if node > 1 {
            let _ = compare(nodes, node, first, comparer);
        }
    }

    /// Writes the word of a timer.
    #[inline(always)]
    fn write(&mut self, number: u8, word: u64, comparer: &mut Comparer)
        requires sound { IsSound (tree_in self.old) }
        requires number { number < count (tree_in self.old) }
        requires word { IsWord word (late_due (tree_in self.old) number) number }
        ensures sound { IsSound (tree_in self.new) }
        ensures dues { dues (tree_in self.new)
            ≡ slice_set (dues (tree_in self.old)) number (due_from word (late_due (tree_in self.old) number)) }
        ensures compared { comparer.new.total.number ≤ comparer.old.total.number + levels (count (tree_in self.old)) }
    {
        let leaf = self.leaf(number);
        self.nodes[leaf] = word;
        self.climb(leaf, word, comparer);
    }

    /// Sets the deadline of a timer.
    #[inline(always)]
    pub(crate) fn set(&mut self, number: u8, due: u128, comparer: &mut Comparer)
        requires sound { IsSound (tree_in self.old) }
        requires number { number < count (tree_in self.old) }
        ensures sound { IsSound (tree_in self.new) }
        ensures set { dues (tree_in self.new) ≡ slice_set (dues (tree_in self.old)) number (Some due) }
        ensures compared { comparer.new.total.number ≤ comparer.old.total.number + levels (count (tree_in self.old)) }
    {
        if due < LATE {
            self.write(number, due as u64 * 256 + number as u64, comparer);
        } else {
            self.set_late(number, due, comparer);
        }
    }

    /// Sets a late deadline.
    #[cold]
    #[inline(never)]
    fn set_late(&mut self, number: u8, due: u128, comparer: &mut Comparer)
        requires sound { IsSound (tree_in self.old) }
        requires number { number < count (tree_in self.old) }
        requires late { late ≤ due }
        ensures sound { IsSound (tree_in self.new) }
        ensures set { dues (tree_in self.new) ≡ slice_set (dues (tree_in self.old)) number (Some due) }
        ensures compared { comparer.new.total.number ≤ comparer.old.total.number + levels (count (tree_in self.old)) }
    {
        self.lates[number as usize] = due;
        self.write(number, LATE_WORD, comparer);
    }

    /// Removes the deadline of a timer.
    #[inline(never)]
    pub(crate) fn clear(&mut self, number: u8, comparer: &mut Comparer)
        requires sound { IsSound (tree_in self.old) }
        requires number { number < count (tree_in self.old) }
        ensures sound { IsSound (tree_in self.new) }
        ensures set { dues (tree_in self.new) ≡ slice_set (dues (tree_in self.old)) number None }
        ensures compared { comparer.new.total.number ≤ comparer.old.total.number + levels (count (tree_in self.old)) }
    {
        self.write(number, NEVER, comparer);
    }

    /// The earliest timer and its deadline.
    #[inline]
    pub(crate) fn least(&self) -> Option<(u128, TimerId)>
        requires { IsSound (tree_in self.now) }
        ensures { result ≡ least (dues (tree_in self.now)) }
    {
        let word = self.nodes[1];
        if word < LATE_WORD {
            let timer = TimerId::from_number((word % 256) as u8).unwrap();
            return Some(((word / 256) as u128, timer));
        }
        match self.first_late() {
            Some(number) => match self.due(number) {
                Some(due) => Some((due, TimerId::from_number(number).unwrap())),
                None => None,
            },
            None => None,
        }
    }

    /// The number of the earliest timer, if all deadlines are late. Out of line, with a result that needs no
    /// memory.
    #[cold]
    #[inline(never)]
    fn first_late(&self) -> Option<u8>
        requires sound { IsSound (tree_in self.now) }
        requires late { late_word ≤ node (tree_in self.now) 1 }
        ensures { least (dues (tree_in self.now))
            ≡ option_map_or (λ n. option_map (λ d. (d, timer_of n)) (slice_index_or (dues (tree_in self.now)) n None))
            result None }
    {
        if self.nodes[1] == NEVER {
            return None;
        }
        // None of the deadlines is 0.
        match self.least_after(0) {
            Some(first) => Some(first.1.number()),
            None => None,
        }
    }

    /// The earliest of the timers whose deadlines are later than `moment`, and its deadline.
    pub(crate) fn least_after(&self, moment: u128) -> Option<(u128, TimerId)>
        requires { IsSound (tree_in self.now) }
        ensures { result ≡ least (later_than moment (dues (tree_in self.now))) }
    {
        let mut first = None;
        // 256 timers are more than a u8 counts
        for at in 0..self.count() {
            let number = at as u8;
            if let Some(due) = self.later(number, moment) {
                first = Some(earlier(first, due, number));
            }
        }
        match first {
            Some((due, number)) => Some((due, TimerId::from_number(number).unwrap())),
            None => None,
        }
    }

    /// The deadline of a timer, if it is later than `moment`.
    fn later(&self, number: u8, moment: u128) -> Option<u128>
        requires { IsSound (tree_in self.now) }
        ensures { result ≡ if_later moment (slice_index_or (dues (tree_in self.now)) number None) }
    {
        match self.due(number) {
            Some(due) if due > moment => Some(due),
            _ => None,
        }
    }
}
