// The interrupt state of one processor.
ghost use Rattle.std.specs.Prelude.{◌≡◌, ◌≤◌, None, not, true, false};
ghost use Rattle.std.specs.FinSet as set;
ghost use Rattle.lapic_core.specs.Vectors.{Vectors, greatest};
ghost use Rattle.lapic_core.specs.Apic.{class, empty_apic, next, request, with_task_priority, with_suspension, after_take, after_end, is_no_end_required};
ghost use Rattle.lapic_core.specs.Ranges.{IsApic};
ghost use Rattle.lapic_core.specs.inside.Threshold.{last_of, threshold, to_exceed, above, floor, serving};

use crate::vector_set::VectorSet;
use board_terms::Vector;
use std::marker::Model;

/// The interrupt state of one processor: the request bits (IRR), the in-service bits (ISR), the
/// task priority (TPR), and whether the processor is suspended.
#[derive(Drop)]
pub struct Lapic {
    requested: VectorSet,
    in_service: VectorSet,
    task_priority: u8,
    suspended: bool,
    // Cache: the task priority, or 255 while the processor is suspended, which blocks every vector.
    // So no call needs to test the flag. `set_task_priority` and `set_suspended` update it.
    floor: u8,
    // Cache: the greatest vector in service, so an EOI searches `in_service` only for the vector
    // that it interrupted. `take` and `end` update it.
    highest: Option<Vector>,
    // Cache: the greatest number that the processor priority (PPR) blocks, the last of its class. A
    // vector has to exceed it. It depends on `highest` and `floor`, so `take`, `end` and the
    // writers of `floor` update it.
    threshold: u8,
    // Cache: the greatest requested vector above `threshold`, which is the next vector. Each call
    // that changes `requested` or `threshold` updates it.
    next: Option<Vector>,
}

impl Model for Lapic {
    ghost use Rattle.lapic_core.specs.Apic.{Apic};
    ghost use Rattle.lapic_core.specs.inside.Codes.{apic_code};

    ghost Value = { Apic };

    ghost coded = { apic_code };

    ghost use Rattle.lapic_core.specs.inside.View.{apic_of, LapicInvariant};

    ghost view = { apic_of };

    ghost invariant = { LapicInvariant };
}

impl Lapic {
    /// Nothing requested, nothing in service, task priority 0, not suspended.
    pub fn new() -> Lapic
        ensures { result ≡ empty_apic }
    {
        Lapic {
            requested: VectorSet::new(),
            in_service: VectorSet::new(),
            task_priority: 0,
            suspended: false,
            floor: 0,
            highest: None,
            threshold: 15,
            next: None,
        }
    }

    /// A local APIC with these requested vectors, vectors in service, task priority and suspension.
    /// Takes any combination, including one that no sequence of the other calls leads to.
    pub fn restore(
        requested: VectorSet,
        in_service: VectorSet,
        task_priority: u8,
        suspended: bool,
    ) -> Lapic
        ensures { result ≡ record {
          requested = requested;
          in_service = in_service;
          task_priority = task_priority;
          suspended = suspended;
        } }
    {
        let floor = floor_of(suspended, task_priority);
        let threshold = threshold_of(highest_of(&in_service), floor);
        let next = next_above(&requested, threshold);
        let highest = highest_of(&in_service);
        Lapic {
            requested,
            in_service,
            task_priority,
            suspended,
            floor,
            highest,
            threshold,
            next,
        }
    }

    /// The requested vectors.
    pub fn requested(&self) -> &VectorSet
        ensures { result.now ≡ self.now.requested }
    {
        &self.requested
    }

    /// The vectors in service.
    pub fn in_service(&self) -> &VectorSet
        ensures { result.now ≡ self.now.in_service }
    {
        &self.in_service
    }

    /// Requests a vector, and returns whether its request bit was clear. A request of a requested
    /// vector merges with it.
    #[inline(always)]
    pub fn request(&mut self, vector: Vector) -> bool
        ensures fresh { result ≡ not (set.contains self.old.requested vector) }
        ensures after { self.new ≡ request self.old vector }
    {
        let fresh = !self.requested.contains(vector);
        self.requested.insert(vector);
        // The priority and the other requests are unchanged.
        if vector.number() > to_exceed(self.threshold, self.next) {
            self.next = Some(vector);
        }
        fresh
    }

    /// Whether the request bit of a vector is set.
    pub fn is_requested(&self, vector: Vector) -> bool
        ensures { result ≡ set.contains self.now.requested vector }
    {
        self.requested.contains(vector)
    }

    /// The next vector: the greatest requested vector whose class is above the processor priority.
    /// `None` while the processor is suspended.
    pub fn next(&self) -> Option<Vector>
        ensures { result ≡ next self.now }
    {
        self.next
    }

    /// Takes the next vector, if there is one: clears its request bit, and sets its in-service bit
    /// unless it is auto-EOI (`auto`).
    #[inline(always)]
    pub fn take(&mut self, auto: bool) -> Option<Vector>
        ensures vector { result ≡ next self.old }
        ensures after { self.new ≡ after_take auto self.old }
    {
        let vector = self.next?;
        self.requested.remove(vector);
        if auto {
            self.next = next_above(&self.requested, self.threshold);
        } else {
            self.in_service.insert(vector);
            self.highest = Some(vector);
            // Its class is now the priority, and it was the greatest request.
            self.threshold = last_of_class(vector.number());
            self.next = None;
        }
        Some(vector)
    }

    /// Ends an interrupt (EOI): the greatest vector in service, if there is one, leaves service and
    /// is returned.
    #[inline(always)]
    pub fn end(&mut self) -> Option<Vector>
        ensures vector { result ≡ greatest self.old.in_service }
        ensures after { self.new ≡ after_end self.old }
    {
        let vector = self.highest?;
        self.in_service.remove(vector);
        self.highest = highest_of(&self.in_service);
        self.threshold = threshold_of(self.highest, self.floor);
        self.next = next_above(&self.requested, self.threshold);
        Some(vector)
    }

    /// Whether no EOI is required (TLFS, "EOI Assist"): a vector is in service, and no vector is requested.
    pub fn is_no_end_required(&self) -> bool
        ensures { result ≡ is_no_end_required self.now }
    {
        self.highest.is_some() && self.requested.is_empty()
    }

    /// Writes the task priority register.
    pub fn set_task_priority(&mut self, value: u8)
        ensures { self.new ≡ with_task_priority self.old value }
    {
        self.task_priority = value;
        self.floor = floor_of(self.suspended, value);
        self.threshold = threshold_of(self.highest, self.floor);
        self.next = next_above(&self.requested, self.threshold);
    }

    /// Reads the task priority register.
    pub fn task_priority(&self) -> u8
        ensures { result ≡ self.now.task_priority }
    {
        self.task_priority
    }

    /// Suspends the processor: no vector is next until it resumes. Requests are still recorded.
    pub fn suspend(&mut self)
        ensures { self.new ≡ with_suspension self.old true }
    {
        self.set_suspended(true);
    }

    /// Resumes the processor: requests made during the suspension count again.
    pub fn resume(&mut self)
        ensures { self.new ≡ with_suspension self.old false }
    {
        self.set_suspended(false);
    }

    fn set_suspended(&mut self, suspended: bool)
        ensures { self.new ≡ with_suspension self.old suspended }
    {
        self.suspended = suspended;
        self.floor = floor_of(suspended, self.task_priority);
        self.threshold = threshold_of(self.highest, self.floor);
        self.next = next_above(&self.requested, self.threshold);
    }

    /// What holds for the numbers of every local APIC. Does nothing.
    pub fn facts(&self)
        ensures ranges { IsApic self.now }
    {
        self.requested.facts();
        self.in_service.facts();
        let _priority = self.task_priority;
    }

    /// Whether the processor is suspended.
    pub fn is_suspended(&self) -> bool
        ensures { result ≡ self.now.suspended }
    {
        self.suspended
    }
}

/// What a vector has to exceed to become the next one: the next vector, or the threshold if there
/// is none.
fn to_exceed(threshold: u8, next: Option<Vector>) -> u8
    ensures { result ≡ to_exceed threshold next }
{
    match next {
        Some(vector) => vector.number(),
        None => threshold,
    }
}

/// The greatest number in the class of a number.
fn last_of_class(number: u8) -> u8
    ensures { result ≡ last_of (class number) }
{
    16 * (number / 16) + 15
}

/// The task priority, or 255 for a suspended processor.
fn floor_of(suspended: bool, task_priority: u8) -> u8
    ensures { result ≡ floor suspended task_priority }
{
    if suspended { 255 } else { task_priority }
}

/// The greatest member of a set.
#[inline(always)]
fn highest_of(set: &VectorSet) -> Option<Vector>
    ensures { result ≡ greatest set.now }
{
    set.greatest()
}

/// The greatest number that the processor priority blocks. The priority is the greater of the
/// classes of the floor and of the greatest vector in service.
#[inline(always)]
fn threshold_of(highest: Option<Vector>, floor: u8) -> u8
    ensures { (in_service requested : Vectors) → highest ≡ greatest in_service
        → result ≡ threshold (serving in_service floor requested) }
{
    match highest {
        Some(vector) => last_of_class(floor.max(vector.number())),
        None => last_of_class(floor),
    }
}

/// The greatest requested vector above a number.
#[inline(always)]
fn next_above(requested: &VectorSet, threshold: u8) -> Option<Vector>
    ensures none { 255 ≤ threshold → result ≡ None }
    ensures greatest { result ≡ greatest (above requested.now threshold) }
{
    if requested.is_empty() {
        return None;
    }
    search_above(requested, threshold)
}

/// The same as `next_above`. Out of line, since usually nothing is requested when a vector ends.
#[inline(never)]
fn search_above(requested: &VectorSet, threshold: u8) -> Option<Vector>
    ensures none { 255 ≤ threshold → result ≡ None }
    ensures greatest { result ≡ greatest (above requested.now threshold) }
{
    let vector = requested.search()?;
    if vector.number() > threshold {
        Some(vector)
    } else {
        None
    }
}
