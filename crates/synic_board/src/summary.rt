// The cached summary of the state.
ghost use Rattle.std.specs.Prelude.{◌≡◌, ◌≢◌, ℕ, ◌+◌, ◌*◌, ◌<◌, ◌≤◌, replicate, false, None, IfOk, slice_index_or};
ghost use Rattle.std.specs.FinSet as set;
ghost use Rattle.std.specs.Int.{bit_at};
ghost use Rattle.board_terms.specs.declared.pages.Owner.TheVariants.{Guest, Nothing};
ghost use Rattle.board_terms.specs.Sources.{source_number};
ghost use Rattle.synic_board.specs.Summaries.{stored_summary, HasQueued};
ghost use Rattle.synic_board.specs.inside.Waiting.{IsFirstWaiting};

use crate::processors::vec_per_processor;
use board_terms::{Owner, Sint, TimerId, Vector, Vp, source_number};
use counter::Count;
use lapic_core::VectorSet;
use std::alloc::{AllocError, Global};
use std::marker::Model;

/// One value of the summary, with its index.
#[derive(Drop)]
pub(crate) enum Entry {
    /// The next vector of a processor.
    Next(Vp, Option<Vector>),
    /// The auto-EOI vectors of a processor.
    Auto(Vp, VectorSet),
    /// Which page a guest sees at a page number.
    Owns(u8, Owner),
    /// How many messages are queued for a source of a processor, after one was appended.
    Appended(Vp, Sint, u16),
    /// How many messages are queued for a source of a processor, after some were taken away.
    Reduced(Vp, Sint, u16),
    /// The earliest timer, with its deadline.
    Earliest(Option<(u128, TimerId)>),
}

/// Caches of what a hypervisor queries after each event: the next vector and the auto-EOI vectors
/// of each processor, which page a guest sees at each page number, how many messages are queued for
/// each source, and the earliest timer.
#[derive(Drop)]
pub struct Summary {
    nexts: Vec<Option<Vector>>,
    autos: Vec<VectorSet>,
    owners: Vec<Owner>,
    queued: Vec<u16>,
    // for each processor a word whose bit i is set iff source i has a queued message, so that EOM
    // visits no other source; `write` updates it with the count
    waiting: [u16; 64],
    // the earliest timer, if any has a deadline, and that deadline
    earliest: Option<TimerId>,
    due: u128,
    // ghost: how often a value was written
    writes: Count,
}

impl Model for Summary {
    ghost use Rattle.synic_board.specs.Summaries.{StoredSummary, stored_summary};
    ghost use Rattle.synic_board.specs.inside.Codes.{stored_summary_code};
    ghost use Rattle.std.specs.Option.{option_map};

    ghost Value = { StoredSummary };

    ghost coded = { stored_summary_code };

    ghost view = { λ a. stored_summary (record {
      nexts = a.nexts.items;
      autos = a.autos.items;
      owners = a.owners.items;
      queued = a.queued.items;
      earliest = option_map (λ t. (a.due, t)) a.earliest;
    }) a.writes.number };

    ghost use Rattle.synic_board.specs.inside.Waiting.{AreWaiting};

    ghost invariant = { λ a. AreWaiting a.queued.items a.waiting };
}

/// The words of processors without queued messages.
fn nothing_waits() -> [u16; 64]
    ensures { result ≡ replicate 64 0 }
{
    [0; 64]
}

impl Summary {
    ghost use Rattle.synic_board.specs.inside.Entries.{HasEntry, with_entry};

    /// The summary of a newly opened board.
    pub(crate) fn open(alloc: Global, processors: u8, pages: u8) -> Result<Summary, AllocError>
        ensures nexts { IfOk result (λ s. s.values.nexts ≡ replicate processors None) }
        ensures autos { IfOk result (λ s. s.values.autos ≡ replicate processors set.empty) }
        ensures owners { IfOk result (λ s. s.values.owners ≡ replicate pages Guest) }
        ensures queued { IfOk result (λ s. s.values.queued ≡ replicate (16 * processors) 0) }
        ensures earliest { IfOk result (λ s. s.values.earliest ≡ None) }
        ensures writes { IfOk result (λ s. s.writes ≡ 0) }
    {
        let nexts = vec![in alloc; None; processors as usize]?;
        let owners = vec![in alloc; Owner::Guest; pages as usize]?;
        let queued = vec![in alloc; 0; 16 * processors as usize]?;
        let autos = vec_per_processor(alloc, processors, VectorSet::new)?;
        let waiting = nothing_waits();
        Ok(Summary {
            nexts,
            autos,
            owners,
            queued,
            waiting,
            earliest: None,
            due: 0,
            writes: Count::zero(),
        })
    }

    /// Writes one value. The kind is constant at each caller, so the match compiles to one arm.
    #[inline(always)]
    pub(crate) fn write(&mut self, entry: Entry)
        requires { HasEntry self.old.values entry }
        ensures { self.new ≡ stored_summary (with_entry self.old.values entry) (self.old.writes + 1) }
    {
        // README counter: begin
        self.writes = Count::after(&self.writes);
        // README counter: end
        match entry {
            Entry::Next(vp, next) => self.nexts[vp.number() as usize] = next,
            Entry::Auto(vp, auto) => self.autos[vp.number() as usize] = auto,
            Entry::Owns(page, owner) => self.owners[page as usize] = owner,
            Entry::Appended(vp, sint, count) => {
                let at = vp.number() as usize;
                self.queued[source_number(vp, sint)] = count;
                self.waiting[at] = with_source(self.waiting[at], sint);
            }
            Entry::Reduced(vp, sint, count) => {
                let at = vp.number() as usize;
                self.queued[source_number(vp, sint)] = count;
                // If messages are left, there were some before, and the bit is set.
                if count == 0 {
                    self.waiting[at] = without_source(self.waiting[at], sint);
                }
            }
            Entry::Earliest(earliest) => match earliest {
                Some(first) => {
                    self.due = first.0;
                    self.earliest = Some(first.1);
                }
                None => self.earliest = None,
            },
        }
    }

    /// The first source of a processor, from a number on, with a queued message.
    #[inline]
    pub(crate) fn waiting_from(&self, vp: Vp, from: u8) -> Option<Sint>
        requires { from ≤ 16 }
        ensures { IsFirstWaiting self.now.values.queued vp from result }
    {
        let word = self.waiting[vp.number() as usize];
        let left = u32::from(word) >> from;
        if left == 0 {
            return None;
        }
        Sint::new(from + left.trailing_zeros() as u8)
    }

    /// Whether a message is queued for some source of a processor; `false` if the processor is not on
    /// the board.
    #[inline]
    pub fn has_queued(&self, vp: Vp) -> bool
        ensures { HasQueued self.now.values.queued vp result }
    {
        self.waiting_from(vp, 0).is_some()
    }

    /// The next vector of a processor; `None` if it has none, or is not on the board.
    pub fn next(&self, vp: Vp) -> Option<Vector>
        ensures { result ≡ slice_index_or self.now.values.nexts vp None }
    {
        match self.nexts.get(vp.number() as usize) {
            Some(next) => *next,
            None => None,
        }
    }

    /// Whether a vector is auto-EOI on a processor; `false` if the processor is not on the board.
    pub fn is_auto(&self, vp: Vp, vector: Vector) -> bool
        ensures { result ≡ set.contains (slice_index_or self.now.values.autos vp set.empty) vector }
    {
        match self.autos.get(vp.number() as usize) {
            Some(auto) => auto.contains(vector),
            None => false,
        }
    }

    /// Which page a guest sees at a page number; `Nothing` if there is no such page.
    pub fn owner(&self, page: u64) -> Owner
        ensures { result ≡ slice_index_or self.now.values.owners page Nothing }
    {
        match self.owners.get(page as usize) {
            Some(owner) => *owner,
            None => Owner::Nothing,
        }
    }

    /// The earliest timer and its deadline: the least by deadline, processor and index. `None` if
    /// no timer has a deadline.
    pub fn earliest(&self) -> Option<(u128, TimerId)>
        ensures { result ≡ self.now.values.earliest }
    {
        match self.earliest {
            Some(timer) => Some((self.due, timer)),
            None => None,
        }
    }

    /// How many messages are queued for a source of a processor; 0 if the processor is not on the
    /// board.
    pub fn queued(&self, vp: Vp, sint: Sint) -> u16
        ensures { result ≡ slice_index_or self.now.values.queued (source_number vp sint) 0 }
    {
        match self.queued.get(source_number(vp, sint)) {
            Some(count) => *count,
            None => 0,
        }
    }
}

/// A word with the bit of a source set; its other bits stay.
fn with_source(word: u16, sint: Sint) -> u16
    ensures here { bit_at result sint ≡ 1 }
    ensures others { (i : ℕ) → i < 16 → i ≢ sint → bit_at result i ≡ bit_at word i }
{
    word | 1 << sint.number()
}

/// A word with the bit of a source cleared; its other bits stay.
fn without_source(word: u16, sint: Sint) -> u16
    ensures here { bit_at result sint ≡ 0 }
    ensures others { (i : ℕ) → i < 16 → i ≢ sint → bit_at result i ≡ bit_at word i }
{
    word & !(1 << sint.number())
}
