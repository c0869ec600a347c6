// Which overlays may be mapped at a page of a sparse space.
ghost use Rattle.std.specs.Prelude.{◌≡◌, ◌<◌, ◌≤◌, ◌%◌, length, replicate, if◌then◌else◌, position, IfOk, IfSome};
ghost use Rattle.gpa_space.specs.Space.{is_mapped_at};
ghost use Rattle.gpa_space.specs.inside.OverlaysAt.{low_bits, AreOverlaysAt, Marks};
ghost use Rattle.std.specs.Int.{bit_at};
ghost use Rattle.std.specs.Prelude.{◌==◌, ◌≢◌, ℕ};

use crate::overlay::OverlayWord;
use std::alloc::{AllocError, Global};

/// The number of words: one for each value of the low eight bits of a page number.
const WORDS: usize = 256;

/// A word for the pages whose numbers have the same low eight bits: bit i is set iff overlay i is
/// mapped at one of them. A space that is not sparse has no words.
#[derive(Drop)]
pub(crate) struct Candidates {
    words: Vec<u128>,
}

impl Candidates {
    /// No overlay is mapped at any page.
    pub(crate) fn open(alloc: Global, is_sparse: bool) -> Result<Candidates, AllocError>
        ensures { IfOk result (λ candidates. candidates.words.items ≡ replicate (if is_sparse then 256 else 0) 0) }
    {
        let words = vec![in alloc; 0; if is_sparse { WORDS } else { 0 }]?;
        Ok(Candidates { words })
    }

    /// The first overlay in the order of visibility that is mapped at a page, by their registers.
    #[inline]
    pub(crate) fn first(&self, registers: &[u64], page: u64) -> Option<usize>
        requires words { length self.now.words.items ≡ 256 }
        requires marked { AreOverlaysAt low_bits 128 registers.now self.now.words.items }
        requires bound { length registers.now ≤ 128 }
        ensures value { result ≡ position (is_mapped_at page) registers.now }
        ensures bound { IfSome result (λ overlay. overlay < 128) }
    {
        let mut left = self.words[word_of(page)];
        while left != 0 {
            let overlay = left.trailing_zeros() as usize;
            if OverlayWord::new(registers[overlay]).page() == page {
                return Some(overlay);
            }
            left &= !(1 << overlay);
        }
        None
    }

    /// Records that an overlay is mapped at a page or no longer is.
    pub(crate) fn mark(&mut self, page: u64, overlay: usize, is_mapped: bool)
        requires words { length self.old.words.items ≡ 256 }
        requires overlay { overlay < 128 }
        ensures { Marks 128 self.old.words.items self.new.words.items (low_bits page) overlay is_mapped }
    {
        let at = word_of(page);
        self.words[at] = with_overlay(self.words[at], overlay, is_mapped);
    }
}

/// The number of the word of a page.
fn word_of(page: u64) -> usize
    ensures { result ≡ low_bits page }
{
    page as usize % WORDS
}

/// A word with the bit of an overlay set or cleared; its other bits stay.
fn with_overlay(word: u128, overlay: usize, is_mapped: bool) -> u128
    requires { overlay < 128 }
    ensures here { (bit_at result overlay == 1) ≡ is_mapped }
    ensures others { (i : ℕ) → i < 128 → i ≢ overlay → bit_at result i ≡ bit_at word i }
{
    let bit = 1 << overlay;
    if is_mapped { word | bit } else { word & !bit }
}
