// Which overlays are mapped at each guest page.
ghost use Rattle.std.specs.Prelude.{◌≡◌, ◌≢◌, ◌==◌, ℕ, ◌<◌, length, replicate, IfOk, slice_index_or};
ghost use Rattle.std.specs.Int.{bit_at};
ghost use Rattle.gpa_space.specs.inside.OverlaysAt.{IsLowest, Marks, IsLeastPage, lesser_page};

use crate::overlay::OverlayWord;
use std::alloc::{AllocError, Global};

/// A word for each guest page: bit i is set iff overlay i is mapped at the page. Where there are
/// words, there are at most 16 overlays.
#[derive(Drop)]
pub(crate) struct OverlaysAt {
    words: Vec<u16>,
}

impl OverlaysAt {
    /// No overlay is mapped at any page.
    pub(crate) fn open(alloc: Global, pages: u8) -> Result<OverlaysAt, AllocError>
        ensures { IfOk result (λ mapped. mapped.words.items ≡ replicate pages 0) }
    {
        let words = vec![in alloc; 0; pages as usize]?;
        Ok(OverlaysAt { words })
    }

    /// The first overlay in the order of visibility that is mapped at a page.
    #[inline]
    pub(crate) fn first(&self, page: usize) -> Option<usize>
        requires { page < length self.now.words.items }
        ensures { IsLowest (slice_index_or self.now.words.items page 0) result }
    {
        let word = self.words[page];
        if word == 0 {
            return None;
        }
        Some(word.trailing_zeros() as usize)
    }

    /// Records that an overlay is mapped at a page or no longer is, if the page is in the space.
    pub(crate) fn mark(&mut self, page: u64, overlay: usize, is_mapped: bool)
        requires { length self.old.words.items ≢ 0 → overlay < 16 }
        ensures { Marks 16 self.old.words.items self.new.words.items page overlay is_mapped }
    {
        if page < self.words.len() as u64 {
            let at = page as usize;
            self.words[at] = with_overlay(self.words[at], overlay, is_mapped);
        }
    }
}

/// The least page from `from` on and below `count` at which a register maps an overlay.
pub(crate) fn least_page(registers: &[u64], from: u64, count: u64) -> Option<u64>
    ensures { IsLeastPage registers.now from count (length registers.now) result }
{
    let mut least = None;
    for register in registers {
        least = lesser_page(least, OverlayWord::new(*register), from, count);
    }
    least
}

/// The lesser of a page and of that of one more overlay, if it is mapped there.
fn lesser_page(least: Option<u64>, word: OverlayWord, from: u64, count: u64) -> Option<u64>
    ensures { result ≡ lesser_page from count word.0 least }
{
    let page = word.page();
    if !word.is_enabled() || page < from || page >= count {
        return least;
    }
    match least {
        Some(other) if other <= page => least,
        _ => Some(page),
    }
}

/// A word with the bit of an overlay set or cleared; its other bits stay.
fn with_overlay(word: u16, overlay: usize, is_mapped: bool) -> u16
    requires { overlay < 16 }
    ensures here { (bit_at result overlay == 1) ≡ is_mapped }
    ensures others { (i : ℕ) → i < 16 → i ≢ overlay → bit_at result i ≡ bit_at word i }
{
    let bit = 1 << overlay;
    if is_mapped { word | bit } else { word & !bit }
}
