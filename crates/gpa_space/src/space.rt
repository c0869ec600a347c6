// Guest pages, and the overlay pages that may obscure them.
ghost use Rattle.std.specs.Prelude.{[], ◌≡◌, ◌≢◌, ◌+◌, ◌<◌, ◌≤◌, ◌*◌, ◌/◌, ◌^◌, length, slice_index_or, not, IfOk, IfErr, OnOk, IfSome, None, Some, Ok, Err, replicate, slice_get};
ghost use Rattle.std.specs.List.{All};
ghost use Rattle.std.specs.Option.{option_copied, option_map_or};
ghost use Rattle.board_terms.specs.declared.pages.Kind.TheVariants as kind;
ghost use Rattle.board_terms.specs.Ranges.{AreBytes};
ghost use Rattle.gpa_space.specs.Page.{zero_page, overwritten, message_bytes};
ghost use Rattle.gpa_space.specs.Space.{opened, processors_of, overlay_of, with_register, visible, overlay_owner, is_sparse, page_count, owner_of, IsNextOverlay, refusal_of, loaded, store_answer, after_store, own_page, with_own_page, with_guest_page, after_slot, is_pending, after_pending, is_flag_set, after_flag, after_clearing};

use crate::candidates::Candidates;
use crate::mapped::{OverlaysAt, least_page};
use crate::overlay::OverlayWord;
use crate::page::{HEADER_SIZE, MESSAGE_FLAGS, Page, SIZE, SLOT_SIZE};
use board_terms::{Bytes8, Kind, Owner, Refusal, Sint, Vp};
use std::alloc::{AllocError, Global};
use std::marker::Model;

/// The number of pages that an address of 64 bits reaches.
const ALL_PAGES: u64 = 1 << 52;

/// Guest pages, shared by all processors, and two overlay pages for each processor: the message
/// page (SIM) and the event flags page (SIEF). An overlay page has bytes of its own, which stay
/// while it is disabled, obscured or moved. A sparse space holds only the overlay pages: the guest
/// pages, 2^52 of them, are in the caller's memory. The calls with a processor require that it is
/// on the board.
#[derive(Drop)]
pub struct Space {
    pages: Vec<Page>,
    // The registers and the own pages of the overlays, in the order of visibility.
    registers: Vec<u64>,
    own: Vec<Page>,
    // Caches: the overlays at each guest page that the space holds, and, if it holds none, at the
    // pages whose numbers have the same low bits. Only `set_overlay` writes registers, and it updates
    // the one that is in use.
    mapped: OverlaysAt,
    candidates: Candidates,
}

impl Model for Space {
    ghost use Rattle.gpa_space.specs.Space.{Space};
    ghost use Rattle.gpa_space.specs.inside.Codes.{space_code};

    ghost Value = { Space };

    ghost coded = { space_code };

    ghost use Rattle.gpa_space.specs.inside.View.{space_of, SpaceInvariant};

    ghost view = { space_of };

    ghost invariant = { SpaceInvariant };
}

impl Space {
    /// A space for 1 to 8 processors with 1 to 64 guest pages, or for 1 to 64 with 0: then it is
    /// sparse. All bytes are zero and all overlays are disabled. The only call here that allocates.
    pub fn open(alloc: Global, processors: u8, pages: u8) -> Result<Space, AllocError>
        requires some_processor { 1 ≤ processors }
        requires processor_bound { processors ≤ 64 }
        requires page_bound { pages ≤ 64 }
        requires dense { pages ≢ 0 → processors ≤ 8 }
        ensures { IfOk result (λ space. space ≡ opened processors pages) }
    {
        let overlays = 2 * processors as usize;
        let registers = vec![in alloc; 0; overlays]?;
        let own = zero_pages(alloc, overlays)?;
        let mapped = OverlaysAt::open(alloc, pages)?;
        let candidates = Candidates::open(alloc, pages == 0)?;
        let pages = zero_pages(alloc, pages as usize)?;
        Ok(Space {
            pages,
            registers,
            own,
            mapped,
            candidates,
        })
    }

    /// Writes the register of an overlay, SIMP or SIEFP: bit 0 enables it, and bits 63:12 are the
    /// page number at which it is mapped.
    #[inline(always)]
    pub fn set_overlay(&mut self, vp: Vp, kind: Kind, register: u64)
        requires { vp < processors_of self.old }
        ensures { self.new ≡ with_register self.old vp kind register }
    {
        let overlay = overlay_of(vp, kind);
        let before = OverlayWord::new(self.registers[overlay]);
        let word = OverlayWord::new(register);
        self.registers[overlay] = register;
        // It was mapped at no other page.
        if self.pages.is_empty() {
            self.candidates.mark(before.page(), overlay, false);
            self.candidates
                .mark(word.page(), overlay, word.is_enabled());
        } else {
            self.mapped.mark(before.page(), overlay, false);
            self.mapped.mark(word.page(), overlay, word.is_enabled());
        }
    }

    /// Whether the guest pages are in the caller's memory.
    #[inline(always)]
    pub fn is_sparse(&self) -> bool
        ensures { result ≡ is_sparse self.now }
    {
        self.pages.is_empty()
    }

    /// The number of pages that the guest has.
    fn page_count(&self) -> u64
        ensures { result ≡ page_count self.now }
    {
        if self.is_sparse() {
            ALL_PAGES
        } else {
            self.pages.len() as u64
        }
    }

    /// The number of the overlay that is visible at a page which the space holds.
    #[inline(always)]
    fn visible(&self, page: u64) -> Option<usize>
        requires { page < length self.now.pages }
        ensures value { result ≡ visible self.now page }
        ensures bound { IfSome result (λ overlay. overlay < 16) }
    {
        self.mapped.first(page as usize)
    }

    /// The number of the overlay that is visible at a page of a sparse space.
    #[inline(never)]
    fn search(&self, page: u64) -> Option<usize>
        requires { length self.now.pages ≡ 0 }
        ensures value { result ≡ visible self.now page }
        ensures bound { IfSome result (λ overlay. overlay < 128) }
    {
        self.candidates.first(self.registers.as_slice(), page)
    }

    /// Which page a guest sees at a page number.
    pub fn owner(&self, page: u64) -> Owner
        ensures { result ≡ owner_of self.now page }
    {
        if page >= self.pages.len() as u64 {
            return self.owner_elsewhere(page);
        }
        match self.visible(page) {
            None => Owner::Guest,
            Some(overlay) => overlay_owner(overlay),
        }
    }

    /// The same for a page that the space does not hold.
    #[inline(never)]
    fn owner_elsewhere(&self, page: u64) -> Owner
        requires { length self.now.pages ≤ page }
        ensures { result ≡ owner_of self.now page }
    {
        if page >= self.page_count() {
            return Owner::Nothing;
        }
        match self.search(page) {
            None => Owner::Guest,
            Some(overlay) => overlay_owner(overlay),
        }
    }

    /// The first page from `from` on at which a guest sees an overlay, with its owner; `None` if there
    /// is none. From 0 on, and then from the page after each answer, these are all such pages.
    pub fn next_overlay(&self, from: u64) -> Option<(u64, Owner)>
        ensures { IsNextOverlay self.now from result }
    {
        match least_page(self.registers.as_slice(), from, self.page_count()) {
            Some(page) => Some((page, self.owner(page))),
            None => None,
        }
    }

    /// The number of the overlay that is visible at an address, `None` for a guest page that the
    /// space holds, or why a load or a store of that many bytes there is refused.
    #[inline(always)]
    fn overlay_at(&self, address: u64, length: usize) -> Result<Option<usize>, Refusal>
        ensures { result ≡ option_map_or (λ r. Err r) (refusal_of self.now address length)
            (Ok (visible self.now (address / 4096))) }
    {
        let page = address / SIZE as u64;
        if length == 0 || length > 8 {
            return Err(Refusal::BadLength);
        }
        if page >= self.pages.len() as u64 {
            return match self.overlay_elsewhere(address, length) {
                Err(refusal) => Err(refusal),
                Ok(overlay) => Ok(Some(overlay as usize)),
            };
        }
        if (address % SIZE as u64) as usize + length > SIZE {
            return Err(Refusal::CrossesPage);
        }
        Ok(self.visible(page))
    }

    /// The same for a page that the space does not hold. Out of line, so that an access of any other
    /// page does not pay for it; its answer fits into a register.
    #[inline(never)]
    fn overlay_elsewhere(&self, address: u64, count: usize) -> Result<u8, Refusal>
        requires some { 1 ≤ count }
        requires bound { count ≤ 8 }
        requires elsewhere { length self.now.pages ≤ address / 4096 }
        ensures refused { IfErr result (λ r. refusal_of self.now address count ≡ Some r) }
        ensures done { OnOk result (refusal_of self.now address count ≡ None) }
        ensures overlay { IfOk result (λ overlay. visible self.now (address / 4096) ≡ Some overlay) }
    {
        if !self.is_sparse() {
            return Err(Refusal::OutsideSpace);
        }
        if (address % SIZE as u64) as usize + count > SIZE {
            return Err(Refusal::CrossesPage);
        }
        match self.search(address / SIZE as u64) {
            Some(overlay) => Ok(overlay as u8),
            None => Err(Refusal::Elsewhere),
        }
    }

    /// The bytes that a guest sees at an address. Refused, in this order: `BadLength` unless there
    /// are 1 to 8 bytes; `OutsideSpace` if the first is in no page; `CrossesPage` if the last is in
    /// another page; `Elsewhere` if the page is in the caller's memory.
    #[inline(always)]
    pub fn load(&self, address: u64, length: u8) -> Result<Bytes8, Refusal>
        ensures { result ≡ loaded self.now address length }
    {
        let page = address / SIZE as u64;
        let at = (address % SIZE as u64) as usize;
        match self.overlay_at(address, length as usize) {
            Err(refusal) => Err(refusal),
            Ok(None) => Ok(self.pages[page as usize].load(at, length)),
            Ok(Some(overlay)) => Ok(self.own[overlay].load(at, length)),
        }
    }

    /// Stores bytes at an address in the page that a guest sees there, and returns the owner of that
    /// page. Refused as a load is, and then changes nothing.
    #[inline]
    pub fn store(&mut self, address: u64, bytes: &Bytes8) -> Result<Owner, Refusal>
        ensures answer { result ≡ store_answer self.old address bytes.now.items }
        ensures after { self.new ≡ after_store self.old address bytes.now.items }
    {
        self.store_slice(address, bytes.as_slice())
    }

    /// `store` of bytes in a slice. No bytes, or more than 8, are refused with `BadLength`.
    #[inline(always)]
    pub fn store_slice(&mut self, address: u64, bytes: &[u8]) -> Result<Owner, Refusal>
        ensures answer { result ≡ store_answer self.old address bytes.now }
        ensures after { self.new ≡ after_store self.old address bytes.now }
    {
        let page = address / SIZE as u64;
        let at = (address % SIZE as u64) as usize;
        match self.overlay_at(address, bytes.len()) {
            Err(refusal) => Err(refusal),
            Ok(None) => {
                self.pages[page as usize].store(at, bytes);
                Ok(Owner::Guest)
            }
            Ok(Some(overlay)) => {
                self.own[overlay].store(at, bytes);
                Ok(overlay_owner(overlay))
            }
        }
    }

    /// The message page of a processor, 4096 bytes.
    pub fn sim(&self, vp: Vp) -> &[u8]
        requires { vp < processors_of self.now }
        ensures value { result.now ≡ own_page self.now vp kind.Sim }
        ensures len { length result.now ≡ 4096 }
    {
        self.own[overlay_of(vp, Kind::Sim)].as_slice()
    }

    /// The event flags page of a processor, 4096 bytes.
    pub fn sief(&self, vp: Vp) -> &[u8]
        requires { vp < processors_of self.now }
        ensures value { result.now ≡ own_page self.now vp kind.Sief }
        ensures len { length result.now ≡ 4096 }
    {
        self.own[overlay_of(vp, Kind::Sief)].as_slice()
    }

    /// An overlay's own page, 4096 bytes, visible or not; `None` if the processor is not on the
    /// board.
    pub fn own_page(&self, vp: Vp, kind: Kind) -> Option<&[u8]>
        ensures value { option_copied result ≡ slice_get self.now.own (overlay_of vp kind) }
        ensures len { IfSome result (λ page. length page.now ≡ 4096) }
    {
        match self.own.get(overlay_of(vp, kind)) {
            Some(page) => Some(page.as_slice()),
            None => None,
        }
    }

    /// A guest page, 4096 bytes, without the overlays that obscure it; `None` if there is no such
    /// page.
    pub fn guest_page(&self, number: u64) -> Option<&[u8]>
        ensures value { option_copied result ≡ slice_get self.now.pages number }
        ensures len { IfSome result (λ page. length page.now ≡ 4096) }
    {
        match self.pages.get(number as usize) {
            Some(page) => Some(page.as_slice()),
            None => None,
        }
    }

    /// Writes the slot of a source in the message page, visible or not.
    pub fn write_slot(&mut self, vp: Vp, sint: Sint, slot: &[u8; 256])
        requires { vp < processors_of self.old }
        ensures { self.new ≡ after_slot self.old vp sint slot.now }
    {
        self.own[overlay_of(vp, Kind::Sim)].write_slot(sint, slot);
    }

    /// Writes a header, a payload of at most 240 bytes, and zeros to the slot of a source in the
    /// message page, visible or not.
    #[inline(always)]
    pub fn write_message(&mut self, vp: Vp, sint: Sint, header: &[u8; HEADER_SIZE], payload: &[u8])
        requires on_board { vp < processors_of self.old }
        requires fits { length payload.now ≤ 240 }
        ensures { self.new ≡ after_slot self.old vp sint (message_bytes header.now payload.now) }
    {
        self.own[overlay_of(vp, Kind::Sim)].write_message(sint, header, payload);
    }

    /// Sets MessagePending, bit 0 of byte 5 of the slot, in the message page, visible or not.
    /// Returns whether it was clear.
    pub fn set_pending(&mut self, vp: Vp, sint: Sint) -> bool
        requires { vp < processors_of self.old }
        ensures fresh { result ≡ not (is_pending self.old vp sint) }
        ensures after { self.new ≡ after_pending self.old vp sint }
    {
        let at = SLOT_SIZE * sint.number() as usize + MESSAGE_FLAGS;
        self.own[overlay_of(vp, Kind::Sim)].set_bit(at, 0)
    }

    /// Sets a flag of a source, 0 to 2047, in the event flags page, visible or not. Returns whether
    /// it was clear.
    pub fn set_flag(&mut self, vp: Vp, sint: Sint, flag: u16) -> bool
        requires on_board { vp < processors_of self.old }
        requires flag { flag < 2048 }
        ensures fresh { result ≡ not (is_flag_set self.old vp sint flag) }
        ensures after { self.new ≡ after_flag self.old vp sint flag }
    {
        let at = SLOT_SIZE * sint.number() as usize + flag as usize / 8;
        self.own[overlay_of(vp, Kind::Sief)].set_bit(at, (flag % 8) as u8)
    }

    /// What holds for the pages of every space. Does nothing.
    pub fn facts(&self)
        ensures pages { All (λ page. length page ≡ 4096) self.now.pages }
        ensures own { All (λ page. length page ≡ 4096) self.now.own }
        ensures page_bytes { All AreBytes self.now.pages }
        ensures own_bytes { All AreBytes self.now.own }
        ensures each { length self.now.own ≡ length self.now.registers }
    {
        page_lengths(self.pages.as_slice());
        page_lengths(self.own.as_slice());
        page_bytes(self.pages.as_slice());
        page_bytes(self.own.as_slice());
    }

    /// Replaces bytes of an overlay's own page, visible or not, from offset `at` on.
    pub fn restore_own(&mut self, vp: Vp, kind: Kind, at: usize, bytes: &[u8])
        requires on_board { vp < processors_of self.old }
        requires inside { at + length bytes.now ≤ 4096 }
        ensures { self.new ≡ with_own_page self.old vp kind (overwritten (own_page self.old vp kind) at bytes.now) }
    {
        self.own[overlay_of(vp, kind)].store(at, bytes);
    }

    /// Replaces bytes of a guest page, from offset `at` on, without the overlays that obscure it.
    pub fn restore_guest(&mut self, page: u64, at: usize, bytes: &[u8])
        requires page { page < length self.old.pages }
        requires inside { at + length bytes.now ≤ 4096 }
        ensures { self.new ≡ with_guest_page self.old page
            (overwritten (slice_index_or self.old.pages page []) at bytes.now) }
    {
        self.pages[page as usize].store(at, bytes);
    }

    /// Sets the message page and the event flags page of a processor to zero, visible or not. They
    /// stay mapped where they are.
    pub fn clear_pages(&mut self, vp: Vp)
        requires { vp < processors_of self.old }
        ensures { self.new ≡ after_clearing self.old vp }
    {
        self.own[overlay_of(vp, Kind::Sim)].erase();
        self.own[overlay_of(vp, Kind::Sief)].erase();
    }
}

/// The number of an overlay in the order of visibility.
fn overlay_of(vp: Vp, kind: Kind) -> usize
    ensures { result ≡ overlay_of vp kind }
{
    match kind {
        Kind::Sim => 2 * vp.number() as usize,
        Kind::Sief => 2 * vp.number() as usize + 1,
    }
}

/// The owner of an overlay page, by its number in the order of visibility.
fn overlay_owner(overlay: usize) -> Owner
    requires { overlay < 128 }
    ensures { result ≡ overlay_owner overlay }
{
    let vp = Vp::new((overlay / 2) as u8).unwrap();
    if overlay % 2 == 0 {
        Owner::Sim(vp)
    } else {
        Owner::Sief(vp)
    }
}

/// Pages of zeros.
fn zero_pages(alloc: Global, count: usize) -> Result<Vec<Page>, AllocError>
    ensures { IfOk result (λ pages. pages.items ≡ replicate count zero_page) }
{
    let mut pages = Vec::with_capacity(alloc, count)?;
    for _ in 0..count {
        pages.push_reserved(Page::zeros(alloc)?);
    }
    Ok(pages)
}

/// Each page has 4096 bytes.
fn page_lengths(pages: &[Page])
    ensures { All (λ page. length page ≡ 4096) pages.now }
{
    for page in pages {
        let _ = page.as_slice();
    }
}

/// Each page has bytes only.
fn page_bytes(pages: &[Page])
    ensures { All AreBytes pages.now }
{
    for page in pages {
        page.facts();
    }
}
