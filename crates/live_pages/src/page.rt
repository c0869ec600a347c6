// A live page, and single accesses to its words.
ghost use Rattle.std.specs.Prelude.{◌≡◌, ◌<◌, [], ◌∷◌, IfOk};
ghost use Rattle.live_pages.specs.declared.access.Access.TheVariants.{Load, FetchOr, Store};
ghost use Rattle.live_pages.specs.Page.{page_of, guest_of, with_access};
ghost use Rattle.live_pages.specs.Words.{IsUpdate, IsPut};
ghost use Rattle.live_pages.specs.Traces.{IsGuestStore, IsGuestLoad};

use crate::access::{Access, Turn};
use atomic_table::{Join, Play, Seat, Split, Table, TableRule};
use std::alloc::{AllocError, Global};
use std::collections::LinkedList;
use std::marker::Model;

/// The number of words of a page, each of 64 bits.
pub const WORDS: usize = 512;

/// The number of words of a message slot: the header, with the type and the flags in its first word,
/// and the payload.
pub const SLOT_WORDS: usize = 32;

/// What a seat knows. Ghost.
pub struct View {
    /// 1 if it is the host's.
    pub hosts: u64,
    /// The accesses of the host, the last one first.
    pub log: LinkedList<Access>,
    /// 1 if it is the guest's.
    pub guests: u64,
    /// The turns up to the guest's last one, the last one first.
    pub seen: LinkedList<Turn>,
}

/// The rule of a page that a guest may write: each word may have any value at any time, and it is the
/// one that the turns of host and guest leave.
pub(crate) struct Open;

impl TableRule<(), View, u64> for Open {
    ghost use Rattle.live_pages.specs.inside.Open.{IsOpen, both_view};
    ghost use Rattle.std.specs.Prelude.{[]};

    ghost holds = { IsOpen };

    ghost first = { λ key. both_view [] [] };
}

struct Loads;

impl Play<(), View> for Loads {
    ghost use Rattle.live_pages.specs.inside.Open.{loaded_as};

    ghost then = { loaded_as };
}

struct Affirms;

impl Play<(), View> for Affirms {
    ghost use Rattle.live_pages.specs.inside.Open.{affirmed_as};

    ghost then = { affirmed_as };
}

struct FetchOrs;

impl Play<(), View> for FetchOrs {
    ghost use Rattle.live_pages.specs.inside.Open.{ored_as};

    ghost then = { ored_as };
}

struct Stores;

impl Play<(), View> for Stores {
    ghost use Rattle.live_pages.specs.inside.Open.{stored_as};

    ghost then = { stored_as };
}

struct GuestLoads;

impl Play<(), View> for GuestLoads {
    ghost use Rattle.live_pages.specs.inside.Open.{guest_loaded_as};

    ghost then = { guest_loaded_as };
}

struct GuestStores;

impl Play<(), View> for GuestStores {
    ghost use Rattle.live_pages.specs.inside.Open.{guest_stored_as};

    ghost then = { guest_stored_as };
}

/// The guest's seat leaves the host's.
struct Parts;

impl Split<View> for Parts {
    ghost use Rattle.live_pages.specs.inside.Open.{host_view, guest_view};

    ghost left = { λ v. host_view v.log };

    ghost right = { λ v. guest_view v.seen };
}

/// The guest's seat joins the host's.
struct Meets;

impl Join<View> for Meets {
    ghost use Rattle.live_pages.specs.inside.Open.{both_view, spent_view};

    ghost both = { λ v w. both_view v.log w.seen };

    ghost spent = { spent_view };
}

/// A page of 4096 bytes, as 512 little-endian words, that a guest loads and stores at any time. Its
/// contract shows the accesses of the host, the last one first. Each is one atomic, sequentially
/// consistent access to one word, and none waits for the guest.
#[derive(Drop)]
pub struct LivePage {
    table: Table<(), View, u64, Open, Global>,
    seat: Seat<(), View>,
}

impl Model for LivePage {
    ghost use Rattle.std.specs.Prelude.{◌≡◌, ◌∷◌, []};
    ghost use Rattle.live_pages.specs.Page.{Page, page_of};
    ghost use Rattle.live_pages.specs.inside.Codes.{page_code};
    ghost use Rattle.live_pages.specs.inside.Open.{host_view};

    ghost Value = { Page };

    ghost coded = { page_code };

    ghost view = { λ p. page_of p.table.shared.table_id p.seat.me.0.log };

    ghost invariant = { λ p. (p.table.shared.table_id.words ≡ 512) × (p.seat.table_id ≡ p.table.shared.table_id)
        × (p.seat.me ≡ (host_view p.seat.me.0.log, [])) };
}

/// The guest of a page: whoever else writes it. It has no bytes. Its contract shows the turns of host
/// and guest up to its last one, the last one first.
#[derive(Drop)]
pub struct Guest {
    seat: Seat<(), View>,
}

impl Model for Guest {
    ghost use Rattle.std.specs.Prelude.{◌≡◌, ◌∷◌, []};
    ghost use Rattle.live_pages.specs.Page.{GuestModel, guest_of};
    ghost use Rattle.live_pages.specs.inside.Codes.{guest_code};
    ghost use Rattle.live_pages.specs.inside.Open.{guest_view};

    ghost Value = { GuestModel };

    ghost coded = { guest_code };

    ghost view = { λ g. guest_of g.seat.table_id g.seat.me.0.seen };

    ghost invariant = { λ g. g.seat.me ≡ (guest_view g.seat.me.0.seen, []) };
}

impl LivePage {
    /// A page of zeros, in one block of 4096 bytes, without accesses, and its guest. Fails if the
    /// allocation fails.
    pub fn open(alloc: Global) -> Result<(LivePage, Guest), AllocError>
        ensures page { IfOk result (λ r. r.0 ≡ page_of r.0.name []) }
        ensures guest { IfOk result (λ r. r.1 ≡ guest_of r.0.name []) }
    {
        let zeros = [0; WORDS];
        let (table, mut seat) = Table::of_words(alloc, &zeros, &0)?;
        let other = table.shared.split_seat::<Parts>(&mut seat);
        Ok((LivePage { table, seat }, Guest { seat: other }))
    }

    /// Loads a word, 0 to 511.
    #[inline(always)]
    pub fn load(&mut self, word: usize) -> u64
        requires { word < 512 }
        ensures { self.new ≡ with_access self.old (Load word result) }
    {
        let LivePage { table, seat } = self;
        table.shared.load::<Loads>(seat, word)
    }

    /// Sets the bits of a mask in a word, 0 to 511, and returns the value that the word had.
    #[inline(always)]
    pub fn fetch_or(&mut self, word: usize, mask: u64) -> u64
        requires { word < 512 }
        ensures { self.new ≡ with_access self.old (FetchOr word mask result) }
    {
        let LivePage { table, seat } = self;
        table.shared.fetch_or::<FetchOrs>(seat, word, mask)
    }

    /// Stores a word, 0 to 511.
    #[inline(always)]
    pub fn store(&mut self, word: usize, value: u64)
        requires { word < 512 }
        ensures { self.new ≡ with_access self.old (Store word value) }
    {
        let LivePage { table, seat } = self;
        table.shared.store::<Stores>(seat, word, value)
    }

    /// Loads a word, 0 to 511. The log shows a store of the value that was found: one of that value at
    /// that moment leaves the same words.
    #[inline(always)]
    pub fn affirm(&mut self, word: usize) -> u64
        requires { word < 512 }
        ensures { self.new ≡ with_access self.old (Store word result) }
    {
        let LivePage { table, seat } = self;
        table.shared.load::<Affirms>(seat, word)
    }

    /// Gives a word, 0 to 511, a value, at the cost of a load if it has it.
    #[inline(always)]
    pub fn put(&mut self, word: usize, value: u64)
        requires { word < 512 }
        ensures name { self.new.name ≡ self.old.name }
        ensures accesses { IsPut word value self.old.log self.new.log }
    {
        if self.affirm(word) != value {
            self.store(word, value);
        }
    }

    /// Loads a word, 0 to 511, and stores the value if the word has another one. A store is an
    /// atomic exchange, which takes some six times as long as a load.
    #[inline(always)]
    pub fn update(&mut self, word: usize, value: u64)
        requires { word < 512 }
        ensures name { self.new.name ≡ self.old.name }
        ensures accesses { IsUpdate word value self.old.log self.new.log }
    {
        if self.load(word) != value {
            self.store(word, value);
        }
    }

    /// A load of the guest: what it finds is what all turns so far left. The host's log is the one
    /// that these turns have.
    pub fn guest_load(&mut self, guest: Guest, word: usize) -> (u64, Guest)
        requires own { guest.of ≡ self.old.name }
        requires word { word < 512 }
        ensures page { self.new ≡ self.old }
        ensures own { result.1.of ≡ guest.of }
        ensures seen { IsGuestLoad word result.0 self.old.log guest.seen result.1.seen }
    {
        let LivePage { table, seat } = self;
        let Guest { seat: other } = guest;
        table.shared.join_seat::<Meets>(seat, other);
        let found = table.shared.load::<GuestLoads>(seat, word);
        let other = table.shared.split_seat::<Parts>(seat);
        (found, Guest { seat: other })
    }

    /// A store of the guest, of any value. The page of the host shows nothing of it.
    pub fn guest_store(&mut self, guest: Guest, word: usize, value: u64) -> Guest
        requires own { guest.of ≡ self.old.name }
        requires word { word < 512 }
        ensures page { self.new ≡ self.old }
        ensures own { result.of ≡ guest.of }
        ensures seen { IsGuestStore word value self.old.log guest.seen result.seen }
    {
        let LivePage { table, seat } = self;
        let Guest { seat: other } = guest;
        table.shared.join_seat::<Meets>(seat, other);
        table.shared.store::<GuestStores>(seat, word, value);
        let other = table.shared.split_seat::<Parts>(seat);
        Guest { seat: other }
    }
}
