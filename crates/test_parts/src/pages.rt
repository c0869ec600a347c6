// Pages and overlays, at worked values.
ghost use Rattle.std.specs.Prelude.{◌≡◌, ◌≢◌, ◌<◌, ◌≤◌, IfSome};
ghost use Rattle.gpa_space.specs.Space.{processors_of};

use crate::steps::{Other, Part, first_other};
use board_terms::{Bytes8, Kind, Owner, Refusal, Sint, Vp};
use gpa_space::Space;
use std::alloc::{AllocError, Global};

/// A call of the space.
#[derive(Clone, Copy)]
pub(crate) enum Call {
    SetOverlay(u8, Kind, u64),
    Owner(u64),
    /// The first page from a number on with an overlay.
    NextOverlay(u64),
    /// A load of that many bytes; the answer is the first.
    Load(u64, u8),
    LoadEight(u64),
    Store(u64, u8),
    /// A store of that many bytes, up to nine, all of them 1.
    StoreSome(u64, usize),
    SimByte(u8, usize),
    SiefByte(u8, usize),
    OwnByte(u8, Kind, usize),
    GuestByte(u64, usize),
    /// Writes a slot whose bytes are all the same.
    WriteSlot(u8, u8, u8),
    /// Writes a message with a payload of one byte.
    WriteMessage(u8, u8, u8),
    SetPending(u8, u8),
    SetFlag(u8, u8, u16),
    ClearPages(u8),
}

#[derive(Clone, Copy, PartialEq, Debug)]
pub(crate) enum Answer {
    Done,
    Is(bool),
    Byte(u8),
    Bytes([u8; 8]),
    Guest,
    Overlay(u8, Kind),
    /// A page number.
    At(u64),
    Nothing,
    Refused(Refusal),
}

use Answer::{At, Byte, Bytes, Done, Guest, Is, Nothing, Overlay, Refused};
use Call::{
    ClearPages, GuestByte, Load, LoadEight, NextOverlay, OwnByte, SetFlag, SetOverlay, SetPending,
    SiefByte, SimByte, Store, StoreSome, WriteMessage, WriteSlot,
};

/// A space of some processors, with four pages or sparse.
#[derive(Drop)]
struct Scene {
    space: Space,
    processors: u8,
    ghost all: { processors_of space ≡ processors },
}

fn owner(owner: Owner) -> Answer {
    match owner {
        Owner::Guest => Guest,
        Owner::Sim(vp) => Overlay(vp.number(), Kind::Sim),
        Owner::Sief(vp) => Overlay(vp.number(), Kind::Sief),
        Owner::Nothing => Nothing,
    }
}

fn byte(page: Option<&[u8]>, at: usize) -> Option<Answer> {
    match page {
        Some(page) => Some(Byte(*page.get(at)?)),
        None => Some(Nothing),
    }
}

impl Scene {
    /// That many processors and pages.
    fn open(alloc: Global, processors: u8, pages: u8) -> Result<Scene, AllocError>
        requires some { 1 ≤ processors }
        requires processor_bound { processors ≤ 64 }
        requires page_bound { pages ≤ 64 }
        requires dense { pages ≢ 0 → processors ≤ 8 }
    {
        let space = Space::open(alloc, processors, pages)?;
        Ok(Scene { space, processors })
    }

    /// A processor of the space.
    fn on_board(&self, number: u8) -> Option<Vp>
        ensures { IfSome result (λ vp. vp < self.now.processors) }
    {
        if number < self.processors {
            Vp::new(number)
        } else {
            None
        }
    }

    // README gpa_space: begin
    fn load(&self, address: u64, length: u8) -> Option<Answer> {
        match self.space.load(address, length) {
            Ok(bytes) => Some(Byte(*bytes.first()?)),
            Err(refusal) => Some(Refused(refusal)),
        }
    }
    // README gpa_space: end

    fn load_eight(&self, address: u64) -> Option<Answer> {
        match self.space.load(address, 8) {
            Ok(bytes) => Some(Bytes(bytes.as_slice().try_into().ok()?)),
            Err(refusal) => Some(Refused(refusal)),
        }
    }

    fn store(&mut self, address: u64, bytes: &[u8]) -> Answer {
        let mut bound = Bytes8::new();
        let stored = match bound.try_extend_from_slice(bytes) {
            Ok(()) => self.space.store(address, &bound),
            Err(_) => self.space.store_slice(address, bytes),
        };
        match stored {
            Ok(touched) => owner(touched),
            Err(refusal) => Refused(refusal),
        }
    }

    fn set_flag(&mut self, vp: Vp, sint: Sint, flag: u16) -> Option<Answer>
        requires { vp < self.old.processors }
    {
        if flag >= 2048 {
            return None;
        }
        Some(Is(self.space.set_flag(vp, sint, flag)))
    }

    /// A call of the hypervisor, on the pages of a processor.
    fn ask_hypervisor(&mut self, call: Call) -> Option<Answer> {
        match call {
            WriteSlot(vp, sint, byte) => {
                let vp = self.on_board(vp)?;
                self.space.write_slot(vp, Sint::new(sint)?, &[byte; 256]);
                Some(Done)
            }
            WriteMessage(vp, sint, byte) => {
                let vp = self.on_board(vp)?;
                self.space
                    .write_message(vp, Sint::new(sint)?, &HEADER, &[byte]);
                Some(Done)
            }
            SetPending(vp, sint) => {
                let vp = self.on_board(vp)?;
                Some(Is(self.space.set_pending(vp, Sint::new(sint)?)))
            }
            SetFlag(vp, sint, flag) => {
                let vp = self.on_board(vp)?;
                self.set_flag(vp, Sint::new(sint)?, flag)
            }
            ClearPages(vp) => {
                let vp = self.on_board(vp)?;
                self.space.clear_pages(vp);
                Some(Done)
            }
            _ => None,
        }
    }
}

impl Part for Scene {
    type Call = Call;

    type Answer = Answer;

    fn ask(&mut self, call: Call) -> Option<Answer> {
        match call {
            SetOverlay(vp, kind, register) => {
                let vp = self.on_board(vp)?;
                self.space.set_overlay(vp, kind, register);
                Some(Done)
            }
            Call::Owner(page) => Some(owner(self.space.owner(page))),
            NextOverlay(from) => Some(match self.space.next_overlay(from) {
                Some((page, _)) => At(page),
                None => Nothing,
            }),
            Load(address, length) => self.load(address, length),
            LoadEight(address) => self.load_eight(address),
            Store(address, byte) => Some(self.store(address, &[byte])),
            StoreSome(address, count) => Some(self.store(address, [1; 9].get(..count)?)),
            SimByte(vp, at) => byte(Some(self.space.sim(self.on_board(vp)?)), at),
            SiefByte(vp, at) => byte(Some(self.space.sief(self.on_board(vp)?)), at),
            OwnByte(vp, kind, at) => byte(self.space.own_page(Vp::new(vp)?, kind), at),
            GuestByte(page, at) => byte(self.space.guest_page(page), at),
            call => self.ask_hypervisor(call),
        }
    }
}

/// The first step at which a new scene gives another answer.
fn other(alloc: Global, steps: &[(Call, Answer)]) -> Result<Option<Other<Answer>>, AllocError> {
    Ok(first_other(&mut Scene::open(alloc, 2, 4)?, steps))
}

/// The same of a sparse scene.
fn other_sparse(
    alloc: Global,
    processors: u8,
    steps: &[(Call, Answer)],
) -> Result<Option<Other<Answer>>, AllocError>
    requires some { 1 ≤ processors }
    requires bound { processors ≤ 64 }
{
    Ok(first_other(&mut Scene::open(alloc, processors, 0)?, steps))
}

/// An overlay obscures the page below, and the first of several obscures the others. Obscured bytes
/// stay.
const OVERLAYS: [(Call, Answer); 20] = [
    // README gpa_space: begin
    (Store(0x2200, 5), Guest),
    (SetOverlay(1, Kind::Sim, 0x2001), Done),
    (Load(0x2200, 1), Byte(0)),
    (Store(0x2200, 7), Overlay(1, Kind::Sim)),
    (SetOverlay(0, Kind::Sief, 0x2001), Done),
    (Call::Owner(2), Overlay(0, Kind::Sief)),
    (Load(0x2200, 1), Byte(0)),
    (OwnByte(0, Kind::Sief, 0x200), Byte(0)),
    (OwnByte(1, Kind::Sim, 0x200), Byte(7)),
    (OwnByte(2, Kind::Sim, 0x200), Nothing),
    (GuestByte(2, 0x200), Byte(5)),
    (GuestByte(4, 0x200), Nothing),
    (SetOverlay(0, Kind::Sief, 0), Done),
    (Load(0x2200, 1), Byte(7)),
    (SetOverlay(1, Kind::Sim, 0x3001), Done),
    (Load(0x2200, 1), Byte(5)),
    (Load(0x3200, 1), Byte(7)),
    (Call::Owner(2), Guest),
    (Call::Owner(3), Overlay(1, Kind::Sim)),
    (Call::Owner(4), Nothing),
    // README gpa_space: end
];

/// The checks are in this order: the length, the page of the first byte, the page of the last byte.
const REFUSALS: [(Call, Answer); 13] = [
    (Load(0x4000, 1), Refused(Refusal::OutsideSpace)),
    (Load(0x3fff, 2), Refused(Refusal::CrossesPage)),
    (Load(0xffe, 4), Refused(Refusal::CrossesPage)),
    (Load(u64::MAX, 9), Refused(Refusal::BadLength)),
    (Load(u64::MAX, 8), Refused(Refusal::OutsideSpace)),
    (Load(0, 0), Refused(Refusal::BadLength)),
    (StoreSome(0, 0), Refused(Refusal::BadLength)),
    (StoreSome(0, 9), Refused(Refusal::BadLength)),
    (Store(0x4000, 1), Refused(Refusal::OutsideSpace)),
    (StoreSome(0x3ff9, 8), Refused(Refusal::CrossesPage)),
    (LoadEight(0x3ff8), Bytes([0; 8])),
    (StoreSome(0x3ff8, 8), Guest),
    (LoadEight(0x3ff8), Bytes([1; 8])),
];

/// The first bytes of a message of type 1 from port 3, of one byte.
const HEADER: [u8; 16] = [1, 0, 0, 0, 1, 0, 0, 0, 3, 0, 0, 0, 0, 0, 0, 0];

/// The message page is outside the space at first, and the event flags page is disabled.
const HIDDEN_PAGES: [(Call, Answer); 24] = [
    (SetOverlay(0, Kind::Sim, 0x40001), Done),
    (WriteSlot(0, 2, 0x0a), Done),
    (SetPending(0, 2), Is(true)),
    (SetPending(0, 2), Is(false)),
    (WriteSlot(0, 3, 0xff), Done),
    (WriteMessage(0, 3, 0x0b), Done),
    (SetOverlay(0, Kind::Sim, 0x2001), Done),
    (Load(0x21ff, 1), Byte(0)),
    (LoadEight(0x2200), Bytes([10, 10, 10, 10, 10, 11, 10, 10])),
    (LoadEight(0x22f8), Bytes([10; 8])),
    (LoadEight(0x2300), Bytes([1, 0, 0, 0, 1, 0, 0, 0])),
    (LoadEight(0x2308), Bytes([3, 0, 0, 0, 0, 0, 0, 0])),
    (LoadEight(0x2310), Bytes([11, 0, 0, 0, 0, 0, 0, 0])),
    (LoadEight(0x23f8), Bytes([0; 8])),
    (Load(0x2400, 1), Byte(0)),
    (SimByte(0, 0x310), Byte(11)),
    (SetFlag(0, 2, 3), Is(true)),
    (SetFlag(0, 2, 3), Is(false)),
    (SiefByte(0, 0x200), Byte(8)),
    (SetFlag(0, 15, 2047), Is(true)),
    (SiefByte(0, 0xfff), Byte(0x80)),
    (OwnByte(0, Kind::Sief, 0xfff), Byte(0x80)),
    (SimByte(1, 0x310), Byte(0)),
    (SiefByte(1, 0x200), Byte(0)),
];

/// One page of processor 1 is visible, and the other disabled.
const CLEARED_PAGES: [(Call, Answer); 16] = [
    (SetPending(0, 15), Is(true)),
    (SetPending(1, 15), Is(true)),
    (SetFlag(0, 15, 2047), Is(true)),
    (SetFlag(1, 15, 2047), Is(true)),
    (SetOverlay(1, Kind::Sim, 0x2001), Done),
    (SimByte(1, 0xf05), Byte(1)),
    (SiefByte(1, 0xfff), Byte(0x80)),
    (Load(0x2f05, 1), Byte(1)),
    (ClearPages(1), Done),
    (SimByte(1, 0xf05), Byte(0)),
    (SiefByte(1, 0xfff), Byte(0)),
    (SimByte(0, 0xf05), Byte(1)),
    (SiefByte(0, 0xfff), Byte(0x80)),
    (Call::Owner(2), Overlay(1, Kind::Sim)),
    (Load(0x2f05, 1), Byte(0)),
    (SetPending(1, 15), Is(true)),
];

/// No page is in the space: overlays at the last page that an address reaches, and at one between.
const SPARSE: [(Call, Answer); 22] = [
    (Load(0, 1), Refused(Refusal::Elsewhere)),
    (Store(u64::MAX, 5), Refused(Refusal::Elsewhere)),
    (Load(u64::MAX, 2), Refused(Refusal::CrossesPage)),
    (Load(0, 0), Refused(Refusal::BadLength)),
    (Call::Owner(0xfffffffffffff), Guest),
    (Call::Owner(0x10000000000000), Nothing),
    (NextOverlay(0), Nothing),
    (SetOverlay(1, Kind::Sim, 0xfffffffffffff001), Done),
    (SetOverlay(0, Kind::Sief, 0xfffffffffffff001), Done),
    (SetOverlay(0, Kind::Sim, 0x5000001), Done),
    (NextOverlay(0), At(0x5000)),
    (NextOverlay(0x5000), At(0x5000)),
    (NextOverlay(0x5001), At(0xfffffffffffff)),
    (NextOverlay(0x10000000000000), Nothing),
    (Call::Owner(0xfffffffffffff), Overlay(0, Kind::Sief)),
    (Store(u64::MAX, 5), Overlay(0, Kind::Sief)),
    (SiefByte(0, 0xfff), Byte(5)),
    (SetOverlay(0, Kind::Sief, 0xfffffffffffff000), Done),
    (Store(u64::MAX, 7), Overlay(1, Kind::Sim)),
    (Load(0x5000fff, 1), Byte(0)),
    (Load(0x5001000, 1), Refused(Refusal::Elsewhere)),
    (GuestByte(0, 0), Nothing),
];

/// The last two of 128 overlays are moved, and found where they are.
const LAST_OVERLAYS: [(Call, Answer); 13] = [
    (SetOverlay(63, Kind::Sim, 0x5001), Done),
    (SetOverlay(63, Kind::Sief, 0x6001), Done),
    (Call::Owner(5), Overlay(63, Kind::Sim)),
    (Call::Owner(6), Overlay(63, Kind::Sief)),
    (Store(0x6fff, 9), Overlay(63, Kind::Sief)),
    (SiefByte(63, 0xfff), Byte(9)),
    (SiefByte(7, 0xfff), Byte(0)),
    (SetOverlay(63, Kind::Sim, 0x6001), Done),
    (Call::Owner(5), Guest),
    (Call::Owner(6), Overlay(63, Kind::Sim)),
    (SetOverlay(7, Kind::Sief, 0x6001), Done),
    (Call::Owner(6), Overlay(7, Kind::Sief)),
    (NextOverlay(0), At(6)),
];

const TABLES: [(&str, &[(Call, Answer)]); 4] = [
    ("overlays hide what is below", &OVERLAYS),
    ("addresses are refused in order", &REFUSALS),
    ("hypervisor writes hidden pages", &HIDDEN_PAGES),
    ("pages of one processor are cleared", &CLEARED_PAGES),
];

#[test]
fn each_table_is_answered(rt: HostRuntime) {
    for (table, steps) in &TABLES {
        assert_eq!(rt; other(rt.alloc(), *steps), Ok(None), "{table}");
    }
}

#[test]
fn a_sparse_space_is_answered(rt: HostRuntime) {
    assert_eq!(rt; other_sparse(rt.alloc(), 2, &SPARSE), Ok(None));
    assert_eq!(rt; other_sparse(rt.alloc(), 64, &LAST_OVERLAYS), Ok(None));
}
