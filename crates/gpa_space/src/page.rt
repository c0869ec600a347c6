// A page of 4096 bytes.
ghost use Rattle.std.specs.Prelude.{◌≡◌, ◌<◌, ◌+◌, ◌≤◌, length, take, drop, not, IfOk};
ghost use Rattle.board_terms.specs.Ranges.{AreBytes};
ghost use Rattle.gpa_space.specs.Page.{zero_page, overwritten, with_slot, message_bytes, is_set, with_bit};

use arrayvec::ArrayVec;
use board_terms::{Bytes8, Sint};
use std::alloc::{AllocError, Global};
use std::marker::Model;

/// The number of bytes of a page.
pub const SIZE: usize = 4096;

/// The number of bytes of a message slot, and of the event flags of a source.
pub const SLOT_SIZE: usize = 256;

/// The number of bytes of a message before its payload (TLFS, "SynIC Message").
pub const HEADER_SIZE: usize = 16;

/// The number of bytes of the payload of a timer's message (TLFS, "Message Payload Format").
const TIMER_PAYLOAD_SIZE: usize = 24;

/// The offset of the message flags in a slot; their bit 0 is MessagePending (TLFS, "SynIC Message
/// Flags").
pub const MESSAGE_FLAGS: usize = 5;

/// A page of 4096 bytes.
#[derive(Drop)]
pub struct Page {
    bytes: Vec<u8>,
}

impl Model for Page {
    ghost use Rattle.std.specs.Prelude.{List, ℕ, ◌≡◌, length};

    ghost Value = { List ℕ };

    ghost view = { λ a. a.bytes.items };

    ghost invariant = { λ a. length a.bytes.items ≡ 4096 };
}

impl Page {
    /// A page of zeros.
    pub fn zeros(alloc: Global) -> Result<Page, AllocError>
        ensures { IfOk result (λ page. page ≡ zero_page) }
    {
        let bytes = vec![in alloc; 0; SIZE]?;
        Ok(Page { bytes })
    }

    /// All 4096 bytes.
    pub fn as_slice(&self) -> &[u8]
        ensures value { result.now ≡ self.now }
        ensures len { length result.now ≡ 4096 }
    {
        self.bytes.as_slice()
    }

    /// What holds for the bytes of every page. Does nothing.
    pub fn facts(&self)
        ensures { AreBytes self.now }
    {
        are_bytes(self.as_slice());
    }

    /// `count` bytes, at most 8, from the offset `at` on. They must be within the page.
    #[inline(always)]
    pub fn load(&self, at: usize, count: u8) -> Bytes8
        requires bound { count ≤ 8 }
        requires inside { at + count ≤ 4096 }
        ensures { result.items ≡ take count (drop at self.now) }
    {
        if count == 8 {
            self.load_word(at)
        } else {
            self.load_few(at, count)
        }
    }

    /// Eight bytes, moved as one word.
    #[inline(always)]
    fn load_word(&self, at: usize) -> Bytes8
        requires { at + 8 ≤ 4096 }
        ensures { result.items ≡ take 8 (drop at self.now) }
    {
        let Some(word) = self.bytes[at..at + 8].as_array::<8>() else {
            unreachable!()
        };
        ArrayVec::from(*word)
    }

    /// Any number of bytes up to eight. Out of line: guests mostly load eight.
    #[inline(never)]
    fn load_few(&self, at: usize, count: u8) -> Bytes8
        requires bound { count ≤ 8 }
        requires inside { at + count ≤ 4096 }
        ensures { result.items ≡ take count (drop at self.now) }
    {
        let mut bytes = ArrayVec::new();
        let part = &self.bytes[at..at + count as usize];
        let _ = bytes.try_extend_from_slice(part);
        bytes
    }

    /// Replaces the bytes from the offset `at` on. They must be within the page. Eight or four bytes,
    /// the usual sizes, are moved as one word each. Inlined, so that a caller that knows the size
    /// tests none.
    #[inline(always)]
    pub fn store(&mut self, at: usize, bytes: &[u8])
        requires { at + length bytes.now ≤ 4096 }
        ensures after { self.new ≡ overwritten self.old at bytes.now }
        ensures len { length self.old ≡ 4096 }
    {
        match bytes.len() {
            8 => self.put::<8>(at, bytes),
            4 => self.put::<4>(at, bytes),
            count => self.bytes[at..at + count].copy_from_slice(bytes),
        }
    }

    /// Replaces N bytes, all that there are.
    #[inline(always)]
    fn put<const N: usize>(&mut self, at: usize, bytes: &[u8])
        requires count { length bytes.now ≡ N }
        requires inside { at + N ≤ 4096 }
        ensures after { self.new ≡ overwritten self.old at bytes.now }
        ensures len { length self.old ≡ 4096 }
    {
        let Some(whole) = bytes.as_array::<N>() else {
            unreachable!()
        };
        self.put_whole(at, whole);
    }

    /// Replaces as many bytes as an array has.
    #[inline(always)]
    fn put_whole<const N: usize>(&mut self, at: usize, bytes: &[u8; N])
        requires { at + N ≤ 4096 }
        ensures after { self.new ≡ overwritten self.old at bytes.now }
        ensures len { length self.old ≡ 4096 }
    {
        assign(&mut self.bytes[at..at + N], bytes);
    }

    /// Replaces the slot of a source.
    pub fn write_slot(&mut self, sint: Sint, slot: &[u8; 256])
        ensures { self.new ≡ with_slot self.old sint slot.now }
    {
        let at = SLOT_SIZE * sint.number() as usize;
        self.put_whole(at, slot);
    }

    /// Sets all bytes to zero.
    pub fn erase(&mut self)
        ensures { self.new ≡ zero_page }
    {
        self.bytes.fill(0);
    }

    /// Replaces the slot of a source by a header, a payload of at most 240 bytes, and zeros. In
    /// place, so that a payload of a known length is moved as words.
    #[inline(always)]
    pub fn write_message(&mut self, sint: Sint, header: &[u8; HEADER_SIZE], payload: &[u8])
        requires { length payload.now ≤ 240 }
        ensures { self.new ≡ with_slot self.old sint (message_bytes header.now payload.now) }
    {
        let at = SLOT_SIZE * sint.number() as usize;
        fill_slot(&mut self.bytes[at..at + SLOT_SIZE], header, payload);
    }

    /// Sets a bit, 0 to 7, of the byte at `at`, and returns whether it was clear.
    #[tactic(auto, using(crate::proofs::Bits::bit_is_clear))]
    pub fn set_bit(&mut self, at: usize, bit: u8) -> bool
        requires inside { at < 4096 }
        requires bit { bit < 8 }
        ensures fresh { result ≡ not (is_set self.old at bit) }
        ensures after { self.new ≡ with_bit self.old at bit }
    {
        let mask = 1 << bit;
        let before = self.bytes[at];
        self.bytes[at] = before | mask;
        before & mask == 0
    }
}

/// Replaces all bytes of a slice by those of an array. An array is moved as words, with no test
/// whether the two places overlap.
#[inline(always)]
fn assign<const N: usize>(place: &mut [u8], bytes: &[u8; N])
    requires { length place.old ≡ N }
    ensures after { place.new ≡ bytes.now }
    ensures len { length place.new ≡ length place.old }
{
    let Some(place) = place.as_mut_array::<N>() else {
        unreachable!()
    };
    *place = *bytes;
}

/// Replaces the bytes of a slot by a header, a payload, and zeros. The slot is set to zero first:
/// its size is known, so that takes stores of words and no call.
#[inline(always)]
fn fill_slot(slot: &mut [u8], header: &[u8; HEADER_SIZE], payload: &[u8])
    requires whole { length slot.old ≡ 256 }
    requires fits { length payload.now ≤ 240 }
    ensures after { slot.new ≡ message_bytes header.now payload.now }
    ensures len { length slot.new ≡ length slot.old }
{
    assign(slot, &[0; SLOT_SIZE]);
    assign(&mut slot[..HEADER_SIZE], header);
    fill(&mut slot[HEADER_SIZE..HEADER_SIZE + payload.len()], payload);
}

/// Replaces all bytes of a slice by as many others. The 24 bytes of a timer's payload are moved as
/// words.
#[inline(always)]
fn fill(place: &mut [u8], bytes: &[u8])
    requires { length place.old ≡ length bytes.now }
    ensures after { place.new ≡ bytes.now }
    ensures len { length place.new ≡ length place.old }
{
    match bytes.as_array::<TIMER_PAYLOAD_SIZE>() {
        Some(whole) => assign(place, whole),
        None => place.copy_from_slice(bytes),
    }
}

/// Each element of a slice of bytes is a byte.
fn are_bytes(bytes: &[u8])
    ensures { AreBytes bytes.now }
{
    let _count = bytes.len();
}
