//! What the contracts of a live page and of a board with live pages say of memory, as small programs of
//! a host and a guest. Each is proved from public clauses alone.
#![tactic(auto)]

mod board;

ghost use Rattle.std.specs.Prelude.{◌≡◌, ◌<◌, bit_or};

pub use board::{a_message_is_read_whole, a_signal_is_found};
use live_pages::{Guest, LivePage};

/// The host finds what the guest stored.
pub fn a_guests_store_is_found(
    page: &mut LivePage,
    guest: Guest,
    word: usize,
    value: u64,
) -> (u64, Guest)
    requires own { guest.of ≡ page.old.name }
    requires word { word < 512 }
    ensures { result.0 ≡ value }
{
    let guest = page.guest_store(guest, word, value);
    let found = page.load(word);
    let (_, after) = page.guest_load(guest, word);
    (found, after)
}

/// The guest finds what the host stored.
pub fn a_hosts_store_is_found(
    page: &mut LivePage,
    guest: Guest,
    word: usize,
    value: u64,
) -> (u64, Guest)
    requires own { guest.of ≡ page.old.name }
    requires word { word < 512 }
    ensures { result.0 ≡ value }
{
    let (_, guest) = page.guest_load(guest, word);
    page.store(word, value);
    page.guest_load(guest, word)
}

/// The guest finds the bits that the host set, and the host has found what the guest stored.
pub fn an_or_is_found(
    page: &mut LivePage,
    guest: Guest,
    word: usize,
    value: u64,
    mask: u64,
) -> (u64, u64, Guest)
    requires own { guest.of ≡ page.old.name }
    requires word { word < 512 }
    ensures found { result.0 ≡ value }
    ensures set { result.1 ≡ bit_or value mask }
{
    let guest = page.guest_store(guest, word, value);
    let found = page.fetch_or(word, mask);
    let (set, guest) = page.guest_load(guest, word);
    (found, set, guest)
}

/// While the guest does not store, the host finds what it stored.
pub fn an_own_store_is_found(
    page: &mut LivePage,
    guest: Guest,
    word: usize,
    value: u64,
) -> (u64, Guest)
    requires own { guest.of ≡ page.old.name }
    requires word { word < 512 }
    ensures { result.0 ≡ value }
{
    let (_, before) = page.guest_load(guest, word);
    page.store(word, value);
    let found = page.load(word);
    let (_, after) = page.guest_load(before, word);
    (found, after)
}
