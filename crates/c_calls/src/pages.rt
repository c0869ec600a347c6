// The addresses of the board's pages.
ghost use Rattle.std.specs.Prelude.{◌≡◌, false};
ghost use Rattle.board_terms.specs.declared.pages.Kind.TheVariants as kind;
ghost use Rattle.c_calls.specs.Looks.{has_own_page, has_guest_page};

use board_terms::{Kind, Vp};
use c_handles::BoardHandle;
use std::ptr::from_ref;

/// Stores the address of the message page of a processor, 4096 bytes, visible or not. Returns
/// whether there is one. The page may be read until the board is closed, but not while a call runs.
#[unsafe(no_mangle)]
pub extern "C" fn synicboard_message_page(
    handle: &mut BoardHandle,
    vp: u8,
    page: &mut *const u8,
) -> bool
    ensures board { handle.new.board ≡ handle.old.board }
    ensures found { result ≡ has_own_page handle.old.board vp kind.Sim }
    ensures kept { result ≡ false → page.new ≡ page.old }
{
    own_page(handle, vp, Kind::Sim, page)
}

/// Stores the address of the event flags page of a processor, 4096 bytes, visible or not. Returns
/// whether there is one. The page may be read until the board is closed, but not while a call runs.
#[unsafe(no_mangle)]
pub extern "C" fn synicboard_flag_page(
    handle: &mut BoardHandle,
    vp: u8,
    page: &mut *const u8,
) -> bool
    ensures board { handle.new.board ≡ handle.old.board }
    ensures found { result ≡ has_own_page handle.old.board vp kind.Sief }
    ensures kept { result ≡ false → page.new ≡ page.old }
{
    own_page(handle, vp, Kind::Sief, page)
}

fn own_page(handle: &mut BoardHandle, vp: u8, kind: Kind, page: &mut *const u8) -> bool
    ensures board { handle.new.board ≡ handle.old.board }
    ensures found { result ≡ has_own_page handle.old.board vp kind }
    ensures kept { result ≡ false → page.new ≡ page.old }
{
    let (Some(board), Some(vp)) = (handle.board_mut(), Vp::new(vp)) else {
        return false;
    };
    let Some(bytes) = board.board().own_page(vp, kind) else {
        return false;
    };
    *page = from_ref(&bytes[0]);
    true
}

/// Stores the address of a guest page, 4096 bytes, without the overlays that obscure it. Returns
/// whether there is one. The page may be read until the board is closed, but not while a call runs.
#[unsafe(no_mangle)]
pub extern "C" fn synicboard_guest_page(
    handle: &mut BoardHandle,
    number: u64,
    page: &mut *const u8,
) -> bool
    ensures board { handle.new.board ≡ handle.old.board }
    ensures found { result ≡ has_guest_page handle.old.board number }
    ensures kept { result ≡ false → page.new ≡ page.old }
{
    let Some(board) = handle.board_mut() else {
        return false;
    };
    let Some(bytes) = board.board().guest_page(number) else {
        return false;
    };
    *page = from_ref(&bytes[0]);
    true
}
