// Forwarding requested vectors to a local APIC outside the board.
ghost use Rattle.std.specs.Prelude.{◌≡◌, ◌<◌, ◌≤◌, None, Some, IfSome, IfNone};
ghost use Rattle.synic_board.specs.State.{processors};
ghost use Rattle.c_handles.specs.Kinds.{state_in};
ghost use Rattle.c_calls.specs.Forwarded.{forwarded_to_c, no_forwarded, IsForwardedOn};

use crate::inspect::words;
use board_terms::{Refusal, Vp};
use c_handles::{AnyBoard, BoardHandle, Forwarded};
use c_terms::{CReply, Fault, fault_to_c, reply_to_c};
use synic_board::Reply;

/// What a processor forwards to a local APIC outside the board: all vectors, and those of them that are
/// auto-EOI on the processor. Bit i of word k is vector 64 * k + i.
#[repr(C)]
#[derive(Clone, Copy, PartialEq)]
pub struct CForwarded {
    pub vectors: [u64; 4],
    pub auto_eoi: [u64; 4],
}

/// Forwards the requested vectors of processor `vp` to a local APIC outside the board: each is taken and
/// ended at once. Stores them in `forwarded`. Done; refused if there is no such processor. Leaves no notices.
#[unsafe(no_mangle)]
pub extern "C" fn synicboard_forward(
    handle: &mut BoardHandle,
    vp: u8,
    forwarded: &mut CForwarded,
) -> CReply
    ensures { IsForwardedOn vp handle.old.board handle.new.board forwarded.new result }
{
    *forwarded = none();
    match handle.board_mut() {
        Some(board) => forward_in(board, vp, forwarded),
        None => fault_to_c(Fault::Closed),
    }
}

fn forward_in(board: &mut AnyBoard, vp: u8, forwarded: &mut CForwarded) -> CReply
    requires { forwarded.old ≡ no_forwarded }
    ensures { IsForwardedOn vp (Some board.old) (Some board.new) forwarded.new result }
{
    let Some(vp) = vp_of(board, vp) else {
        return reply_to_c(Reply::Refused(Refusal::NoSuchProcessor), 0);
    };
    *forwarded = encoded(&board.forward(vp));
    reply_to_c(Reply::Done, 0)
}

/// A processor, if it is on the board.
fn vp_of(board: &AnyBoard, vp: u8) -> Option<Vp>
    ensures some { IfSome result (λ p. (p ≡ vp) × (vp < processors (state_in board.now))) }
    ensures none { IfNone result (processors (state_in board.now) ≤ vp) }
{
    if vp < board.board().processors() {
        Vp::new(vp)
    } else {
        None
    }
}

fn none() -> CForwarded
    ensures { result ≡ no_forwarded }
{
    CForwarded {
        vectors: [0; 4],
        auto_eoi: [0; 4],
    }
}

fn encoded(forwarded: &Forwarded) -> CForwarded
    ensures { result ≡ forwarded_to_c forwarded.now }
{
    CForwarded {
        vectors: words(&forwarded.vectors),
        auto_eoi: words(&forwarded.auto_eoi),
    }
}
