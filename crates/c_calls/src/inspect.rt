// Inspecting a local APIC.
ghost use Rattle.std.specs.Prelude.{◌≡◌};
ghost use Rattle.synic_board.specs.State.{processors};
ghost use Rattle.c_calls.specs.Inspected.{words_of, processor_priority, lapic_to_c, no_lapic, lapic_on, lapic_at, no_eoi_required_on, no_eoi_required_at};

use board_terms::Vp;
use c_handles::BoardHandle;
use lapic_core::{Lapic, VectorSet};
use synic_board::Board;

/// The local APIC of a processor: its requests (IRR), its vectors in service (ISR), its task
/// priority (TPR), its processor priority (PPR), and whether it is suspended. Bit i of word k is
/// vector 64 * k + i. All 0 if there is no such processor or no board.
#[repr(C)]
#[derive(Clone, Copy, PartialEq)]
pub struct CLapic {
    pub requested: [u64; 4],
    pub in_service: [u64; 4],
    pub task_priority: u8,
    pub processor_priority: u8,
    pub is_suspended: bool,
}

/// The local APIC of a processor.
#[unsafe(no_mangle)]
pub extern "C" fn synicboard_lapic(handle: &mut BoardHandle, vp: u8) -> CLapic
    ensures board { handle.new.board ≡ handle.old.board }
    ensures lapic { result ≡ lapic_at handle.old.board vp }
{
    match handle.board_mut() {
        Some(board) => of_board(board.board(), vp),
        None => nothing(),
    }
}

/// Whether no EOI is required of a processor (TLFS, "EOI Assist"): a vector is in service, and none is
/// requested. `false` if there is no such processor or no board.
#[unsafe(no_mangle)]
pub extern "C" fn synicboard_no_eoi_required(handle: &mut BoardHandle, vp: u8) -> bool
    ensures board { handle.new.board ≡ handle.old.board }
    ensures required { result ≡ no_eoi_required_at handle.old.board vp }
{
    match handle.board_mut() {
        Some(board) => is_none_required(board.board(), vp),
        None => false,
    }
}

fn is_none_required(board: &Board, vp: u8) -> bool
    ensures { result ≡ no_eoi_required_on board.now.state vp }
{
    if vp >= board.processors() {
        return false;
    }
    match Vp::new(vp) {
        Some(vp) => board.lapic(vp).is_no_end_required(),
        None => unreachable!(),
    }
}

fn of_board(board: &Board, vp: u8) -> CLapic
    ensures { result ≡ lapic_on board.now.state vp }
{
    if vp >= board.processors() {
        return nothing();
    }
    match Vp::new(vp) {
        Some(vp) => encoded(board.lapic(vp)),
        None => unreachable!(),
    }
}

/// No local APIC.
fn nothing() -> CLapic
    ensures { result ≡ no_lapic }
{
    CLapic {
        requested: [0; 4],
        in_service: [0; 4],
        task_priority: 0,
        processor_priority: 0,
        is_suspended: false,
    }
}

fn encoded(lapic: &Lapic) -> CLapic
    ensures { result ≡ lapic_to_c lapic.now }
{
    CLapic {
        requested: words(lapic.requested()),
        in_service: words(lapic.in_service()),
        task_priority: lapic.task_priority(),
        processor_priority: priority(lapic),
        is_suspended: lapic.is_suspended(),
    }
}

pub(crate) fn words(vectors: &VectorSet) -> [u64; 4]
    ensures { result ≡ words_of vectors.now }
{
    [
        vectors.word(0),
        vectors.word(1),
        vectors.word(2),
        vectors.word(3),
    ]
}

fn priority(lapic: &Lapic) -> u8
    ensures { result ≡ processor_priority lapic.now }
{
    let task = lapic.task_priority();
    match lapic.in_service().greatest() {
        Some(vector) if vector.number() / 16 > task / 16 => vector.number() / 16 * 16,
        _ => task,
    }
}
