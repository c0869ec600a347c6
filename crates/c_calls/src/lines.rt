// Lines, which raise vectors without the lock, and absorb them under it.
ghost use Rattle.std.specs.Prelude.{◌≡◌, ◌≢◌, ◌<◌, ◌↔◌, true, nat_eq, IsSome, None};
ghost use Rattle.posted_words.specs.Words.{AreManyWordSizes};
ghost use Rattle.c_calls.specs.Lines.{IsFirstLine, gives_none, IsSplit, has_bit, IsRaised, IsAbsorbed};

use c_handles::{BoardHandle, LineHandle, OwnedLine, SplitFault};
use c_terms::{CReply, Fault, fault_to_c, reply_to_c};
use posted_words::{PostedFault, Raised};
use std::alloc::Global;

/// Opens words for that many processors, with all bits clear, and their first line, in a closed
/// handle. Returns 0; or 1 unless there are 1 to 64 processors, 2 if an allocation fails, 3 if the
/// handle is open.
#[unsafe(no_mangle)]
pub extern "C" fn synicboard_open_line(alloc: Global, line: &mut LineHandle, processors: u8) -> u8
    ensures answers { result < 4 }
    ensures before { (result ≡ 3) ↔ IsSome line.old.line }
    ensures size { (result ≡ 1) ↔ ((line.old.line ≡ None) × (¬ AreManyWordSizes processors 64 256)) }
    ensures opened { result ≡ 0 → IsFirstLine processors line.new.line }
    ensures not_opened { result ≢ 0 → line.new.line ≡ line.old.line }
{
    if let Some(held) = line.take(alloc) {
        let _ = line.put(alloc, held);
        return 3;
    }
    let held = match OwnedLine::open(alloc, processors) {
        Ok(held) => held,
        Err(PostedFault::BadSize) => return 1,
        Err(PostedFault::Memory) => return 2,
    };
    match Box::new(alloc, held) {
        Ok(held) => {
            let _ = line.put(alloc, held);
            0
        }
        Err(_) => 2,
    }
}

/// Opens another line of the same words, for another thread, in a closed handle. Only the first
/// line of the words splits off others, 319 in all. Returns 0; or 2 if an allocation fails, 3 if the
/// other handle is open, 4 if the first handle is closed, 5 if its line has none left.
#[unsafe(no_mangle)]
pub extern "C" fn synicboard_split_line(
    alloc: Global,
    line: &mut LineHandle,
    other: &mut LineHandle,
) -> u8
    ensures answers { result < 6 }
    ensures size { result ≢ 1 }
    ensures before { (result ≡ 3) ↔ IsSome other.old.line }
    ensures closed { (result ≡ 4) ↔ ((other.old.line ≡ None) × (line.old.line ≡ None)) }
    ensures none { (result ≡ 5) ↔ ((other.old.line ≡ None) × (gives_none line.old.line ≡ true)) }
    ensures split { result ≡ 0 → IsSplit line.old.line line.new.line other.new.line }
    ensures kept { result ≢ 0 → line.new.line ≡ line.old.line }
    ensures other_kept { result ≢ 0 → other.new.line ≡ other.old.line }
{
    if let Some(held) = other.take(alloc) {
        let _ = other.put(alloc, held);
        return 3;
    }
    let Some(mut held) = line.take(alloc) else {
        return 4;
    };
    let split = held.split(alloc);
    let _ = line.put(alloc, held);
    match split {
        Ok(given) => {
            let _ = other.put(alloc, given);
            0
        }
        Err(SplitFault::NoMore) => 5,
        Err(SplitFault::Memory) => 2,
    }
}

/// Closes a line. The words are freed with their last line.
#[unsafe(no_mangle)]
pub extern "C" fn synicboard_close_line(alloc: Global, line: &mut LineHandle)
    ensures { line.new.line ≡ None }
{
    let _ = line.take(alloc);
}

/// Raises a vector, 16 to 255, of processor `vp`, by one atomic step. Never blocks. Returns 1 if
/// its bit was clear, and 2 if it was set; 0, with no effect, if the handle is closed or the words
/// have no such bit.
#[unsafe(no_mangle)]
pub extern "C" fn synicboard_raise(line: &mut LineHandle, vp: u8, vector: u8) -> u8
    ensures answers { result < 3 }
    ensures there { (result ≢ 0) ↔ (has_bit line.old.line vp vector ≡ true) }
    ensures raised { result ≢ 0 → IsRaised line.old.line vp vector (nat_eq result 1) line.new.line }
    ensures unchanged { result ≡ 0 → line.new.line ≡ line.old.line }
{
    let Some(held) = line.line_mut() else {
        return 0;
    };
    match held.raise(vp, vector) {
        Some(Raised::Fresh) => 1,
        Some(Raised::Already) => 2,
        None => 0,
    }
}

/// Takes the bits of a part, 0 to 3, of processor `vp` from the line's words, by one atomic step,
/// and has the board absorb them; `value` of the reply is these bits. If the board would refuse,
/// takes nothing.
#[unsafe(no_mangle)]
pub extern "C" fn synicboard_absorb_line(
    handle: &mut BoardHandle,
    line: &mut LineHandle,
    vp: u8,
    part: u8,
) -> CReply
    ensures { IsAbsorbed vp part handle.old.board line.old.line handle.new.board line.new.line result }
{
    let Some(board) = handle.board_mut() else {
        return fault_to_c(Fault::Closed);
    };
    let Some(held) = line.line_mut() else {
        return fault_to_c(Fault::NoLine);
    };
    let bits = held.sweep_for(board.board().processors(), vp, part);
    let reply = board.absorb(vp, part, bits);
    CReply {
        value: bits,
        ..reply_to_c(reply, board.notices().len() as u16)
    }
}
