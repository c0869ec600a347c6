// Scripts, traces and images in buffers.
ghost use Rattle.std.specs.Prelude.{◌≡◌, ◌≢◌, ◌<◌, ◌↔◌, true, [], ◌∷◌, None, Some};
ghost use Rattle.text_history.specs.Trace.{IsTrace};
ghost use Rattle.text_trace.specs.Verdicts.{FirstIllegal};
ghost use Rattle.c_terms.specs.Events.{event_from_c};
ghost use Rattle.c_terms.specs.Replies.{reply_from_c};
ghost use Rattle.c_terms.specs.Entries.{entry_text};
ghost use Rattle.c_calls.specs.Outcomes.{is_among};
ghost use Rattle.c_calls.specs.Texts.{IsReplay, IsSaved, AreLines};

use c_handles::{AnyBoard, BoardHandle};
use c_terms::{CEvent, CReply, EntryFault, lines_of, put_bytes};
use std::alloc::Global;
use text_image::put_image;
use text_script::{ReplayEnd, replay};
use text_trace::{CheckEnd, check_trace};

/// The result of a call that writes a text, or reads an image. `kind` is 0 if no line is wrong, 10 if
/// `line` is the first wrong line, 2 if an allocation failed, 3 if the handle to restore a board in is
/// open, 4 if the handle of the board is closed, and 11 for a text of more than 1,073,741,824 bytes.
/// `length` is the length of the whole output, or 0.
#[repr(C)]
#[derive(Clone, Copy)]
pub struct CEnd {
    pub kind: u8,
    pub line: u64,
    pub length: usize,
}

/// The result of a check. `kind` is 0 for the trace of a legal history of `entries` entries, 10 if
/// `line` is the first wrong line, 2 if an allocation failed, and 11 for a text of more than
/// 1,073,741,824 bytes.
#[repr(C)]
#[derive(Clone, Copy)]
pub struct CVerdict {
    pub kind: u8,
    pub entries: u64,
    pub line: u64,
}

/// The result without an output, because of a wrong line or for another reason.
pub(crate) fn not_written(kind: u8, line: u64) -> CEnd
    ensures { result ≡ record { kind = kind; line = line; length = 0 } }
{
    CEnd {
        kind,
        line,
        length: 0,
    }
}

/// Performs a script on a board of its own, and writes its output to a buffer, as much as fits.
/// Allocates a board and the output.
#[unsafe(no_mangle)]
pub extern "C" fn synicboard_replay(alloc: Global, script: &[u8], room: &mut [u8]) -> CEnd
    ensures { IsReplay script.now room.old room.new result }
{
    let mut reader = script;
    let mut text = Vec::new(alloc);
    let (kind, line) = match replay(alloc, &mut reader, &mut text) {
        ReplayEnd::Done => (0, 0),
        ReplayEnd::Script { line, .. } => (10, line),
        ReplayEnd::Memory | ReplayEnd::Writing => return not_written(2, 0),
        ReplayEnd::Reading => return not_written(11, 0),
    };
    put_bytes(text.as_slice(), room);
    let length = text.len();
    CEnd { kind, line, length }
}

/// Writes the image of a board to a buffer, as much as fits. If the board has live pages, all words of those
/// that the guest sees are looked at first. Allocates the image.
#[unsafe(no_mangle)]
pub extern "C" fn synicboard_save(alloc: Global, handle: &mut BoardHandle, room: &mut [u8]) -> CEnd
    ensures { IsSaved handle.old.board handle.new.board room.old room.new result }
{
    match handle.board_mut() {
        Some(board) => save(alloc, board, room),
        None => not_written(4, 0),
    }
}

fn save(alloc: Global, board: &mut AnyBoard, room: &mut [u8]) -> CEnd
    ensures { IsSaved (Some board.old) (Some board.new) room.old room.new result }
{
    board.refresh_all();
    let mut image: Vec<u8> = Vec::new(alloc);
    if put_image(&mut image, board.board()).is_err() {
        return not_written(2, 0);
    }
    put_bytes(image.as_slice(), room);
    CEnd {
        kind: 0,
        line: 0,
        length: image.len(),
    }
}

/// Checks whether a text is the trace of a legal history. Allocates a board.
#[unsafe(no_mangle)]
pub extern "C" fn synicboard_check(alloc: Global, trace: &[u8]) -> CVerdict
    ensures kinds { is_among (0 ∷ 2 ∷ 10 ∷ 11 ∷ []) result.kind ≡ true }
    ensures legal { result.kind ≡ 0 → IsTrace trace.now result.entries }
    ensures entries { result.kind ≢ 0 → result.entries ≡ 0 }
    ensures wrong { result.kind ≡ 10 → FirstIllegal trace.now result.line }
    ensures line { result.kind ≢ 10 → result.line ≡ 0 }
{
    let mut reader = trace;
    let mut text = Vec::new(alloc);
    let (kind, entries, line) = match check_trace(alloc, &mut reader, &mut text) {
        CheckEnd::Legal(entries) => (0, entries, 0),
        CheckEnd::Refused(line) => (10, 0, line),
        CheckEnd::Memory | CheckEnd::Writing => (2, 0, 0),
        CheckEnd::Reading => (11, 0, 0),
    };
    CVerdict {
        kind,
        entries,
        line,
    }
}

/// Writes the two lines of a trace entry for an actor's event and its reply to a buffer, as much as
/// fits. Line 1 is wrong if `event` encodes no event, and otherwise line 2 if `reply` encodes no
/// reply of a board. Allocates the lines.
#[unsafe(no_mangle)]
pub extern "C" fn synicboard_format_entry(
    alloc: Global,
    actor: u8,
    event: &CEvent,
    reply: &CReply,
    room: &mut [u8],
) -> CEnd
    ensures kinds { is_among (0 ∷ 2 ∷ 10 ∷ []) result.kind ≡ true }
    ensures emitted { result.kind ≡ 0
        → AreLines (entry_text actor (event_from_c event.now) (reply_from_c reply.now)) room.old room.new
        result.length }
    ensures event { (result.line ≡ 1) ↔ (event_from_c event.now ≡ None) }
    ensures reply { (result.line ≡ 2) ↔ ((event_from_c event.now ≢ None) × (reply_from_c reply.now ≡ None)) }
    ensures line { (result.kind ≡ 10) ↔ (result.line ≢ 0) }
    ensures lines { result.line < 3 }
    ensures not_written { result.kind ≢ 0 → result.length ≡ 0 }
    ensures room { result.kind ≢ 0 → room.new ≡ room.old }
{
    match lines_of(alloc, actor, event, reply) {
        Ok(lines) => {
            put_bytes(lines.as_slice(), room);
            CEnd {
                kind: 0,
                line: 0,
                length: lines.len(),
            }
        }
        Err(EntryFault::NoEvent) => not_written(10, 1),
        Err(EntryFault::NoReply) => not_written(10, 2),
        Err(EntryFault::Memory) => not_written(2, 0),
    }
}
