// A script, a crew script, a trace and an image, with a reader and a writer that do not allocate.
use crate::stopped::{Stopped, ended};
use board_script::{CheckEnd, CrewRun, ReplayEnd, check_trace, crew, crew_on, replay};
use board_threads::OpenGate;
use std::alloc::Global;
use std::io::Cursor;
use std::sync::Wait;
use std::thread::Threads;
use synic_board::Board;
use text_image::{SaveEnd, save};

/// The output and its length.
type Written = Cursor<[u8; 256]>;

fn nothing() -> Written {
    Cursor::new([0; 256])
}

/// Whether the output is this text.
fn has(written: &Written, text: &[u8]) -> bool {
    written.position() == text.len() as u64 && written.get_ref().starts_with(text)
}

/// Whether the output is a prefix of this text.
fn begins(written: &Written, text: &[u8]) -> bool {
    match written.get_ref().get(..written.position() as usize) {
        Some(begun) => text.starts_with(begun),
        None => false,
    }
}

/// The result of a call with an allocation failure: the output is a prefix of the text.
fn wanted(written: &Written, text: &[u8]) -> Result<bool, Stopped> {
    if begins(written, text) {
        Err(Stopped::Memory)
    } else {
        Err(Stopped::Otherwise)
    }
}

pub(crate) fn replayed(alloc: Global) -> Result<bool, Stopped> {
    let answers = b"= done\n. requested 0 60\n= taken 60\n";
    let mut script = b"board 1 1 0\nassert 0 60\ntake 0\n".as_slice();
    let mut written = nothing();
    match replay(alloc, &mut script, &mut written) {
        ReplayEnd::Done => ended(has(&written, answers)),
        ReplayEnd::Memory => wanted(&written, answers),
        _ => Err(Stopped::Otherwise),
    }
}

pub(crate) fn checked(alloc: Global) -> Result<bool, Stopped> {
    let mut trace =
        b"trace 2\nboard 1 1 7\n0 assert 0 60\n= done\n0 reset 0\n= done\nend 2 7\n".as_slice();
    let mut written = nothing();
    match check_trace(alloc, &mut trace, &mut written) {
        CheckEnd::Legal(count) => ended(count == 2 && has(&written, b"legal 2\n")),
        CheckEnd::Memory => wanted(&written, b""),
        _ => Err(Stopped::Otherwise),
    }
}

/// The only trace of the crew script.
const TRACE: &str = concat!(
    "trace 2\nboard 1 1 0\n0 assert 0 60\n= done\n1 take 0\n= taken 60\n",
    "0 absorb 0 0 0\n= done\n0 absorb 0 1 0\n= done\n",
    "0 absorb 0 2 0\n= done\n0 absorb 0 3 0\n= done\nend 6 0\n"
);

pub(crate) fn crewed<R: Threads + Wait + Sync>(rt: &R, alloc: Global) -> Result<bool, Stopped> {
    let mut script = b"board 1 1 0\nassert 0 60\nactor\ntake 0\nline\n".as_slice();
    let mut written = nothing();
    match crew(rt, alloc, &mut script, &mut written, &OpenGate) {
        CrewRun::Done => ended(has(&written, TRACE.as_bytes())),
        CrewRun::Memory | CrewRun::NoThread => wanted(&written, TRACE.as_bytes()),
        _ => Err(Stopped::Otherwise),
    }
}

/// The only trace of its sections on the board of an image.
const TRACE_FROM_IMAGE: &str = concat!(
    "trace 3\nimage 1\nboard 1 1 5\nlapic 0 0 0 0 0 0 0 0 0 0 running\nend\n",
    "0 assert 0 60\n= done\n1 take 0\n= taken 60\n",
    "0 absorb 0 0 0\n= done\n0 absorb 0 1 0\n= done\n",
    "0 absorb 0 2 0\n= done\n0 absorb 0 3 0\n= done\nend 6 5\n"
);

pub(crate) fn crewed_on<R: Threads + Wait + Sync>(rt: &R, alloc: Global) -> Result<bool, Stopped> {
    let Ok(board) = Board::open(alloc, 1, 1, 5) else {
        return Err(Stopped::Memory);
    };
    let mut script = b"assert 0 60\nactor\ntake 0\nline\n".as_slice();
    let mut written = nothing();
    match crew_on(rt, alloc, board, &mut script, &mut written, &OpenGate) {
        CrewRun::Done => ended(has(&written, TRACE_FROM_IMAGE.as_bytes())),
        CrewRun::Memory | CrewRun::NoThread => wanted(&written, b""),
        _ => Err(Stopped::Otherwise),
    }
}

/// A save takes no memory, so only the opening of its board can fail.
pub(crate) fn saved(alloc: Global) -> Result<bool, Stopped> {
    let Ok(board) = Board::open(alloc, 1, 1, 5) else {
        return Err(Stopped::Memory);
    };
    let mut written = nothing();
    match save(&board, &mut written) {
        SaveEnd::Done => {
            let image = b"image 1\nboard 1 1 5\nlapic 0 0 0 0 0 0 0 0 0 0 running\nend\n";
            ended(has(&written, image))
        }
        SaveEnd::Writing => Err(Stopped::Otherwise),
    }
}
