// Jobs that read a text and write another, with a worked text for each.
use crate::peers::{Text, append};
use board_script::{CrewRun, ReplayEnd, crew, crew_on, replay};
use board_threads::OpenGate;
use std::alloc::Global;
use std::io::{Read, Write};
use std::sync::Wait;
use std::thread::Threads;
use synic_board::Board;
use text_trace::{CheckEnd, check_trace};

#[derive(Clone, Copy, PartialEq, Debug)]
pub(crate) enum Job {
    Replay,
    Check,
    Crew,
    CrewOnBoard,
}

/// The result of a job.
#[derive(Clone, Copy, PartialEq, Debug)]
pub(crate) enum End {
    Done,
    Reading,
    Writing,
    Otherwise,
}

/// Each line of a script, and its output.
const WORKED: [(&[u8], &[u8]); 10] = [
    (b"board 1 1 0\n", b""),
    (b"write 0 40000072 50\n", b"= done\n"),
    (b"assert 0 5f\n", b"= done\n. requested 0 5f\n"),
    (b"assert 0 61\n", b"= done\n. requested 0 61\n"),
    (b"take 0\n", b"= taken 61\n"),
    (b"summary\n", b": next 0 none\n: timer none\n"),
    (b"write 0 40000070 0\n", b"= done\n"),
    (b"take 0\n", b"= taken none\n"),
    (b"write 0 40000072 4f\n", b"= done\n"),
    (b"summary\n", b": next 0 5f\n: timer none\n"),
];

/// A processor takes the asserted vector.
pub(crate) const TRACE: &[u8] =
    b"trace 1\nboard 1 1 0\n0 assert 0 60\n= done\n0 take 0\n= taken 60\nend 2\n";

/// One actor that takes, and a line that raises nothing.
const TAKE: &[u8] = b"board 1 1 0\nassert 0 60\nactor\ntake 0\nline\n";

/// The only trace of that crew script.
const TAKEN: &str = concat!(
    "trace 2\nboard 1 1 0\n0 assert 0 60\n= done\n1 take 0\n= taken 60\n",
    "0 absorb 0 0 0\n= done\n0 absorb 0 1 0\n= done\n",
    "0 absorb 0 2 0\n= done\n0 absorb 0 3 0\n= done\nend 6 0\n"
);

/// The same without its board line.
const TAKE_ON_BOARD: &[u8] = b"assert 0 60\nactor\ntake 0\nline\n";

/// The only trace of that crew script on a new board, whose first ticket would be 5.
const TAKEN_ON_BOARD: &str = concat!(
    "trace 3\nimage 1\nboard 1 1 5\nlapic 0 0 0 0 0 0 0 0 0 0 running\nend\n",
    "0 assert 0 60\n= done\n1 take 0\n= taken 60\n",
    "0 absorb 0 0 0\n= done\n0 absorb 0 1 0\n= done\n",
    "0 absorb 0 2 0\n= done\n0 absorb 0 3 0\n= done\nend 6 5\n"
);

/// A text of these bytes.
fn text(bytes: &[u8]) -> Text {
    let mut text = Text::new();
    append(&mut text, bytes);
    text
}

/// The input of a job.
pub(crate) fn read_by(job: Job) -> Text {
    match job {
        Job::Replay => {
            let mut script = Text::new();
            for (line, _) in WORKED {
                append(&mut script, line);
            }
            script
        }
        Job::Check => text(TRACE),
        Job::Crew => text(TAKE),
        Job::CrewOnBoard => text(TAKE_ON_BOARD),
    }
}

/// The output of a job after it has read that many bytes: a replay answers each whole line, and the
/// others write after they have found the end, which takes one more read.
pub(crate) fn written_by(job: Job, bytes: usize) -> Text {
    match job {
        Job::Replay => {
            let mut written = Text::new();
            let mut left = bytes;
            for (line, answer) in WORKED {
                if left < line.len() {
                    break;
                }
                left -= line.len();
                append(&mut written, answer);
            }
            written
        }
        Job::Check if bytes > TRACE.len() => text(b"legal 2\n"),
        Job::Crew if bytes > TAKE.len() => text(TAKEN.as_bytes()),
        Job::CrewOnBoard if bytes > TAKE_ON_BOARD.len() => text(TAKEN_ON_BOARD.as_bytes()),
        Job::Check | Job::Crew | Job::CrewOnBoard => Text::new(),
    }
}

pub(crate) fn run<H: Threads + Wait + Sync, R: Read, W: Write>(
    rt: &H,
    alloc: Global,
    job: Job,
    reader: &mut R,
    writer: &mut W,
) -> End {
    match job {
        Job::Replay => match replay(alloc, reader, writer) {
            ReplayEnd::Done => End::Done,
            ReplayEnd::Reading => End::Reading,
            ReplayEnd::Writing => End::Writing,
            _ => End::Otherwise,
        },
        Job::Check => match check_trace(alloc, reader, writer) {
            CheckEnd::Legal(2) => End::Done,
            CheckEnd::Reading => End::Reading,
            CheckEnd::Writing => End::Writing,
            _ => End::Otherwise,
        },
        Job::Crew => end_of(crew(rt, alloc, reader, writer, &OpenGate)),
        Job::CrewOnBoard => match Board::open(alloc, 1, 1, 5) {
            Ok(board) => end_of(crew_on(rt, alloc, board, reader, writer, &OpenGate)),
            Err(_) => End::Otherwise,
        },
    }
}

fn end_of(run: CrewRun) -> End {
    match run {
        CrewRun::Done => End::Done,
        CrewRun::Reading => End::Reading,
        CrewRun::Writing => End::Writing,
        _ => End::Otherwise,
    }
}
