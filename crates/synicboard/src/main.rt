//! `synicboard`: reads a script of events and writes the board's replies, or the image of the board
//! at its end, from which another script can continue; or reads a script of actors and lines and
//! writes the trace of a run; or reads a trace and writes whether it is legal.
#![tactic(auto)]

use clap::error::ErrorKind;
use clap::{Arg, ArgMatches, Command, Error};
use std::alloc::{AllocError, Global};
use std::env;
use std::fs::File;
use std::io::{self, BufWriter};
use std::process::ExitCode;
use std::sync::Wait;
use std::thread::Threads;
use synic_board::Board;
use text_crew::{CrewRun, OpenGate, crew, crew_on};
use text_restore::{RestoreEnd, restore};
use text_script::{ReplayEnd, replay, replay_on, save_script};
use text_trace::{CheckEnd, check_trace};

/// The version of the program, which is that of `include/synicboard.h`.
const VERSION: &str = "3.0.0";

const SCRIPT_FAULT: u8 = 1;

const USAGE_FAULT: u8 = 2;

const REFUSED: u8 = 3;

const NO_MEMORY: u8 = 4;

const STREAM_FAULT: u8 = 5;

/// The result of reading the command line.
#[derive(Drop)]
enum Asked {
    /// A replay, on the board of the image in a file if one is named.
    Replay(Option<String>),
    Save,
    /// A crew, on the board of the image in a file if one is named.
    Crew(Option<String>),
    Check,
    /// Nothing to do: help or an error message was printed.
    Nothing(ExitCode),
    /// The command line could not be read: an allocation failed.
    Memory,
}

fn main(rt: HostRuntime) -> ExitCode {
    match parse_command_line(&rt) {
        Asked::Replay(None) => replay_input(&rt),
        Asked::Replay(Some(path)) => replay_from(&rt, path.as_str()),
        Asked::Save => save_input(&rt),
        Asked::Crew(None) => crew_input(&rt, &rt),
        Asked::Crew(Some(path)) => crew_from(&rt, &rt, path.as_str()),
        Asked::Check => check_input(&rt),
        Asked::Nothing(code) => code,
        Asked::Memory => fail(&rt, "out of memory", NO_MEMORY),
    }
}

/// The command line of the program.
fn command<'a>(alloc: Global) -> Result<Command<'a>, AllocError> {
    let replay = Command::new(alloc, "replay")
        .about("Performs the script on standard input, and writes each reply, notice and summary")
        .arg(from(alloc))?;
    let save = Command::new(alloc, "save").about(
        "Performs the script on standard input, and writes the image of the board at its end",
    );
    let crew = Command::new(alloc, "crew")
        .about(
            "Runs the actors and lines of the script on standard input, each in a thread, and writes the trace",
        )
        .arg(from(alloc))?;
    let check = Command::new(alloc, "check").about(
        "Reads a trace on standard input, and says whether it is legal, or the first line that is wrong",
    );
    Command::new(alloc, "synicboard")
        .about("The interrupt side of a partition: a script of events in, the board's answers out")
        .version(VERSION)
        .after_help(EXAMPLE)
        .subcommand_required(true)
        .subcommand(replay)?
        .subcommand(save)?
        .subcommand(crew)?
        .subcommand(check)
}

/// The option that names an image.
fn from<'a>(alloc: Global) -> Arg<'a> {
    Arg::new(alloc, "from").long("from").value_name("FILE").help(
        "Starts on the board of this image; then the script has no board line",
    )
}

const EXAMPLE: &str =
    "Example:\n  printf 'board 1 1 0\\nassert 0 60\\ntake 0\\n' | synicboard replay";

/// Parses the command line. Help goes to standard output, and errors to standard error.
fn parse_command_line(rt: &HostRuntime) -> Asked {
    let words = match env::args(rt) {
        Ok(words) => words,
        Err(error) => return unreadable(rt, error),
    };
    let Ok(words) = words.collect::<Vec<String>>(rt.alloc()) else {
        return Asked::Memory;
    };
    let Ok(command) = command(rt.alloc()) else {
        return Asked::Memory;
    };
    match command.try_get_matches_from(words.as_slice()) {
        Ok(matches) => match matches.subcommand_name() {
            Some("save") => Asked::Save,
            Some("check") => Asked::Check,
            Some("crew") => match path_of_image(rt, &matches, "crew") {
                Ok(path) => Asked::Crew(path),
                Err(_) => Asked::Memory,
            },
            _ => match path_of_image(rt, &matches, "replay") {
                Ok(path) => Asked::Replay(path),
                Err(_) => Asked::Memory,
            },
        },
        Err(error) => show(rt, error),
    }
}

/// The file of the image that the arguments of a subcommand name, if they name one.
fn path_of_image(
    rt: &HostRuntime,
    matches: &ArgMatches<'_>,
    subcommand: &str,
) -> Result<Option<String>, AllocError> {
    let Some(words) = matches.subcommand_matches(subcommand) else {
        return Ok(None);
    };
    let Some(path) = words.get_str("from") else {
        return Ok(None);
    };
    let path = format!(in rt.alloc(); "{path}")?;
    Ok(Some(path))
}

/// Reports why the arguments could not be read.
fn unreadable(rt: &HostRuntime, error: io::Error) -> Asked {
    if error.kind() == io::ErrorKind::OutOfMemory {
        Asked::Memory
    } else {
        Asked::Nothing(fail(rt, "an argument is not UTF-8", USAGE_FAULT))
    }
}

/// Prints the message of the parser: help, or an error.
fn show(rt: &HostRuntime, error: Error) -> Asked {
    if error.kind() == ErrorKind::OutOfMemory {
        return Asked::Memory;
    }
    let shown = error.print(rt).is_ok();
    if error.use_stderr() {
        return Asked::Nothing(ExitCode::from(USAGE_FAULT));
    }
    if shown {
        Asked::Nothing(ExitCode::SUCCESS)
    } else {
        Asked::Nothing(fail(rt, "write failed", STREAM_FAULT))
    }
}

/// Replays standard input to standard output.
fn replay_input(rt: &HostRuntime) -> ExitCode {
    let mut reader = rt.reader();
    let Ok(mut writer) = BufWriter::new(rt.alloc(), io::writer(rt)) else {
        return fail(rt, "out of memory", NO_MEMORY);
    };
    let end = replay(rt.alloc(), &mut reader, &mut writer);
    status_of(rt, end)
}

/// Restores the board of an image, and replays standard input on it to standard output.
fn replay_from(rt: &HostRuntime, path: &str) -> ExitCode {
    match restore_file(rt, path) {
        RestoreEnd::Restored(board) => replay_input_on(rt, board),
        fault => restore_fault(rt, &fault),
    }
}

/// The status if no board was restored, with its message.
fn restore_fault(rt: &HostRuntime, fault: &RestoreEnd) -> ExitCode {
    match fault {
        RestoreEnd::Refused(line) => {
            let _ = eprintln!(rt; "synicboard: line {line} of the image is wrong");
            ExitCode::from(REFUSED)
        }
        RestoreEnd::Memory => fail(rt, "out of memory", NO_MEMORY),
        RestoreEnd::Restored(_) | RestoreEnd::Reading => fail(rt, "read failed", STREAM_FAULT),
    }
}

/// Restores the board of the image in a file.
fn restore_file(rt: &HostRuntime, path: &str) -> RestoreEnd {
    match File::open(rt, path) {
        Ok(mut file) => restore(rt.alloc(), &mut file),
        Err(error) if error.kind() == io::ErrorKind::OutOfMemory => RestoreEnd::Memory,
        Err(_) => RestoreEnd::Reading,
    }
}

/// Replays standard input on a board to standard output.
fn replay_input_on(rt: &HostRuntime, board: Board) -> ExitCode {
    let mut reader = rt.reader();
    let Ok(mut writer) = BufWriter::new(rt.alloc(), io::writer(rt)) else {
        return fail(rt, "out of memory", NO_MEMORY);
    };
    let end = replay_on(rt.alloc(), board, &mut reader, &mut writer);
    status_of(rt, end)
}

/// Writes the image of the board after the script of standard input to standard output.
fn save_input(rt: &HostRuntime) -> ExitCode {
    let mut reader = rt.reader();
    let Ok(mut writer) = BufWriter::new(rt.alloc(), io::writer(rt)) else {
        return fail(rt, "out of memory", NO_MEMORY);
    };
    let end = save_script(rt.alloc(), &mut reader, &mut writer);
    status_of(rt, end)
}

/// The status of a replay or a save, with its message.
fn status_of(rt: &HostRuntime, end: ReplayEnd) -> ExitCode {
    match end {
        ReplayEnd::Done => ExitCode::SUCCESS,
        ReplayEnd::Script { .. } => ExitCode::from(SCRIPT_FAULT),
        ReplayEnd::Memory => fail(rt, "out of memory", NO_MEMORY),
        ReplayEnd::Reading => fail(rt, "read failed", STREAM_FAULT),
        ReplayEnd::Writing => fail(rt, "write failed", STREAM_FAULT),
    }
}

/// Runs the crew on standard input, and writes its trace to standard output.
fn crew_input<T: Threads + Wait + Sync>(threads: &T, rt: &HostRuntime) -> ExitCode {
    let mut reader = rt.reader();
    let Ok(mut writer) = BufWriter::new(rt.alloc(), io::writer(rt)) else {
        return fail(rt, "out of memory", NO_MEMORY);
    };
    let end = crew(threads, rt.alloc(), &mut reader, &mut writer, &OpenGate);
    crew_status(rt, end)
}

/// Restores the board of an image, and runs the crew on standard input on it.
fn crew_from<T: Threads + Wait + Sync>(threads: &T, rt: &HostRuntime, path: &str) -> ExitCode {
    let board = match restore_file(rt, path) {
        RestoreEnd::Restored(board) => board,
        fault => return restore_fault(rt, &fault),
    };
    let mut reader = rt.reader();
    let Ok(mut writer) = BufWriter::new(rt.alloc(), io::writer(rt)) else {
        return fail(rt, "out of memory", NO_MEMORY);
    };
    let end = crew_on(
        threads,
        rt.alloc(),
        board,
        &mut reader,
        &mut writer,
        &OpenGate,
    );
    crew_status(rt, end)
}

/// The status of a crew, with its message.
fn crew_status(rt: &HostRuntime, end: CrewRun) -> ExitCode {
    match end {
        CrewRun::Done => ExitCode::SUCCESS,
        CrewRun::Script { .. } => ExitCode::from(SCRIPT_FAULT),
        CrewRun::Unsettled => ExitCode::from(REFUSED),
        CrewRun::Memory => fail(rt, "out of memory", NO_MEMORY),
        CrewRun::NoThread => fail(rt, "no thread", NO_MEMORY),
        CrewRun::Reading => fail(rt, "read failed", STREAM_FAULT),
        CrewRun::Writing => fail(rt, "write failed", STREAM_FAULT),
    }
}

/// Checks the trace on standard input.
fn check_input(rt: &HostRuntime) -> ExitCode {
    let mut reader = rt.reader();
    let Ok(mut writer) = BufWriter::new(rt.alloc(), io::writer(rt)) else {
        return fail(rt, "out of memory", NO_MEMORY);
    };
    match check_trace(rt.alloc(), &mut reader, &mut writer) {
        CheckEnd::Legal(_) => ExitCode::SUCCESS,
        CheckEnd::Refused(_) => ExitCode::from(REFUSED),
        CheckEnd::Memory => fail(rt, "out of memory", NO_MEMORY),
        CheckEnd::Reading => fail(rt, "read failed", STREAM_FAULT),
        CheckEnd::Writing => fail(rt, "write failed", STREAM_FAULT),
    }
}

/// Prints to standard error what failed. A failure to print changes no status.
fn fail(rt: &HostRuntime, what: &str, status: u8) -> ExitCode {
    let _ = eprintln!(rt; "synicboard: {what}");
    ExitCode::from(status)
}
