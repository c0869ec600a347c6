//! The command line of a benchmark: which workload, and how many operations.
#![tactic(auto)]

mod faults;

use clap::error::ErrorKind;
use clap::{Arg, Command, Error};
pub use faults::Fault;
use std::alloc::{AllocError, Global};
use std::process::ExitCode;
use std::{env, io};
use thiserror::Error;

/// The exit status for a wrong command line.
pub const USAGE_FAULT: u8 = 2;

/// A benchmark, as its help describes it.
#[derive(Drop)]
pub struct Program<'a> {
    /// Its name.
    pub name: &'a str,
    /// What it does.
    pub about: &'a str,
    /// The names of its workloads.
    pub workloads: &'a [&'a str],
    /// The unit that it counts.
    pub unit: &'a str,
    /// The help for the number of operations, which names the default.
    pub unit_help: &'a str,
    /// The default number of operations.
    pub bound: u32,
    /// What it writes.
    pub output: &'a str,
}

/// An option of a benchmark that takes one of some words.
#[derive(Drop)]
pub struct Choice<'a> {
    /// Its name, without the dashes.
    pub name: &'a str,
    /// What it chooses, and the default.
    pub help: &'a str,
    /// The words.
    pub words: &'a [&'a str],
}

/// The result of reading a command line.
#[derive(Drop)]
pub enum Asked {
    /// The workload with that index among the names, or all of them, with that many operations
    /// each.
    Measurements(Option<usize>, u32),
    /// Nothing to do: help or an error message was printed.
    Nothing(ExitCode),
}

/// Why a command line could not be read or answered.
#[derive(Clone, Copy, PartialEq, Eq, Debug, Drop, Error)]
pub enum LineFault {
    #[error("an argument is not UTF-8")]
    NotText,
    #[error("out of memory")]
    Memory,
    #[error("a line was not written, or there is no clock")]
    Stream,
}

impl From<AllocError> for LineFault {
    fn from(_: AllocError) -> LineFault {
        LineFault::Memory
    }
}

impl From<io::Error> for LineFault {
    fn from(error: io::Error) -> LineFault {
        if error.kind() == io::ErrorKind::OutOfMemory {
            LineFault::Memory
        } else {
            LineFault::Stream
        }
    }
}

impl Program<'_> {
    /// Reads the command line. Prints help and error messages.
    pub fn asked(&self, rt: &HostRuntime) -> Result<Asked, LineFault> {
        let (asked, _) = self.asked_with(rt, None)?;
        Ok(asked)
    }

    /// The same with an option, and the index of its word; `None` if the command line has no such option.
    pub fn asked_with(
        &self,
        rt: &HostRuntime,
        choice: Option<&Choice<'_>>,
    ) -> Result<(Asked, Option<usize>), LineFault> {
        let words = match env::args(rt) {
            Ok(words) => words.collect::<Vec<String>>(rt.alloc())?,
            Err(error) if error.kind() == io::ErrorKind::InvalidData => {
                return Err(LineFault::NotText);
            }
            Err(error) => return Err(LineFault::from(error)),
        };
        let command = self.command(rt.alloc(), choice)?;
        let matches = match command.try_get_matches_from(words.as_slice()) {
            Ok(matches) => matches,
            Err(error) => return Ok((say(rt, error)?, None)),
        };
        let chosen = index_of(self.workloads, matches.get_str("workload"));
        let count = matches.get_one::<u32>(self.unit).unwrap_or(self.bound);
        let word = match choice {
            Some(choice) => index_of(choice.words, matches.get_str(choice.name)),
            None => None,
        };
        Ok((Asked::Measurements(chosen, count), word))
    }

    fn command<'a>(
        &'a self,
        alloc: Global,
        choice: Option<&'a Choice<'_>>,
    ) -> Result<Command<'a>, AllocError> {
        let workload = Arg::new(alloc, "workload")
            .help("What is measured [default: all]")
            .value_parser(self.workloads);
        let count = Arg::new(alloc, self.unit)
            .help(self.unit_help)
            .value_parser(clap::value_parser!(u32).range(1..));
        let command = Command::new(alloc, self.name)
            .about(self.about)
            .after_help(self.output)
            .arg(workload)?
            .arg(count)?;
        let Some(choice) = choice else {
            return Ok(command);
        };
        let option = Arg::new(alloc, choice.name)
            .long(choice.name)
            .value_name("N")
            .help(choice.help)
            .value_parser(choice.words);
        command.arg(option)
    }
}

/// The index of a word among some.
fn index_of(words: &[&str], word: Option<&str>) -> Option<usize> {
    let word = word?;
    words.iter().position(|name| *name == word)
}

/// Prints the message of the parser: help, or an error.
fn say(rt: &HostRuntime, error: Error) -> Result<Asked, LineFault> {
    if error.kind() == ErrorKind::OutOfMemory {
        return Err(LineFault::Memory);
    }
    error.print(rt)?;
    let code = if error.use_stderr() {
        ExitCode::from(USAGE_FAULT)
    } else {
        ExitCode::SUCCESS
    };
    Ok(Asked::Nothing(code))
}
