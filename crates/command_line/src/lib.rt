//! The command line of `fascia` and `inspect`: the file that it names, help and the version, and what is said on standard
//! error where nothing is reported. A crate of its own, so that the tests and edits of panel_program do without clap.

#![tactic(auto)]

ghost use Rattle.std.specs.Prelude.{◌≡◌, ◌≤◌};
ghost use Rattle.std.specs.Process.{exit_status};

use clap::builder::ValueParser;
use clap::error::ErrorKind as WordsErrorKind;
use clap::{Arg, ArgMatches, Command, Error};
use panel_program::{Report, RunError, Verdict, run, status_of};
use std::alloc::{AllocError, Global};
use std::env::Env;
use std::fs::{File, Files};
use std::io::{ErrorKind, Input};
use std::process::ExitCode;
use std::{env, fmt, io};

// The toolchain that proves the programs, as its command `rt version` prints it.
const TOOLCHAIN: &str = "rattle-kit-13f logic dac8208d650f15bf";

const FILE: &str = "FILE";

const FILE_HELP: &str = "The panel file; standard input where none is named, or -";

const STATUS_HELP: &str = "Exit status:\n  \
    0  a good file, whatever is said of its shapes\n  \
    1  a refused file: the line says where it is broken\n  \
    2  a command line that is not as above\n  \
    3  the file cannot be read, the report cannot be written, or memory is short";

// The name that stands for standard input.
const STANDARD_INPUT: &str = "-";

// The exit status where the words are not as help says.
const USAGE_STATUS: u8 = 2;

// The system's number for what is not open.
const NOT_OPEN: i32 = 9;

// Why the system did not read or write.
#[derive(Drop)]
struct Reason(io::Error);

// What people meet, in plain words.
fn plain_words(error: io::Error) -> Option<&'static str> {
    if error.raw_os_error() == Some(NOT_OPEN) {
        return Some("it is closed");
    }
    match error.kind() {
        ErrorKind::NotFound => Some("no such file"),
        ErrorKind::PermissionDenied => Some("permission denied"),
        ErrorKind::IsADirectory => Some("it is a directory"),
        ErrorKind::NotADirectory => Some("a part of its path is no directory"),
        ErrorKind::InvalidFilename => Some("its name is too long"),
        ErrorKind::StorageFull => Some("no space is left"),
        ErrorKind::BrokenPipe => Some("nothing reads it any more"),
        _ => None,
    }
}

impl fmt::Display for Reason {
    fn fmt<W: fmt::Write>(&self, f: &mut fmt::Formatter<W>) -> fmt::Result {
        match plain_words(self.0) {
            Some(words) => f.write_str(words),
            None => write!(f, "{}", self.0),
        }
    }
}

// A file as a sentence calls it, on one line whatever characters its name has.
#[derive(Drop)]
struct FileName<'a>(&'a str);

impl fmt::Display for FileName<'_> {
    fn fmt<W: fmt::Write>(&self, f: &mut fmt::Formatter<W>) -> fmt::Result {
        if self.0 == STANDARD_INPUT {
            return f.write_str("standard input");
        }
        for c in self.0.chars() {
            f.write_char(if c.is_control() { '?' } else { c })?;
        }
        Ok(())
    }
}

// Says on standard error why nothing is reported, and answers the exit status, which says it where nobody reads.
#[tactic(auto, unfolding(panel_program::specs::Running::status_of))]
fn fail(rt: &impl Eprint, name: &str, file: &str, error: RunError) -> u8
    ensures { result ≡ 3 }
{
    let _ = match &error {
        RunError::Memory => eprintln!(rt; "{name}: there is not enough memory"),
        RunError::Read(error) => {
            let (file, reason) = (FileName(file), Reason(*error));
            eprintln!(rt; "{name}: cannot read {file}: {reason}")
        }
        RunError::Write(error) => {
            let reason = Reason(*error);
            eprintln!(rt; "{name}: cannot write standard output: {reason}")
        }
    };
    status_of(&Err(error))
}

// The run on the file of this name.
fn run_on<R: Files + Input + Print + AllocGlobal, P: Report>(
    rt: &R,
    file: &str,
) -> Result<Verdict, RunError> {
    let mut output = io::writer(rt);
    if file == STANDARD_INPUT {
        return run::<_, _, P>(rt.alloc(), &mut rt.reader(), &mut output);
    }
    match File::open(rt, file) {
        Ok(mut input) => run::<_, _, P>(rt.alloc(), &mut input, &mut output),
        Err(error) => Err(RunError::Read(error)),
    }
}

// The words of the command line, of which the first is the program's own name.
fn words(rt: &(impl Env + AllocGlobal)) -> io::Result<Vec<String>> {
    Ok(env::args(rt)?.collect(rt.alloc())?)
}

fn version(alloc: Global) -> Result<String, AllocError> {
    let version = ffi_floats::shackletongue_version();
    format!(in alloc; "{version}\n{TOOLCHAIN}")
}

fn parse<'a>(
    alloc: Global,
    name: &'a str,
    about: &'a str,
    version: &'a str,
    words: &'a [String],
) -> Result<ArgMatches<'a>, Error> {
    let file = Arg::new(alloc, FILE)
        .value_parser(ValueParser::NonEmptyString)
        .help(FILE_HELP);
    let command = Command::new(alloc, name)
        .version(version)
        .about(about)
        .after_help(STATUS_HELP)
        .arg(file)?;
    command.try_get_matches_from(words)
}

// Prints help or the version, or what is wrong with the words.
fn answer(rt: &(impl Print + Eprint), name: &str, error: Error) -> u8
    ensures { result ≤ 3 }
{
    if error.kind() == WordsErrorKind::OutOfMemory {
        return fail(rt, name, STANDARD_INPUT, RunError::Memory);
    }
    let printed = error.print(rt);
    if error.use_stderr() {
        return USAGE_STATUS;
    }
    match printed {
        Ok(()) => 0,
        Err(error) => fail(rt, name, STANDARD_INPUT, RunError::Write(error)),
    }
}

fn status<R: Env + Files + Input + Print + Eprint + AllocGlobal, P: Report>(
    rt: &R,
    name: &str,
    about: &str,
) -> u8
    ensures { result ≤ 3 }
{
    let words = match words(rt) {
        Ok(words) => words,
        Err(error) if error.kind() == ErrorKind::InvalidData => {
            let _ = eprintln!(rt;
                "{name}: the name of a file must be UTF-8: give this one on standard input"
            );
            return USAGE_STATUS;
        }
        Err(_) => return fail(rt, name, STANDARD_INPUT, RunError::Memory),
    };
    let Ok(version) = version(rt.alloc()) else {
        return fail(rt, name, STANDARD_INPUT, RunError::Memory);
    };
    let matches = match parse(rt.alloc(), name, about, version.as_str(), words.as_slice()) {
        Ok(matches) => matches,
        Err(error) => return answer(rt, name, error),
    };
    let file = matches.get_str(FILE).unwrap_or(STANDARD_INPUT);
    match run_on::<R, P>(rt, file) {
        Ok(verdict) => status_of(&Ok(verdict)),
        Err(error) => fail(rt, name, file, error),
    }
}

/// A program of this name, which reports on the panel file that its command line names; help says what it is about.
pub fn start<R: Env + Files + Input + Print + Eprint + AllocGlobal, P: Report>(
    rt: &R,
    name: &str,
    about: &str,
) -> ExitCode
    ensures { exit_status result ≤ 3 }
{
    ExitCode::from(status::<R, P>(rt, name, about))
}
