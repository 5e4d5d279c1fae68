//! What the programs for people have in common: a panel file is read, the program's report on it is written, and the
//! exit status says how that went (docs/SPECIFICATION.md, "The programs"). What a reader has left and what a writer
//! holds are their `remaining` and `contents`, known of those in memory; of files, standard input and standard output
//! no contract can say what comes and goes.

#![tactic(auto)]

ghost use Rattle.std.specs.Prelude.{◌≡◌, ◌≤◌, ℕ, List, ◌++◌, length, take, drop, OnOk, IfOk, IfErr, IfSome};
ghost use Rattle.std.specs.Io.KnownBytes.{Appends};
ghost use Rattle.io.specs.Counts.{IsPrefixLen};
ghost use Rattle.panel_program.specs.declared.RunError.TheVariants.{Memory};
ghost use Rattle.panel_program.specs.Running.{verdict_of, NothingWritten, status_of};

use panel_file::PanelFile;
use std::alloc::{AllocError, Global};
use std::io;
use std::io::{Read, Write};

/// What a program says of a file.
pub trait Report {
    /// The report on the bytes of a file, as bytes.
    ghost text: { List ℕ → List ℕ };

    /// Puts the report at the start of `out`; the answer is its length. What is past it stays.
    fn put(file: &[u8], out: &mut [u8; 393288]) -> usize
        ensures prefix_len { IsPrefixLen result out.new }
        ensures value { result ≡ length (text file.now) }
        ensures out_after { out.new ≡ text file.now ++ drop result out.old };
}

/// What a file is found to be.
#[derive(Clone, Copy, Debug, PartialEq, Eq)]
pub enum Verdict {
    /// A panel file, whatever its shapes are.
    Good,
    /// A broken file: the refusal 7.
    Refused,
}

/// What keeps a program from reporting.
#[derive(Debug, Drop)]
pub enum RunError {
    /// There is no memory for the file and its report: nothing was written.
    Memory,
    /// The input could not be read to its end: nothing was written.
    Read(io::Error),
    /// The report could not be written, or only a part of it.
    Write(io::Error),
}

impl From<AllocError> for RunError {
    ghost from_gives = { λ _ error. error ≡ Memory };

    fn from(_error: AllocError) -> RunError {
        RunError::Memory
    }
}

#[tactic(auto, unfolding(crate::specs::Running::verdict_of, panel_file::specs::Panel::is_done, panel_file::specs::File::new_answer))]
fn verdict_on(file: &[u8]) -> Verdict
    ensures { result ≡ verdict_of file.now }
{
    match PanelFile::new(file) {
        Ok(_) => Verdict::Good,
        Err(_) => Verdict::Refused,
    }
}

// The report at the start of a buffer with room for the longest one; the answer is its length.
fn put<P: Report>(file: &[u8], out: &mut [u8]) -> usize
    requires { length out.old ≡ 393288 }
    ensures prefix_len { IsPrefixLen result out.new }
    ensures value { result ≡ length (P.text file.now) }
    ensures out_after { out.new ≡ P.text file.now ++ drop result out.old }
{
    P::put(file, out.as_mut_array().unwrap())
}

// `run` by way of two buffers, one for the file and one for its report.
fn run_within<R: Read, W: Write, P: Report>(
    input: &mut R,
    output: &mut W,
    file: &mut [u8],
    out: &mut [u8],
) -> Result<Verdict, RunError>
    requires file { length file.old ≡ 65537 }
    requires out { length out.old ≡ 393288 }
    ensures verdict { IfOk result (λ verdict. IfSome (R.remaining input.old) (λ bytes.
        verdict ≡ verdict_of (take 65537 bytes))) }
    ensures written { OnOk result (IfSome (R.remaining input.old) (λ bytes.
        Appends (W.contents output.old) (W.contents output.new) (P.text (take 65537 bytes)))) }
    ensures unread { IfErr result (λ error. NothingWritten error output.old output.new) }
{
    let n = match input::fill(input, file) {
        Ok(n) => n,
        Err(error) => return Err(RunError::Read(error)),
    };
    let length = put::<P>(&file[..n], out);
    match output.write_all(&out[..length]) {
        Ok(()) => Ok(verdict_on(&file[..n])),
        Err(error) => Err(RunError::Write(error)),
    }
}

fn buffer(alloc: Global, len: usize) -> Result<Vec<u8>, RunError>
    ensures len { IfOk result (λ bytes. length bytes.items ≡ len) }
    ensures err { IfErr result (λ error. error ≡ Memory) }
{
    Ok(vec![in alloc; 0u8; len]?)
}

/// Writes the report on an input: on all of it, or on its first 65,537 bytes, which are one more than the longest
/// panel file has; the answer says whether these are a good file. Of an input that cannot be read nothing is written.
/// The file and its report stand on the heap, since a stack may be small.
pub fn run<R: Read, W: Write, P: Report>(
    alloc: Global,
    input: &mut R,
    output: &mut W,
) -> Result<Verdict, RunError>
    ensures verdict { IfOk result (λ verdict. IfSome (R.remaining input.old) (λ bytes.
        verdict ≡ verdict_of (take 65537 bytes))) }
    ensures written { OnOk result (IfSome (R.remaining input.old) (λ bytes.
        Appends (W.contents output.old) (W.contents output.new) (P.text (take 65537 bytes)))) }
    ensures unread { IfErr result (λ error. NothingWritten error output.old output.new) }
{
    let mut file = buffer(alloc, 65537)?;
    let mut out = buffer(alloc, 393288)?;
    run_within::<_, _, P>(input, output, file.as_mut_slice(), out.as_mut_slice())
}

/// The exit status of a run.
#[tactic(auto, unfolding(crate::specs::Running::status_of))]
pub fn status_of(run: &Result<Verdict, RunError>) -> u8
    ensures value { result ≡ status_of run.now }
    ensures most { result ≤ 3 }
{
    match run {
        Ok(Verdict::Good) => 0,
        Ok(Verdict::Refused) => 1,
        Err(_) => 3,
    }
}

#[cfg(test)]
mod tests;
