//! An input as one array of bytes, for the programs that read a whole file, or line by line. What a reader has left is
//! its `remaining`, known of those in memory; of files and standard input no contract can say what comes.

#![tactic(auto)]

ghost use Rattle.std.specs.Prelude.{◌≡◌, ◌≤◌, length, take, IfOk, IfSome};
ghost use Rattle.std.specs.Io.KnownBytes.{Consumes};

use std::io;
use std::io::Read;

pub mod lines;

/// The first bytes of an input, as many as the file has room for; the answer counts them. One that fills the file may
/// go on. After a failed read nothing is known of the file.
pub fn fill<R: Read>(input: &mut R, file: &mut [u8]) -> io::Result<usize>
    ensures within { IfOk result (λ n. n ≤ length file.old) }
    ensures bytes { IfOk result (λ n. IfSome (R.remaining input.old) (λ bytes.
        take n file.new ≡ take (length file.old) bytes)) }
    ensures left { IfOk result (λ n.
        Consumes (R.remaining input.old) (R.remaining input.new) (take n file.new)) }
{
    // Stays a `while`: a reader's turns are no range, and the library's `read_to_end` fills a Vec, and no lent buffer.
    let mut held = 0;
    while held < file.len() {
        match input.read(&mut file[held..]) {
            Ok(0) => return Ok(held),
            Ok(n) => held += n,
            Err(error) => return Err(error),
        }
    }
    Ok(held)
}
