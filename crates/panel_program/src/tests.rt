//! A reader that gives one byte at a time, and one that fails in mid-stream: what no reader in memory does.

ghost use Rattle.std.specs.Prelude.{take};

use super::{Report, RunError, Verdict, run, status_of};
use std::io;
use std::io::{ErrorKind, Read};
use std::test::Fail;

/// The report on a file is the file: what is written shows what was read.
struct Echo;

impl Report for Echo {
    ghost text = { λ file. take 65537 file };

    fn put(file: &[u8], out: &mut [u8; 393288]) -> usize {
        let n = file.len().min(65537);
        out[..n].copy_from_slice(&file[..n]);
        n
    }
}

/// Gives a byte with each read, and fails the read of this number, if there is one.
#[derive(Drop)]
struct Drip<'a> {
    bytes: &'a [u8],
    fails_after: Option<usize>,
}

impl Read for Drip<'_> {
    fn read(&mut self, buf: &mut [u8]) -> io::Result<usize> {
        if let Some(left) = self.fails_after {
            if left == 0 {
                return Err(io::Error::from(ErrorKind::ConnectionReset));
            }
            self.fails_after = Some(left - 1);
        }
        let n = buf.len().min(self.bytes.len()).min(1);
        buf[..n].copy_from_slice(&self.bytes[..n]);
        self.bytes = &self.bytes[n..];
        Ok(n)
    }
}

#[test]
fn pieces_are_read_to_the_end(rt: HostRuntime) -> Result<(), Fail> {
    let mut input = Drip {
        bytes: b"a file in pieces",
        fails_after: None,
    };
    let mut output = Vec::new(rt.alloc());
    let result = run::<_, _, Echo>(rt.alloc(), &mut input, &mut output);
    assert!(rt; matches!(result, Ok(Verdict::Refused)));
    assert!(rt; status_of(&result) == 1);
    assert!(rt; output.as_slice() == b"a file in pieces".as_slice());
    Ok(())
}

#[test]
fn a_touch_is_a_good_file(rt: HostRuntime) -> Result<(), Fail> {
    let mut input = Drip {
        bytes: b"\x08\0\x02\0touching",
        fails_after: None,
    };
    let mut output = Vec::new(rt.alloc());
    let result = run::<_, _, Echo>(rt.alloc(), &mut input, &mut output);
    assert!(rt; matches!(result, Ok(Verdict::Good)));
    assert!(rt; status_of(&result) == 0);
    assert!(rt; output.len() == 12);
    Ok(())
}

#[test]
fn nothing_is_written_of_an_input_that_fails(rt: HostRuntime) -> Result<(), Fail> {
    let mut input = Drip {
        bytes: b"a file in pieces",
        fails_after: Some(7),
    };
    let mut output = Vec::new(rt.alloc());
    let result = run::<_, _, Echo>(rt.alloc(), &mut input, &mut output);
    assert!(rt; matches!(result, Err(RunError::Read(_))));
    assert!(rt; status_of(&result) == 3);
    assert!(rt; output.is_empty());
    Ok(())
}
