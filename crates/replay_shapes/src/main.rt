//! Makes the shapes on standard input, one to a line: twelve floats, each the hexadecimal digits of
//! its bits or `nan`, for min, max and the radii top left, top right, bottom left, bottom right. The
//! answer is every field of every quadrant and octant, then `1` where one quadrant stands for all and
//! `0` elsewhere; `refused` and the refusal's number; `bad` for a line that is no shape; nothing
//! for a line with no word. A `#` starts a comment. A line has at most 1,024 bytes.

#![tactic(auto)]

mod fields;

use fields::Fields;
use shape::{RoundSuperellipse, ShapeError};
use std::io;

fn write_made(rt: &impl Print, made: Result<RoundSuperellipse, ShapeError>) -> io::Result<()> {
    match made {
        Ok(shape) => rt.println(Fields(shape)),
        Err(error) => {
            let number = error.number();
            println!(rt; "refused {number}")
        }
    }
}

fn answer(rt: &impl Print, line: &[u8]) -> io::Result<()> {
    let Some(operands) = operands::read(line) else {
        return rt.println("bad");
    };
    let x = operands.as_slice();
    match x.len() {
        0 => Ok(()),
        12 => write_made(
            rt,
            RoundSuperellipse::new(operands::bounds(x), operands::radii(x)),
        ),
        _ => rt.println("bad"),
    }
}

fn main(rt: HostRuntime) -> io::Result<()> {
    input::lines::answer_each(&rt, &mut rt.stdin(), |line| answer(&rt, line))
}
