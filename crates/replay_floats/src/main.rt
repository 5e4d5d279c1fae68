//! Answers the vectors on standard input, one to a line: a function's name and its operands, each
//! the hexadecimal digits of a float's bits or `nan`. The answer is a float or two, written so, or
//! `0` or `1`; `bad` for a line that is no vector; nothing for a line with no word. A `#` starts a
//! comment. A line has at most 1,024 bytes.

#![tactic(auto)]

mod functions;

use std::io;

fn answer(rt: &impl Print, line: &[u8]) -> io::Result<()> {
    let Some((name, rest)) = text::split_word(line) else {
        return Ok(());
    };
    match functions::answer_to(name, rest) {
        Some(answer) => rt.println(answer),
        None => rt.println("bad"),
    }
}

fn main(rt: HostRuntime) -> io::Result<()> {
    input::lines::answer_each(&rt, &mut rt.stdin(), |line| answer(&rt, line))
}
