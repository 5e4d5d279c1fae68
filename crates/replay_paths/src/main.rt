//! Runs building calls, reads streams and asks shapes, one item a line of standard input, and writes
//! what the library answers.

#![tactic(auto)]

mod answers;
mod buffers;
mod session;

use session::Session;
use std::io;

fn main(rt: HostRuntime) -> io::Result<()> {
    let mut piece = [0u8; 65536];
    let mut line = [0u8; 1024];
    let mut session = Session::new();
    input::lines::for_each(&mut rt.stdin(), &mut piece, &mut line, |taken| {
        session.take_line(&rt, taken)
    })?;
    session.end_stream(&rt)
}
