//! Reports on the panel files of a text on standard input, as the program `fascia` would on each:
//! docs/ORACLE.md says what the text is. A line that is bad ends the run with `bad`.

#![tactic(auto)]

use arrayvec::ArrayVec;
use std::io;

// A panel file, and the bytes that a line adds to it.
type File = ArrayVec<u8, 131072>;

type Part = ArrayVec<u8, 512>;

// A field's bytes behind those of the line's fields before, the lowest first.
fn put_field(part: &mut Part, word: &[u8]) -> Option<()> {
    let bytes = text::read_number(word, 16)?.to_le_bytes();
    let length = match word.len() {
        2 => 1,
        4 => 2,
        8 => 4,
        _ => return None,
    };
    part.try_extend_from_slice(&bytes[..length]).ok()
}

// The bytes of all fields of a line. The loop is that of operands' `read`, around another step: a function of both
// would take the step as a closure that fills another array.
fn part_of(words: &[u8]) -> Option<Part> {
    let mut part = Part::new();
    let mut rest = words;
    while let Some((word, tail)) = text::split_word(rest) {
        put_field(&mut part, word)?;
        rest = tail;
    }
    Some(part)
}

// A line that adds bytes to the file: how often, then the fields. As many copies as there is room for.
fn add(file: &mut File, line: &[u8]) -> Option<()> {
    let (word, rest) = text::split_word(line)?;
    let times = text::read_number(word, 10)?;
    let part = part_of(rest)?;
    // Copies of nothing would be counted to their end.
    if part.is_empty() {
        return Some(());
    }
    for _ in 0..times {
        if file.try_extend_from_slice(&part).is_err() {
            break;
        }
    }
    Some(())
}

fn write_report(rt: &impl Print, file: &[u8]) -> io::Result<()> {
    let mut out = [0u8; 393288];
    let n = report::report(file, &mut out);
    rt.write_all(&out[..n])
}

fn take_lines(rt: &impl Print, lines: &[u8]) -> io::Result<()> {
    let mut file = File::new();
    for line in lines.split(|b| *b == b'\n') {
        match text::split_word(line) {
            None => {}
            Some((b"report", _)) => {
                write_report(rt, &file)?;
                file.clear();
            }
            Some(_) => {
                if add(&mut file, line).is_none() {
                    return rt.println("bad");
                }
            }
        }
    }
    Ok(())
}

fn main(rt: HostRuntime) -> io::Result<()> {
    // The text is one array and how much of it is held: `fill` fills a lent buffer, and there is no heap.
    let mut lines = [0u8; 131072];
    let n = input::fill(&mut rt.stdin(), &mut lines)?;
    take_lines(&rt, &lines[..n])
}
