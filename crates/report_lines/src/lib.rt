//! The lines of the reports on a panel file, as `fascia` and `inspect` print them.

#![tactic(auto)]

ghost use Rattle.std.specs.Prelude.{◌≡◌, ◌++◌, ◌+◌, ◌<◌, ◌≤◌, length, take, Option};
ghost use Rattle.io.specs.Counts.{IsPrefixLen};
ghost use Rattle.panel_file.specs.declared.Counts.{Counts};
ghost use Rattle.panel_file.specs.declared.Record.{Record};
ghost use Rattle.panel_file.specs.File.{records};
ghost use Rattle.report_lines.specs.declared.Line.{Line};
ghost use Rattle.report_lines.specs.Line.{Added, newline, verdict_text, number_then, line_of};
ghost use Rattle.report_lines.specs.Text.{text_of, Over};
ghost use Rattle.report_lines.specs.Records.{none_before, lines_at, lines_by};

use consistency::Verdict;
use panel_file::{Broken, Counts, PanelFile, Record};

/// One line of a report. A refusal stays a number: the definitions (`Outcome`, `Answer`) know it by its number alone,
/// so a line of `ShapeError` or of panel_file's `Broken` had no value at their other numbers.
#[derive(Drop)]
pub enum Line {
    /// A button's index, and the verbs and points of its outline.
    Shape(usize, usize, usize),
    /// The index of a button whose shape is refused, and the refusal's number.
    Refused(usize, usize),
    /// The index of the button that a touch goes to.
    Touch(usize),
    /// A touch that goes to none.
    Nowhere,
    /// A good file ends.
    End,
    /// A button's index, and the verdict on its outline and touch area.
    Inspected(usize, Verdict),
    /// A broken file: the refusal's number and the offset.
    Broken(usize, usize),
}

impl From<Broken> for Line {
    ghost from_gives = { λ b l. l ≡ Line.Broken 7 b.offset };

    fn from(broken: Broken) -> Line {
        Line::Broken(usize::from(broken.number()), broken.offset)
    }
}

fn word(out: &mut [u8; 72], at: usize, text: &[u8]) -> usize
    requires { at + length text.now ≤ 72 }
    ensures { Added out.old at text.now result out.new }
{
    text::put(out, at, text)
}

// A number and the text behind it.
fn number(out: &mut [u8; 72], at: usize, n: usize, text: &[u8]) -> usize
    requires { at + 20 + length text.now ≤ 72 }
    ensures { Added out.old at (number_then n text.now) result out.new }
{
    let next = text::put_decimal(out, at, n as u64);
    text::put(out, next, text)
}

// A name, a number and the text behind it.
fn one_number(out: &mut [u8; 72], name: &[u8], n: usize, text: &[u8]) -> usize
    requires { length name.now + 20 + length text.now ≤ 72 }
    ensures { Added out.old 0 (name.now ++ number_then n text.now) result out.new }
{
    let a = word(out, 0, name);
    number(out, a, n, text)
}

// The same with a second number, at the end of the line.
fn two_numbers(out: &mut [u8; 72], name: &[u8], n: usize, text: &[u8], m: usize) -> usize
    requires { length name.now + 20 + length text.now + 21 ≤ 72 }
    ensures { Added out.old 0 (name.now ++ number_then n text.now ++ number_then m newline)
        result out.new }
{
    let a = one_number(out, name, n, text);
    number(out, a, m, b"\n")
}

fn shape_line(out: &mut [u8; 72], index: usize, verbs: usize, points: usize) -> usize
    ensures { Added out.old 0 (line_of (Line.Shape index verbs points)) result out.new }
{
    let b = one_number(out, b"shape ", index, b" ");
    let c = number(out, b, verbs, b" ");
    number(out, c, points, b"\n")
}

// What is said of a shape behind its index.
fn verdict_text(verdict: Verdict) -> &'static [u8]
    ensures upper_bound { length result.now ≤ 46 }
    ensures value { result.now ≡ verdict_text verdict }
{
    match verdict {
        Verdict::Consistent => b" ok\n",
        Verdict::CenterOutside => b" parts company: a center lies outside\n",
        Verdict::MiddleOutside => b" parts company: its middle is not inside\n",
        Verdict::SidesSmall => b" parts company: its sides are too small\n",
        Verdict::CornerOval => b" parts company: a corner is too oval\n",
        Verdict::OutlineOutside => b" parts company: its outline leaves the bounds\n",
    }
}

// The line's text, at the start of out; the answer is its length. No `Display`: its clause speaks where `fmt`
// answers Ok, and nothing says that it does, so that a text made by it is known as the line or as cut.
#[tactic(auto, unfolding(crate::specs::Line::line_of))]
fn text_of(line: Line, out: &mut [u8; 72]) -> usize
    ensures prefix_len { IsPrefixLen result out.new }
    ensures out_after { take result out.new ≡ line_of line }
{
    match line {
        Line::Shape(index, verbs, points) => shape_line(out, index, verbs, points),
        Line::Refused(index, cause) => two_numbers(out, b"shape ", index, b" refused ", cause),
        Line::Touch(index) => one_number(out, b"touch ", index, b"\n"),
        Line::Nowhere => word(out, 0, b"touch none\n"),
        Line::End => word(out, 0, b"end\n"),
        Line::Inspected(index, verdict) => one_number(out, b"shape ", index, verdict_text(verdict)),
        Line::Broken(cause, offset) => two_numbers(out, b"refused ", cause, b" at ", offset),
    }
}

/// The line's text from index `at` on; the answer is the index past it.
pub fn put_line(line: Line, out: &mut [u8; 393288], at: usize) -> usize
    requires { at + 72 ≤ 393288 }
    ensures upper_bound { result ≤ at + 72 }
    ensures prefix_len { IsPrefixLen result out.new }
    ensures over { Over out.old at (line_of line) result out.new }
{
    let mut line_text = [0u8; 72];
    let n = text_of(line, &mut line_text);
    text::put(out, at, &line_text[..n])
}

/// What a report says of each record of a good file.
pub trait Lines {
    /// A record's line, if it has one, from the counts of the records in front of it.
    ghost line: { Self → Counts → Record → Option Line };

    /// The line itself.
    fn line(&self, counts: Counts, record: Record) -> Option<Line>
        requires { counts.buttons + counts.touches < 5461 }
        ensures { result ≡ line self.now counts «record» };
}

// The text of a line, if there is one, from index `at` on; the answer is the index past it.
#[tactic(auto, using(crate::proofs::Listing::text_of_some, crate::proofs::Listing::text_of_none, crate::proofs::Listing::over_none))]
fn put_any(line: Option<Line>, out: &mut [u8; 393288], at: usize) -> usize
    requires { at + 72 ≤ 393288 }
    ensures upper_bound { result ≤ at + 72 }
    ensures over { Over out.old at (text_of (lines_at line)) result out.new }
{
    match line {
        Some(line) => put_line(line, out, at),
        None => at,
    }
}

/// The lines of a good file's records, from the start of out; the answer is their length. A line has at most 72 bytes
/// and a record at least 12, so a file of 65,536 bytes has a report of at most 6 times its length, and the last line:
/// an array of the largest size and no Vec, since the library has no heap.
pub fn put_records<L: Lines>(lines: &L, file: &PanelFile, out: &mut [u8; 393288]) -> usize
    ensures upper_bound { result ≤ 393192 }
    ensures prefix_len { IsPrefixLen result out.new }
    ensures over { let lines = lines_by (L.line lines.now) none_before (records file.now) in
        Over out.old 0 (text_of lines) result out.new }
{
    let mut n = 0;
    let mut counts = Counts::default();
    for record in file.records() {
        n = put_any(lines.line(counts, record), out, n);
        counts = counts.with(record.kind());
    }
    n
}
