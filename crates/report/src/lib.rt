//! The report on a panel file, as the program `fascia` prints it (docs/SPECIFICATION.md, "The report").

#![tactic(auto)]

ghost use Rattle.std.specs.Prelude.{◌≡◌, ◌++◌, length, drop};
ghost use Rattle.io.specs.Counts.{IsPrefixLen};
ghost use Rattle.shape.specs.Refusal.{shape_outcome_of};
ghost use Rattle.panel_file.specs.File.{records};
ghost use Rattle.touch.specs.Touch.{place_of};
ghost use Rattle.report_lines.specs.Text.{text_of, Over};
ghost use Rattle.report.specs.Report.{shape_line, touch_line, lines_of, report_of};
ghost use Rattle.report.specs.Lines.{line_for, line_at, HoldsPlaces};

use panel_file::{Counts, PanelFile, Record};
use report_lines::{Line, Lines};
use shape::{RoundSuperellipse, ShapeError};
use touch::{MOST_TOUCHES, NOWHERE};

#[tactic(auto, unfolding(crate::specs::Report::shape_line, crate::specs::Report::need_of_outline, shape::specs::Refusal::shape_outcome_of))]
fn shape_line(index: usize, made: Result<RoundSuperellipse, ShapeError>) -> Line
    ensures { result ≡ shape_line index (shape_outcome_of made) }
{
    match made {
        Ok(shape) => {
            let need = outline_need::need(shape);
            Line::Shape(index, need.verbs, need.points)
        }
        Err(error) => Line::Refused(index, usize::from(error.number())),
    }
}

#[tactic(auto, unfolding(crate::specs::Report::touch_line, touch::specs::Touch::place_of))]
fn touch_line(code: u32) -> Line
    ensures { result ≡ touch_line (place_of code) }
{
    if code == NOWHERE {
        return Line::Nowhere;
    }
    Line::Touch(code as usize)
}

#[tactic(auto, unfolding(crate::specs::Lines::line_for))]
fn line_for(record: Record, index: usize, code: u32) -> Line
    ensures { result ≡ line_for «record» index code }
{
    match record {
        Record::Button(button) => shape_line(index, touch::shape_of(button)),
        Record::Touch(_) => touch_line(code),
    }
}

// The places of a file's touches: each record's line comes from them.
#[derive(Drop)]
struct Places {
    place_codes: [u32; 5461],
}

impl Lines for Places {
    ghost line = { λ p. line_at p.place_codes };

    fn line(&self, counts: Counts, record: Record) -> Option<Line> {
        Some(line_for(record, counts.buttons, self.place_codes[counts.touches]))
    }
}

// The report on a good file, with the places of its touches.
fn put_lines(file: &PanelFile, places: &Places, out: &mut [u8; 393288]) -> usize
    requires { HoldsPlaces (records file.now) places.now.place_codes 0 (records file.now) }
    ensures prefix_len { IsPrefixLen result out.new }
    ensures over { let lines = lines_of (records file.now) 0 (records file.now) in
        Over out.old 0 (text_of lines) result out.new }
{
    let n = report_lines::put_records(places, file, out);
    report_lines::put_line(Line::End, out, n)
}

/// The report's text, at the start of out; the answer is its length. What is past it stays.
pub fn report(file: &[u8], out: &mut [u8; 393288]) -> usize
    ensures prefix_len { IsPrefixLen result out.new }
    ensures value { result ≡ length (text_of (report_of file.now)) }
    ensures out_after { out.new ≡ text_of (report_of file.now) ++ drop result out.old }
{
    match PanelFile::new(file) {
        Ok(file) => {
            let mut places = Places {
                place_codes: [NOWHERE; MOST_TOUCHES],
            };
            touch::places(&file, &mut places.place_codes);
            put_lines(&file, &places, out)
        }
        Err(broken) => report_lines::put_line(Line::from(broken), out, 0),
    }
}
