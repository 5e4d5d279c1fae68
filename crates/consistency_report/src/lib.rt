//! The report of the program `inspect` on a panel file (docs/SPECIFICATION.md, "Consistency"): of each button,
//! whether its outline and its touch area are consistent, and if not, why.

#![tactic(auto)]

ghost use Rattle.std.specs.Prelude.{◌≡◌, ◌++◌, length, drop};
ghost use Rattle.io.specs.Counts.{IsPrefixLen};
ghost use Rattle.panel_file.specs.File.{records};
ghost use Rattle.report_lines.specs.Text.{text_of, Over};
ghost use Rattle.consistency_report.specs.Findings.{finding, finding_at, findings_of, inspection_of};

use panel_file::{Button, Counts, PanelFile, Record};
use report_lines::{Line, Lines};
use shape::Bounds;

#[tactic(auto, unfolding(crate::specs::Findings::finding, crate::specs::Findings::finding_of, shape::specs::Refusal::shape_outcome_of))]
fn finding_line(index: usize, button: Button) -> Line
    ensures { result ≡ finding index button }
{
    match touch::shape_of(button) {
        Ok(shape) => {
            let Button { min, max, .. } = button;
            Line::Inspected(index, consistency::verdict_on(Bounds { min, max }, shape))
        }
        Err(error) => Line::Refused(index, usize::from(error.number())),
    }
}

struct Findings;

impl Lines for Findings {
    ghost line = { λ _. finding_at };

    #[tactic(auto, unfolding(crate::specs::Findings::finding_at))]
    fn line(&self, counts: Counts, record: Record) -> Option<Line> {
        match record {
            Record::Button(button) => Some(finding_line(counts.buttons, button)),
            Record::Touch(_) => None,
        }
    }
}

// The report on a good file.
fn put_findings(file: &PanelFile, out: &mut [u8; 393288]) -> usize
    ensures prefix_len { IsPrefixLen result out.new }
    ensures over { Over out.old 0 (text_of (findings_of 0 (records file.now))) result out.new }
{
    let n = report_lines::put_records(&Findings, file, out);
    report_lines::put_line(Line::End, out, n)
}

/// The report's text, at the start of out; the answer is its length. What is past it stays.
pub fn inspect(file: &[u8], out: &mut [u8; 393288]) -> usize
    ensures prefix_len { IsPrefixLen result out.new }
    ensures value { result ≡ length (text_of (inspection_of file.now)) }
    ensures out_after { out.new ≡ text_of (inspection_of file.now) ++ drop result out.old }
{
    match PanelFile::new(file) {
        Ok(file) => put_findings(&file, out),
        Err(broken) => report_lines::put_line(Line::from(broken), out, 0),
    }
}
