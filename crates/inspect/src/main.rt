//! Says of each button of the panel file that the command line names, or of standard input, whether its outline and its
//! touch area are consistent (docs/SPECIFICATION.md, "Consistency"). Only a file that was read to its end is reported
//! on.

#![tactic(auto)]

ghost use Rattle.consistency_report.specs.Text.{text_of};
ghost use Rattle.consistency_report.specs.Findings.{inspection_of};

use panel_program::Report;
use std::process::ExitCode;

struct Inspect;

impl Report for Inspect {
    ghost text = { λ file. text_of (inspection_of file) };

    fn put(file: &[u8], out: &mut [u8; 393288]) -> usize {
        consistency_report::inspect(file, out)
    }
}

const ABOUT: &str =
    "Says of each button of a panel file whether its outline and its touch area are consistent, or why\n\
    its shape is refused. Ask before you cut.";

fn main(rt: HostRuntime) -> ExitCode {
    command_line::start::<_, Inspect>(&rt, "inspect", ABOUT)
}
