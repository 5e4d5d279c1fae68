//! Writes the report on the panel file that the command line names, or on standard input
//! (docs/SPECIFICATION.md, "The report"). Only a file that was read to its end is reported on.

#![tactic(auto)]

ghost use Rattle.report.specs.Text.{text_of};
ghost use Rattle.report.specs.Report.{report_of};

use panel_program::Report;
use std::process::ExitCode;

struct Fascia;

impl Report for Fascia {
    ghost text = { λ file. text_of (report_of file) };

    fn put(file: &[u8], out: &mut [u8; 393288]) -> usize {
        report::report(file, out)
    }
}

const ABOUT: &str =
    "Says of each button of a panel file how many verbs and points its outline has, or why its shape\n\
    is refused, and of each touch to which button it goes.";

fn main(rt: HostRuntime) -> ExitCode {
    command_line::start::<_, Fascia>(&rt, "fascia", ABOUT)
}
