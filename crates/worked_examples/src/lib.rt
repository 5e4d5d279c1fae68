//! The worked examples, over the definitions alone: specs/WorkedExamples.antt is the table. No code.

#![tactic(auto)]

ghost use Rattle.worked_examples.specs.WorkedExamples.{WorkedExamples};

/// Each worked example comes out as its row of the table says.
pub fn worked_examples()
    ensures { WorkedExamples }
{}
