//! Why a property of a model holds or doesn't, in the model's own words: the instances of evidence
//! as runs of the model, each line with the step by which it is come to, back edges as cycles,
//! calls outside the ranges, and the state where a run ends. Lines that only pass on to another
//! fixpoint in the same state are left out. For programs the same evidence is told as lines of
//! instances, all of them.
#![tactic(auto)]

ghost use Rattle.pb_evidence_words.specs.Passing.{EdgesLeadToWrittenLines, NothingIsBelow};
ghost use Rattle.pb_evidence_words.specs.Passing.{LinesGoRound, OriginsAreWritten};

mod asking;
mod below;
mod caller;
mod dependency;
mod instance_lines;
mod line;
mod lines;
mod moves;
mod numbers;
mod passing;
mod shown;
mod telling;
mod why;

pub use shown::Shown;
pub use why::{push_instance_lines, push_why};

/// Where a line is left out, nothing is below it, and no other line names it.
pub fn lines_that_are_left_out()
    ensures below { NothingIsBelow }
    ensures edges { EdgesLeadToWrittenLines }
    ensures origins { OriginsAreWritten }
{}

/// Where lines are told to go round for ever, each rests on the next one alone.
pub fn lines_that_go_round()
    ensures { LinesGoRound }
{}
