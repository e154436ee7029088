//! All lines of evidence.

ghost use Rattle.std.specs.Prelude.{◌≡◌, ◌++◌, ℕ, OnOk, string_bytes};
ghost use Rattle.pb_fixpoint_trees.specs.Tree.{Tree};
ghost use Rattle.pb_bytecode.specs.Meaning.{AreTrees};
ghost use Rattle.pb_report.specs.Cuts.{cuts_of};
ghost use Rattle.pb_evidence_words.specs.InstanceLines.{instance_lines};
ghost use Rattle.pb_evidence_words.specs.Ready.{told_of};
ghost use Rattle.pb_evidence_words.specs.Tellable.{IsTellableShown};
ghost use Rattle.pb_evidence_words.specs.WhyText.{with_cuts, why_lines};

use crate::line::Line;
use crate::passing::Arrival;
use crate::shown::Shown;
use crate::telling::Telling;
use std::alloc::{AllocError, Global};

impl Telling<'_> {
    fn push_lines(&self, text: &mut String) -> Result<(), AllocError>
        ensures { OnOk result (string_bytes text.new ≡ string_bytes text.old
            ++ why_lines (told_of self.now.shown.now)) }
    {
        let count = self.shown.explanation.evidence.instances.len();
        if count == 0 {
            return Ok(());
        }
        let first = Line {
            telling: &*self,
            number: 0,
        };
        let mut parent = first.caller()?;
        let mut arrival = Arrival {
            origin: 0,
            follows: false,
            passes: false,
        };
        for number in 0..count {
            let line = Line {
                telling: &*self,
                number,
            };
            parent = line.parent(parent)?;
            arrival = line.arrival(arrival, &parent)?;
            line.push_written(text, &parent, arrival)?;
        }
        Ok(())
    }
}

/// Puts behind a text the lines that show why the initial instance of a property's text is true or
/// false: each instance of the evidence with the step of the model by which it is come to, but for
/// those that only pass on to the next one, and below it the edges to other lines, the calls
/// outside the ranges, and where it rests on nothing else the state and why. `steps` is the text of
/// every step.
///
/// A line's calls are worked out twice at most: for it, and for the lines that come from it, which
/// stand together.
///
/// # Errors
/// Memory was refused.
pub fn push_why(alloc: Global, shown: &Shown<'_>, text: &mut String) -> Result<(), AllocError>
    requires { IsTellableShown shown.now }
    ensures { OnOk result ((trees : ℕ → Tree) → AreTrees shown.now.verified.now trees
        → string_bytes text.new ≡ string_bytes text.old ++ why_lines (with_cuts
        (cuts_of trees shown.now.explanation.now.evidence) (told_of shown.now))) }
{
    let telling = Telling::new(alloc, shown)?;
    telling.push_lines(text)
}

/// Puts the same evidence behind a text as lines of instances, for programs that read it: behind
/// each the instances that it rests on, and with these the steps of the model that lead to them.
/// `X(0) false: X(1)@read(c1)` says that X(0) is false since X(1) is, to which the step leads; no
/// step stands where the state stays. `cut` stands last where a call outside the ranges decides
/// too.
///
/// # Errors
/// Memory was refused.
pub fn push_instance_lines(
    alloc: Global,
    shown: &Shown<'_>,
    text: &mut String,
) -> Result<(), AllocError>
    requires { IsTellableShown shown.now }
    ensures { OnOk result ((trees : ℕ → Tree) → AreTrees shown.now.verified.now trees
        → string_bytes text.new ≡ string_bytes text.old ++ instance_lines (with_cuts
        (cuts_of trees shown.now.explanation.now.evidence) (told_of shown.now))) }
{
    let telling = Telling::new(alloc, shown)?;
    telling.push_instance_lines(text)
}
