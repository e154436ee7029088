//! A line with the calls that its instance makes.

ghost use Rattle.std.specs.Prelude.{◌+◌};
ghost use Rattle.pb_sorts.specs.Instance.{instance_of};
ghost use Rattle.pb_evidence_words.specs.Ready.{IsCaller, IsKnown, told_of};

use crate::line::Line;
use pb_sorts::Instance;
use pb_typing_calls::MadeCall;

/// A line with its instance, and the calls that the instance's right side makes.
#[derive(Drop)]
pub(crate) struct Caller<'t> {
    pub line: Line<'t>,
    pub instance: Instance,
    pub calls: Vec<MadeCall>,
    pub ghost known: { IsKnown line.telling.now.shown.now (instance_of instance) },
    pub ghost made: { ∥ IsCaller (told_of line.telling.now.shown.now) line.number
        (instance_of instance) calls.items ∥₁ },
}
