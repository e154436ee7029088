//! An instance that a line rests on.

ghost use Rattle.std.specs.Prelude.{Contains};
ghost use Rattle.pb_evidence_words.specs.Ready.{numbers_of};

use crate::caller::Caller;

/// A line, and the number of an instance that it rests on, which has a line too.
#[derive(Clone, Copy)]
pub(crate) struct Dependency<'c> {
    pub caller: &'c Caller<'c>,
    pub number: u64,
    pub ghost listed: { ∥ Contains (numbers_of caller.now.line.telling.now.shown.now) number ∥₁ },
}
