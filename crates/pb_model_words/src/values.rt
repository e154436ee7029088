//! Values as they are written, alone and behind the name of a variable.

ghost use Rattle.std.specs.Prelude.{◌≡◌, ◌++◌, OnOk, string_bytes};
ghost use Rattle.std.specs.Prelude.{if◌then◌else◌};
ghost use Rattle.std.specs.List.{slice_get};
ghost use Rattle.pb_model_words.specs.Words.{binding_text, enumerator_text, name_of_enumerator, truth_text};
ghost use Rattle.pb_model_words.specs.Words.{value_text};
ghost use Rattle.pb_model_words.specs.View.{declarations, enumerators_said, variable_said, written};

use crate::variables::Variable;
use crate::writing::{Writing, writing_of};
use pb_text_tree::{Enumerator, SortDeclaration};
use std::alloc::AllocError;

/// What writes values of sorts: the sorts that are declared.
#[derive(Clone, Copy)]
pub(crate) struct Values<'a> {
    pub sorts: &'a [SortDeclaration],
}

fn truth_text(value: i64) -> &'static str
    ensures { result.now ≡ truth_text value }
{
    if value == 0 { "false" } else { "true" }
}

/// The name of the enumerator at a place; where there is none, nothing.
fn enumerator_at(enumerators: &[Enumerator], place: usize) -> &str
    ensures { result.now ≡ name_of_enumerator (slice_get (enumerators_said enumerators.now) place) }
{
    match enumerators.get(place) {
        None => "",
        Some(enumerator) => enumerator.name.text.as_str(),
    }
}

fn enumerator_text(enumerators: &[Enumerator], value: i64) -> &str
    ensures { result.now ≡ enumerator_text (enumerators_said enumerators.now) value }
{
    if value < 0 {
        ""
    } else {
        enumerator_at(enumerators, value as usize)
    }
}

fn push_written(text: &mut String, writing: Writing<'_>, value: i64) -> Result<(), AllocError>
    ensures { OnOk result
        (string_bytes text.new ≡ string_bytes text.old ++ written writing.entry value) }
{
    match writing {
        Writing::Truth => text.push_str(truth_text(value)),
        Writing::Enumerators(enumerators) => text.push_str(enumerator_text(enumerators, value)),
        Writing::Decimal => write!(text, "{value}"),
    }
}

/// The mark before a word in a list: the first one has its own.
pub(crate) fn push_mark(
    text: &mut String,
    is_first: bool,
    first: &str,
    next: &str,
) -> Result<(), AllocError>
    ensures { OnOk result (string_bytes text.new ≡ string_bytes text.old
        ++ (if is_first then first.now else next.now)) }
{
    if is_first {
        text.push_str(first)
    } else {
        text.push_str(next)
    }
}

impl Values<'_> {
    /// A value of the sort of this name.
    pub fn push(&self, text: &mut String, sort: &str, value: i64) -> Result<(), AllocError>
        ensures { OnOk result (string_bytes text.new ≡ string_bytes text.old
            ++ value_text (declarations self.now.sorts.now) sort.now value) }
    {
        push_written(text, writing_of(self.sorts, sort), value)
    }

    /// A variable, a sign and a value of its sort.
    pub fn push_binding(
        &self,
        text: &mut String,
        variable: &Variable<'_>,
        sign: &str,
        value: i64,
    ) -> Result<(), AllocError>
        ensures { OnOk result (string_bytes text.new ≡ string_bytes text.old
            ++ binding_text (declarations self.now.sorts.now) (variable_said variable.now)
            sign.now value) }
    {
        text.push_str(variable.name)?;
        text.push_str(sign)?;
        self.push(text, variable.sort.text.as_str(), value)
    }
}
