//! A state by all its variables, and what changes from one state to another.

ghost use Rattle.std.specs.Prelude.{◌≡◌, ◌++◌, OnOk, string_bytes, codes, map};
ghost use Rattle.pb_model_words.specs.Words.{changes, changes_text, marked, state_text};
ghost use Rattle.pb_model_words.specs.Words.{values_text};
ghost use Rattle.pb_model_words.specs.View.{declarations, variable_said, vocabulary_of};

use crate::unpacking::unpacked_after;
use crate::values::{Values, push_mark};
use crate::variables::Variable;
use crate::vocabulary::Vocabulary;
use std::alloc::{AllocError, Global};

impl Values<'_> {
    /// Each variable whose value after isn't the one before, behind a colon, with commas between.
    fn push_changes(
        &self,
        text: &mut String,
        variables: &[Variable<'_>],
        before: &[i64],
        after: &[i64],
    ) -> Result<(), AllocError>
        ensures { OnOk result (string_bytes text.new ≡ string_bytes text.old
            ++ marked (codes ": ") (codes ", ") (changes (declarations self.now.sorts.now)
            (map variable_said variables.now) before.now after.now)) }
    {
        let mut is_first = true;
        for k in 0..variables.len().min(before.len()).min(after.len()) {
            if before[k] != after[k] {
                push_mark(text, is_first, ": ", ", ")?;
                self.push_binding(text, &variables[k], " := ", after[k])?;
                is_first = false;
            }
        }
        Ok(())
    }
}

/// Puts a state of a model behind a text: `p = idle, n = 3`. An array whose elements are all equal
/// has one value: `said = none`.
///
/// # Errors
/// Memory was refused.
pub fn push_state(
    alloc: Global,
    text: &mut String,
    vocabulary: &Vocabulary<'_>,
    values: &[i64],
) -> Result<(), AllocError>
    ensures { OnOk result (string_bytes text.new
        ≡ string_bytes text.old ++ state_text (vocabulary_of vocabulary.now) values.now) }
{
    let sorts = vocabulary.sorts;
    let variables = &vocabulary.variables;
    match vocabulary.groups {
        None => Values { sorts }.push_equations(text, variables, values),
        Some(groups) => {
            let said = unpacked_after(alloc, groups, &[], values)?;
            Values { sorts }.push_equations(text, variables, &said)
        }
    }
}

/// Puts a state of a model behind a text by its values alone: `(idle,3)`, and nothing where the
/// model has no variables.
///
/// # Errors
/// Memory was refused.
pub fn push_values(
    alloc: Global,
    text: &mut String,
    vocabulary: &Vocabulary<'_>,
    values: &[i64],
) -> Result<(), AllocError>
    ensures { OnOk result (string_bytes text.new
        ≡ string_bytes text.old ++ values_text (vocabulary_of vocabulary.now) values.now) }
{
    let sorts = vocabulary.sorts;
    let variables = &vocabulary.variables;
    match vocabulary.groups {
        None => Values { sorts }.push_in_brackets(text, variables, values),
        Some(groups) => {
            let said = unpacked_after(alloc, groups, &[], values)?;
            Values { sorts }.push_in_brackets(text, variables, &said)
        }
    }
}

/// Puts behind a text what changes from one state of a model to another: `: p := trying, n := 4`,
/// and nothing where they are the same. Of variables whose group leaves its range nothing is told.
///
/// # Errors
/// Memory was refused.
pub fn push_changes(
    alloc: Global,
    text: &mut String,
    vocabulary: &Vocabulary<'_>,
    before: &[i64],
    after: &[i64],
) -> Result<(), AllocError>
    ensures { OnOk result (string_bytes text.new
        ≡ string_bytes text.old
        ++ changes_text (vocabulary_of vocabulary.now) before.now after.now) }
{
    let sorts = vocabulary.sorts;
    let variables = &vocabulary.variables;
    match vocabulary.groups {
        None => Values { sorts }.push_changes(text, variables, before, after),
        Some(groups) => {
            let old = unpacked_after(alloc, groups, &[], before)?;
            let new = unpacked_after(alloc, groups, before, after)?;
            Values { sorts }.push_changes(text, variables, &old, &new)
        }
    }
}
