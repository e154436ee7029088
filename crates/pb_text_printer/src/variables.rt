//! Writes variables with their sorts, and quantifiers with their variables.

ghost use Rattle.std.specs.Prelude.{◌≡◌, ◌∷◌, ◌++◌, List, [], IfOk, None, Some, option_map};
ghost use Rattle.std.specs.Prelude.{option_copied};
ghost use Rattle.std.specs.Result.{OnOk};
ghost use Rattle.pb_text_tree.specs.Form.{VariableForm, named, variables_form, variable_forms};
ghost use Rattle.pb_text_printer.specs.Page.{after, page};
ghost use Rattle.pb_text_printer.specs.Parts.{last_sort, variable_behind, variables_behind};
ghost use Rattle.pb_text_printer.specs.Words.{period_word, quantifier_word, variable_words};

use crate::writer::Writer;
use pb_text_tree::{Name, Quantifier, Variables};
use std::alloc::AllocError;

/// A variable behind one of the sort `before`, which is written unless the two sorts are the same.
fn write_variable(
    out: &mut Writer,
    before: Option<&Name>,
    name: &Name,
    sort: &Name,
) -> Result<(), AllocError>
    ensures { OnOk result (page out.new ≡ after
        (variable_behind (option_map named (option_copied before.entry)) (named name.now)
        (named sort.now)) (page out.old)) }
{
    if let Some(before) = before {
        if before.text != sort.text {
            out.close(":")?;
            out.word(before.text.as_str())?;
        }
        out.close(",")?;
    }
    out.word(name.text.as_str())
}

/// The sort of the last variable, if there is one.
fn write_last_sort(out: &mut Writer, before: Option<&Name>) -> Result<(), AllocError>
    ensures { OnOk result (page out.new ≡ after
        (last_sort (option_map named (option_copied before.entry))) (page out.old)) }
{
    match before {
        None => Ok(()),
        Some(sort) => {
            out.close(":")?;
            out.word(sort.text.as_str())
        }
    }
}

/// Variables of one sort behind one of the sort `before`, and the sort of the last variable then.
fn write_group<'t>(
    out: &mut Writer,
    before: Option<&'t Name>,
    group: &'t Variables,
) -> Result<Option<&'t Name>, AllocError>
    ensures { IfOk result (λ last. (vs : List VariableForm)
        → after (variables_behind (option_map named (option_copied last)) vs) (page out.new)
        ≡ after (variables_behind (option_map named (option_copied before.entry))
        (variables_form group.now ++ vs)) (page out.old)) }
{
    let mut last = before;
    for name in &group.names {
        write_variable(out, last, name, &group.sort)?;
        last = Some(&group.sort);
    }
    Ok(last)
}

/// Variables with their sorts, each sort once for those that follow one another.
pub fn write_variables(out: &mut Writer, groups: &[Variables]) -> Result<(), AllocError>
    ensures { OnOk result (page out.new ≡ after (variable_words (variable_forms groups.now))
        (page out.old)) }
{
    let mut last = None;
    for group in groups {
        last = write_group(out, last, group)?;
    }
    write_last_sort(out, last)
}

fn write_binder(out: &mut Writer, quantifier: Quantifier) -> Result<(), AllocError>
    ensures { OnOk result (page out.new ≡ after (quantifier_word quantifier ∷ []) (page out.old)) }
{
    match quantifier {
        Quantifier::Forall => out.word("forall"),
        Quantifier::Exists => out.word("exists"),
    }
}

/// A quantifier with its variables.
pub fn write_quantifier(
    out: &mut Writer,
    quantifier: Quantifier,
    variables: &[Variables],
) -> Result<(), AllocError>
    ensures { OnOk result (page out.new ≡ after
        (quantifier_word quantifier ∷ variable_words (variable_forms variables.now)
        ++ period_word ∷ []) (page out.old)) }
{
    write_binder(out, quantifier)?;
    write_variables(out, variables)?;
    out.close(".")
}
