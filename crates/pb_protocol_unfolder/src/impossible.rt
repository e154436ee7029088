//! The steps of a protocol that with none of their values may be taken.

ghost use Rattle.std.specs.Prelude.{◌≡◌, ◌≤◌, ◌++◌, [], ◌∷◌, if◌then◌else◌, length, map, IfOk, OnOk};
ghost use Rattle.std.specs.Prelude.{string_bytes};
ghost use Rattle.std.specs.List.{list_any};
ghost use Rattle.pb_base.specs.OrMemory.{IfRefused};
ghost use Rattle.pb_protocol_unfolding.specs.Unfolding as definitions;
ghost use Rattle.pb_protocol_unfolder_steps.specs.Elements.{instances_of_step};
ghost use Rattle.pb_protocol_unfolder_steps.specs.Steps.{is_kept};
ghost use Rattle.pb_protocol_unfolder_steps.specs.Unfolder.{protocol_in};
ghost use Rattle.pb_protocol_unfolder.specs.Parts.{OfManyTuples};
ghost use Rattle.pb_protocol_unfolder.specs.Told as told;

use crate::fault::UnfoldingError;
use crate::formula::tuples_of;
use pb_protocol_tree::Step;
use pb_protocol_unfolder_steps::{MAX_WRITTEN_STEPS, Unfolder, WholeSteps};
use pb_protocol_unfolder_terms::variables_of;
use std::alloc::{AllocError, Global};

/// How many steps with values a step makes; one where it stays whole.
fn instance_count(
    unfolder: &Unfolder<'_, '_>,
    whole: &WholeSteps<'_>,
    step: &Step,
) -> Result<usize, UnfoldingError>
    requires { whole.now ≡ unfolder.now }
    ensures count { IfOk result (λ n. n
        ≡ length (instances_of_step (protocol_in unfolder.now) step.now)) }
    ensures refused { IfRefused result (OfManyTuples step.now.name.place
        (instances_of_step (protocol_in unfolder.now) step.now)) }
{
    if whole.has(step)? {
        return Ok(1);
    }
    let variables = variables_of(unfolder.alloc(), &step.variables)?;
    let tuples = tuples_of(unfolder, &variables, step.name.place)?;
    Ok(tuples.len())
}

/// Whether some of these are kept.
fn is_some_kept(kept: &[bool]) -> bool
    ensures { result ≡ list_any (λ is_kept. is_kept) kept.now }
{
    kept.iter().any(|is_kept| *is_kept)
}

/// Adds the name of a step, unless some of its steps with values are kept.
fn push_unless_kept(
    alloc: Global,
    names: &mut Vec<String>,
    step: &Step,
    kept: &[bool],
) -> Result<(), AllocError>
    ensures { OnOk result (map string_bytes names.new.items ≡ map string_bytes names.old.items
        ++ (if list_any (λ is_kept. is_kept) kept.now then []
        else string_bytes step.now.name.text ∷ [])) }
{
    if !is_some_kept(kept) {
        names.push(step.name.text.as_str().to_owned(alloc)?)?;
    }
    Ok(())
}

/// The names of the steps that with none of their values may be taken, where for each step with its
/// values it is said whether it is kept.
pub(crate) fn impossible_steps(
    unfolder: &Unfolder<'_, '_>,
    whole: &WholeSteps<'_>,
    kept: &[bool],
) -> Result<Vec<String>, UnfoldingError>
    requires protocol { whole.now ≡ unfolder.now }
    requires kept { kept.now ≡ map (is_kept (protocol_in unfolder.now))
        (definitions.instances (protocol_in unfolder.now)) }
    requires few { length (definitions.instances (protocol_in unfolder.now)) ≤ MAX_WRITTEN_STEPS }
    ensures names { IfOk result
        (λ v. map string_bytes v.items ≡ told.impossible_steps (protocol_in unfolder.now)) }
    ensures refused { IfRefused result (λ _. ⊥) }
{
    let mut names = Vec::new(unfolder.alloc());
    let mut rest = kept;
    for step in &unfolder.protocol().steps {
        let count = instance_count(unfolder, whole, step)?;
        let (own, others) = rest.split_at(count);
        push_unless_kept(unfolder.alloc(), &mut names, step, own)?;
        rest = others;
    }
    Ok(names)
}
