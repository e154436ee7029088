//! Whether a model has more variables than a text has parameters, so that it is packed.

ghost use Rattle.std.specs.Prelude.{◌≡◌, nat_lt, flat_map, length, map, sum, vec_len, IfOk};
ghost use Rattle.pb_base.specs.declared.limits.TheConstants.{MAX_PARAMETERS};
ghost use Rattle.pb_text_tree.specs.Form.{variable_forms};
ghost use Rattle.pb_protocol_tree.specs.Form.{state_variables_form};

use pb_base::MAX_PARAMETERS;
use pb_protocol_tree::StateVariables;
use pb_text_tree::Variables;
use std::alloc::{AllocError, Global};

/// Whether groups of so many variables have more of them together than a text has parameters.
fn are_many(groups: &[usize]) -> bool
    ensures { result ≡ nat_lt MAX_PARAMETERS (sum groups.now) }
{
    let mut left = MAX_PARAMETERS;
    for count in groups {
        if *count > left {
            return true;
        }
        left -= *count;
    }
    false
}

fn flat_counts(alloc: Global, state: &[Variables]) -> Result<Vec<usize>, AllocError>
    ensures { IfOk result (λ v. v.items ≡ map (λ group. vec_len group.names) state.now) }
{
    let mut counts = Vec::new(alloc);
    for group in state {
        counts.push(group.names.len())?;
    }
    Ok(counts)
}

fn protocol_counts(alloc: Global, state: &[StateVariables]) -> Result<Vec<usize>, AllocError>
    ensures { IfOk result (λ v. v.items ≡ map (λ group. vec_len group.variables) state.now) }
{
    let mut counts = Vec::new(alloc);
    for group in state {
        counts.push(group.variables.len())?;
    }
    Ok(counts)
}

/// Whether the state of a flat model has more variables than a text has parameters.
pub(crate) fn is_flat_state_large(alloc: Global, state: &[Variables]) -> Result<bool, AllocError>
    ensures { IfOk result
        (λ large. large ≡ nat_lt MAX_PARAMETERS (length (variable_forms state.now))) }
{
    let counts = flat_counts(alloc, state)?;
    Ok(are_many(&counts))
}

/// Whether the state of a protocol has more variables than a text has parameters.
pub(crate) fn is_state_large(alloc: Global, state: &[StateVariables]) -> Result<bool, AllocError>
    ensures { IfOk result (λ large. large
        ≡ nat_lt MAX_PARAMETERS (length (flat_map state_variables_form state.now))) }
{
    let counts = protocol_counts(alloc, state)?;
    Ok(are_many(&counts))
}
