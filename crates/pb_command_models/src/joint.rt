//! Properties that say the same of each reached state: one exploration decides them together where
//! all of them are satisfied.
ghost use Rattle.std.specs.Prelude.{◌<◌, ℕ, length, IfOk};
ghost use Rattle.std.specs.List.{All};
ghost use Rattle.pb_model_tree.specs.Form.{model_form};
ghost use Rattle.pb_command_models.specs.Outcomes.{AreSatisfied};

use crate::decision::DecisionOptions;
use crate::outcome::is_satisfied;
use crate::property_module::property_module;
use crate::property_text::PropertyText;
use pb_command_solver::{Context, Progress};
use pb_model_properties::{JointText, SolvedModel, joint_text};
use std::alloc::{AllocError, Global};
use std::thread::Threads;

// Those of these places that aren't among the known ones.
fn places_besides(
    alloc: Global,
    places: &[usize],
    known: &[usize],
) -> Result<Vec<usize>, AllocError>
    ensures { (bound : ℕ) → All (λ place. place < bound) places.now
        → IfOk result (λ others. All (λ place. place < bound) others.items) }
{
    let mut others = Vec::new(alloc);
    for place in places {
        if !known.contains(place) {
            others.push(*place)?;
        }
    }
    Ok(others)
}

/// Places of properties that are satisfied: the known ones, and of the others those that are
/// satisfied together.
///
/// # Errors
/// Memory was refused.
pub(crate) fn satisfied_too<R: Threads + Sync, G: Progress + Sync>(
    context: &Context<'_, R, G>,
    solved: &SolvedModel,
    places: &[usize],
    known: Vec<usize>,
    options: DecisionOptions,
) -> Result<Vec<usize>, AllocError>
    requires within { All
        (λ place. place < length solved.now.typed.model.properties.items) places.now }
    requires known { AreSatisfied known.items (model_form solved.now.typed.model) }
    ensures { IfOk result (λ satisfied.
        AreSatisfied satisfied.items (model_form solved.now.typed.model)) }
{
    let others = places_besides(context.alloc, places, &known)?;
    let together = satisfied_together(context, solved, &others, options)?;
    let mut satisfied = known;
    satisfied.extend_from_slice(&together)?;
    Ok(satisfied)
}

/// The places of those among these properties that are invariants, where one exploration shows that
/// all of these are satisfied; else none. Counts are those of each property's own text, so that
/// where they are asked for none is explored with others.
///
/// # Errors
/// Memory was refused.
fn satisfied_together<R: Threads + Sync, G: Progress + Sync>(
    context: &Context<'_, R, G>,
    solved: &SolvedModel,
    places: &[usize],
    options: DecisionOptions,
) -> Result<Vec<usize>, AllocError>
    requires { All (λ place. place < length solved.now.typed.model.properties.items) places.now }
    ensures { IfOk result (λ satisfied.
        AreSatisfied satisfied.items (model_form solved.now.typed.model)) }
{
    let alloc = context.alloc;
    if options.counts {
        return Ok(Vec::new(alloc));
    }
    let Some(joint) = joint_text(alloc, solved, places)? else {
        return Ok(Vec::new(alloc));
    };
    let JointText { places, text } = joint;
    let module = property_module(alloc, PropertyText::Typed(text))?;
    if is_satisfied(context, &module, options.solving)? {
        return Ok(places);
    }
    Ok(Vec::new(alloc))
}
