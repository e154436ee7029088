//! A whole protocol as a flat model.

ghost use Rattle.std.specs.Prelude.{◌≡◌, ◌≤◌, map, length, IfOk, OnOk, string_bytes};
ghost use Rattle.pb_base.specs.OrMemory.{IfRefused};
ghost use Rattle.pb_text_tree.specs.Form.{argument_forms};
ghost use Rattle.pb_text_meaning.specs.Erase.{erased_arguments};
ghost use Rattle.pb_model_tree.specs.Form as flat_form;
ghost use Rattle.pb_model_meaning.specs.Erase.{model_of};
ghost use Rattle.pb_protocol_folding.specs.FoldedModels.{folded_model, folded_steps};
ghost use Rattle.pb_protocol_folding.specs.Names.{AreDistinct, enumerators_in};
ghost use Rattle.pb_protocol_tree.specs.Form.{property_form, protocol_form};
ghost use Rattle.pb_protocol_meaning.specs.Erase.{protocol_of};
ghost use Rattle.pb_protocol_meaning.specs.Steps.{data_of};
ghost use Rattle.pb_protocol_unfolding.specs.Hygiene.{HidesNothing};
ghost use Rattle.pb_protocol_unfolding.specs.Unfolding as definitions;
ghost use Rattle.pb_protocol_unfolder_steps.specs.Steps.{places_from, step_place, step_said};
ghost use Rattle.pb_protocol_unfolder_steps.specs.Unfolder.{form_in, protocol_in};
ghost use Rattle.pb_protocol_unfolder_steps.specs.StepFaults.{IsFaultAtStart};
ghost use Rattle.pb_protocol_unfolder.specs.Faults.{IsUnfoldingFault, OfTerm};
ghost use Rattle.pb_protocol_unfolder.specs.Left.{AreLeft};
ghost use Rattle.pb_protocol_unfolder.specs.Origins.{origin_name, origin_place, told_step_places};
ghost use Rattle.pb_protocol_unfolder.specs.Parts.{IsFaultBy, IsFaultOfModel};
ghost use Rattle.pb_protocol_unfolder.specs.Places.{HavePlacesOf};
ghost use Rattle.pb_protocol_unfolder.specs.Told.{told_steps, told_variables};
ghost use Rattle.pb_protocol_unfolder.specs.Told as told;
ghost use Rattle.pb_protocol_unfolder.specs.Unfolded.{flat_name, property_name};

use crate::fault::{UnfoldingError, of_steps};
use crate::formulas::Formulas;
use crate::impossible::impossible_steps;
use crate::left::left_instances;
use crate::names::{check_definitions, check_elements, check_instances};
use crate::origin::{StepOrigin, step_origins, told_elements};
use crate::property::unfold_properties;
use pb_model_tree as flat;
use pb_model_tree::{InitialState, Model};
use pb_protocol_tree::Protocol;
use pb_protocol_unfolder_steps::{
    Instance, MAX_ELEMENTS, UnfoldedSteps, Unfolder, WholeSteps, elements, flat_state,
    initial_terms, instances, unfold_steps,
};
use pb_text_tree::{Argument, copy_declarations, copy_ranges};
use std::alloc::Global;

fn initial_of(alloc: Global, protocol: &Protocol) -> Result<Vec<Argument>, UnfoldingError>
    requires few { length (definitions.all_elements (protocol_of protocol.now)) ≤ MAX_ELEMENTS }
    ensures initial { IfOk result (λ v. erased_arguments (argument_forms v.items)
        ≡ (folded_model (definitions.unfolded (protocol_of protocol.now))).initial) }
    ensures refused { IfRefused result
        (IsFaultBy (OfTerm (IsFaultAtStart (protocol_form protocol.now)))) }
{
    match initial_terms(alloc, protocol) {
        Ok(terms) => Ok(terms),
        Err(error) => Err(of_steps(error)),
    }
}

/// A flat model, and how users are told of its variables and steps.
#[derive(Drop)]
pub struct Unfolded {
    pub model: Model,
    /// For each state variable the name by which users are told of it: `line(c1)`.
    pub variables: Vec<String>,
    /// For each step where it comes from.
    pub steps: Vec<StepOrigin>,
    /// The names of the protocol's steps that come to none, in order: with none of their values may
    /// they be taken.
    pub impossible: Vec<String>,
}

/// The flat model of a protocol: its steps are these, its other parts are unfolded and folded.
fn flat_model(
    protocol: &Protocol,
    unfolder: &Unfolder<'_, '_>,
    left: &[Instance<'_>],
    steps: Vec<flat::Step>,
) -> Result<Model, UnfoldingError>
    requires protocol { protocol_in unfolder.now ≡ protocol_of protocol.now }
    requires left { AreLeft unfolder.now left.now }
    requires steps { map step_said steps.items
        ≡ folded_steps (data_of (protocol_in unfolder.now))
        (map (definitions.unfolded_step (protocol_in unfolder.now))
        (definitions.instances (protocol_in unfolder.now))) }
    ensures model { IfOk result (λ m. model_of m
        ≡ folded_model (definitions.unfolded (protocol_in unfolder.now))) }
    ensures names { IfOk result (λ m. map flat_name m.properties.items
        ≡ map property_name protocol.now.properties.items) }
    ensures formulas { IfOk result
        (λ m. HavePlacesOf (protocol_form protocol.now) (flat_form.model_form m)) }
    ensures kept { IfOk result (λ m. m.steps ≡ steps) }
    ensures refused { IfRefused result
        (IsFaultBy (IsFaultOfModel (protocol_form protocol.now) (form_in unfolder.now)
        (map property_form protocol.now.properties.items))) }
{
    let alloc = unfolder.alloc();
    let formulas = Formulas::new(unfolder, left);
    let sorts = copy_declarations(alloc, &protocol.sorts)?;
    let ranges = copy_ranges(alloc, &protocol.ranges)?;
    let state = flat_state(alloc, unfolder.elements())?;
    let values = initial_of(alloc, protocol)?;
    let properties = unfold_properties(&formulas, &protocol.properties)?;
    Ok(Model {
        sorts,
        ranges,
        state,
        steps,
        initial: InitialState {
            place: protocol.initial.place,
            values,
        },
        properties,
    })
}

/// The flat model that a protocol is where elements, steps with their values, unless they stay
/// whole, and copies of quantified formulas are written out and folded, and how users are told of
/// it.
///
/// # Errors
/// A rule fails at a place (`UnfoldingRule`), or memory was refused.
pub fn unfold(alloc: Global, protocol: &Protocol) -> Result<Unfolded, UnfoldingError>
    ensures model { IfOk result (λ u. model_of u.model
        ≡ folded_model (definitions.unfolded (protocol_of protocol.now))) }
    ensures names { IfOk result (λ u. map flat_name u.model.properties.items
        ≡ map property_name protocol.now.properties.items) }
    ensures told_variables { IfOk result (λ u. map string_bytes u.variables.items
        ≡ told_variables (protocol_of protocol.now)) }
    ensures told_steps { IfOk result
        (λ u. map origin_name u.steps.items ≡ told_steps (protocol_of protocol.now)) }
    ensures told_places { IfOk result
        (λ u. map origin_place u.steps.items ≡ told_step_places (protocol_form protocol.now)) }
    ensures impossible { IfOk result (λ u. map string_bytes u.impossible.items
        ≡ told.impossible_steps (protocol_of protocol.now)) }
    ensures places { IfOk result (λ u. map step_place u.model.steps.items
        ≡ places_from 0 (length u.model.steps.items)) }
    ensures formulas { IfOk result
        (λ u. HavePlacesOf (protocol_form protocol.now) (flat_form.model_form u.model)) }
    ensures hides_nothing { OnOk result
        (AreDistinct (enumerators_in (protocol_of protocol.now).sorts)
        → HidesNothing (protocol_of protocol.now)) }
    ensures refused { IfRefused result (IsUnfoldingFault (protocol_form protocol.now)) }
{
    let elements = elements(alloc, protocol).map_err(of_steps)?;
    let whole = WholeSteps::among(alloc, protocol, &elements)?;
    let instances = instances(&whole).map_err(of_steps)?;
    check_elements(alloc, &protocol.sorts, &elements)?;
    check_instances(alloc, &instances)?;
    check_definitions(alloc, &protocol.sorts, &protocol.definitions)?;
    let unfolder = Unfolder::new(alloc, protocol, &elements)?;
    let UnfoldedSteps { steps, kept } = unfold_steps(&unfolder, &instances).map_err(of_steps)?;
    let left = left_instances(alloc, &instances, &kept)?;
    let variables = told_elements(alloc, &elements)?;
    let origins = step_origins(alloc, &left)?;
    let model = flat_model(protocol, &unfolder, &left, steps)?;
    let impossible = impossible_steps(&unfolder, &whole, &kept)?;
    Ok(Unfolded {
        model,
        variables,
        steps: origins,
        impossible,
    })
}
