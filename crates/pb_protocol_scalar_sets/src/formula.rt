//! Which formulas are the same where elements are permuted.

ghost use Rattle.std.specs.Prelude.{◌≡◌, map, string_bytes};
ghost use Rattle.std.specs.List.{list_all, slice_get};
ghost use Rattle.std.specs.Option.{option_map};
ghost use Rattle.pb_text_tree.specs.Form.{variable_forms};
ghost use Rattle.pb_text_meaning.specs.Erase.{erased_variables};
ghost use Rattle.pb_protocol_tree.specs.Form.{formula_form, step_form, step_set_form};
ghost use Rattle.pb_protocol_tree.specs.Form.{step_value_form};
ghost use Rattle.pb_protocol_meaning.specs.Erase.{erased_formula, erased_step, erased_steps};
ghost use Rattle.pb_protocol_meaning.specs.Erase.{erased_value};
ghost use Rattle.pb_protocol_symmetry.specs.Kinds.{extended};
ghost use Rattle.pb_protocol_scalar_sets.specs.Formulas.{formula_fits, link_fits, set_fits};
ghost use Rattle.pb_protocol_scalar_sets.specs.Formulas.{set_link_fits, sort_at, start_context};
ghost use Rattle.pb_protocol_scalar_sets.specs.Formulas.{state_context, value_fits, values_fit};
ghost use Rattle.pb_protocol_scalar_sets.specs.View.{scope_of, text_of};

use crate::kind::{is_kind, is_plain, kind_of};
use crate::scalar_set::ScalarSet;
use crate::scope::Around;
use crate::signature::Known;
use crate::term::{Context, kind_in};
use pb_protocol_tree::{Formula, Link, Step, StepSet, StepSetLink, StepValue};
use pb_text_tree::{Name, Variables};

/// What formulas are read by: a set of elements, and what may be named at a state and where there
/// is none.
#[derive(Clone, Copy)]
pub(crate) struct Readings<'a> {
    pub set: ScalarSet<'a>,
    pub at_states: Known<'a>,
    pub at_start: Known<'a>,
}

impl<'a> Readings<'a> {
    fn at_states(&self) -> Context<'a>
        ensures { result ≡ state_context self.now }
    {
        Context {
            set: self.set,
            known: self.at_states,
        }
    }

    fn at_start(&self) -> Context<'a>
        ensures { result ≡ start_context self.now }
    {
        Context {
            set: self.set,
            known: self.at_start,
        }
    }
}

/// The sort of the variable at a place among those of all groups.
fn sort_at<'a>(groups: &'a [Variables], place: usize) -> Option<&'a Name>
    ensures { option_map text_of result
        ≡ sort_at (erased_variables (variable_forms groups.now)) place }
{
    let mut left = place;
    for group in groups {
        let count = group.names.len();
        if left < count {
            return Some(&group.sort);
        }
        left -= count;
    }
    None
}

/// Whether a value of a step's own variable of a sort has its kind.
fn value_fits<'a>(
    context: &Context<'_>,
    around: &'a Around<'a>,
    sort: Option<&Name>,
    value: &'a StepValue,
) -> bool
    ensures { result ≡ value_fits context.now (scope_of around.now)
        (option_map text_of sort.entry) (erased_value (step_value_form value.now)) }
{
    match (sort, value) {
        (Some(sort), StepValue::Value(argument)) => {
            let wanted = kind_of(context.set.sort, &sort.text);
            is_kind(wanted, kind_in(context, around, &argument.term))
        }
        _ => true,
    }
}

/// Whether the values of a step's own variables have their kinds.
fn values_fit<'a>(
    context: &Context<'_>,
    around: &'a Around<'a>,
    groups: &[Variables],
    values: &'a [StepValue],
) -> bool
    ensures { result ≡ values_fit context.now (scope_of around.now)
        (erased_variables (variable_forms groups.now))
        (map erased_value (map step_value_form values.now)) }
{
    for (place, value) in values.iter().enumerate() {
        if !value_fits(context, around, sort_at(groups, place), value) {
            return false;
        }
    }
    true
}

#[cycle(step_sets)]
fn set_links_fit<'a>(
    context: &Context<'_>,
    around: &'a Around<'a>,
    links: &'a [StepSetLink],
    step: &Step,
) -> bool
    ensures { result ≡ list_all (set_link_fits context.now (scope_of around.now)
        (erased_step (step_form step.now))) links.now }
{
    for link in links {
        if !set_fits(context, around, &link.operand, step) {
            return false;
        }
    }
    true
}

/// Whether a set of steps, as it reads a step, is the same where elements are permuted.
#[cycle(step_sets)]
fn set_fits<'a>(
    context: &Context<'_>,
    around: &'a Around<'a>,
    set: &'a StepSet,
    step: &Step,
) -> bool
    ensures { result ≡ set_fits context.now (scope_of around.now)
        (erased_steps (step_set_form set.now)) (erased_step (step_form step.now)) }
{
    match set {
        StepSet::All { .. } | StepSet::Step(_) => true,
        StepSet::Instances { step: name, values } => {
            if name.text.as_str() != step.name.text.as_str() {
                return true;
            }
            values_fit(context, around, &step.variables, values)
        }
        StepSet::Complement { operand, .. } => set_fits(context, around, operand, step),
        StepSet::Union { first, links } => {
            if !set_fits(context, around, first, step) {
                return false;
            }
            set_links_fit(context, around, links, step)
        }
    }
}

/// Whether a set of steps is the same, as it reads all steps.
fn set_fits_all<'a>(
    context: &Context<'_>,
    around: &'a Around<'a>,
    set: &'a StepSet,
    steps: &[Step],
) -> bool
    ensures { result ≡ list_all (set_fits context.now (scope_of around.now)
        (erased_steps (step_set_form set.now))) (map erased_step (map step_form steps.now)) }
{
    for step in steps {
        if !set_fits(context, around, set, step) {
            return false;
        }
    }
    true
}

#[cycle(formulas)]
fn links_fit<'a>(readings: &Readings<'_>, around: &'a Around<'a>, links: &'a [Link]) -> bool
    ensures { result ≡ list_all (link_fits readings.now (scope_of around.now)) links.now }
{
    for link in links {
        if !formula_fits(readings, around, &link.operand) {
            return false;
        }
    }
    true
}

/// Whether a formula is the same where elements are permuted.
#[cycle(formulas)]
pub(crate) fn formula_fits<'a>(
    readings: &Readings<'_>,
    around: &'a Around<'a>,
    formula: &'a Formula,
) -> bool
    ensures { result ≡ formula_fits readings.now (scope_of around.now)
        (erased_formula (formula_form formula.now)) }
{
    match formula {
        Formula::Constant { .. } | Formula::Variable(_) => true,
        Formula::Data { term, .. } => is_plain(kind_in(&readings.at_states(), around, term)),
        Formula::Negation { operand, .. } => formula_fits(readings, around, operand),
        Formula::Chain { first, links, .. } => {
            if !formula_fits(readings, around, first) {
                return false;
            }
            links_fit(readings, around, links)
        }
        Formula::Modal { steps, operand, .. } => {
            let all = &readings.set.protocol.steps;
            if !set_fits_all(&readings.at_start(), around, steps, all) {
                return false;
            }
            formula_fits(readings, around, operand)
        }
        Formula::Fixpoint { body, .. } => formula_fits(readings, around, body),
        Formula::Quantified {
            variables,
            body,
            ..
        } => {
            let inner = Around::Variables(variables, around);
            formula_fits(readings, &inner, body)
        }
    }
}
