//! What elements get in a step with its values: those that keep their value are left out.

ghost use Rattle.std.specs.Prelude.{◌≡◌, ◌++◌, List, map, IfOk, OnOk, string_bytes};
ghost use Rattle.pb_base.specs.OrMemory.{IfRefused};
ghost use Rattle.pb_protocol_folding.specs.View.{term_of};
ghost use Rattle.pb_protocol_tree.specs.Form.{assignment_form};
ghost use Rattle.pb_protocol_tree.specs.declared.step.Assignment as declared_assignment;
ghost use Rattle.pb_protocol_meaning.specs.Steps.{data_of};
ghost use Rattle.pb_protocol_unfolder_terms.specs.AssignmentCopies.{AreCopiesOf};
ghost use Rattle.pb_protocol_unfolder_terms.specs.TermFaults.{IsFaultInElement, surroundings_of};
ghost use Rattle.pb_protocol_unfolding.specs.Unfolding.{all_elements};
ghost use Rattle.pb_protocol_unfolder_steps.specs.Elements.{flat_element};
ghost use Rattle.pb_protocol_unfolder_steps.specs.StepFaults.{IsFaultInAssigned, IsFaultInElements};
ghost use Rattle.pb_protocol_unfolder_steps.specs.StepFaults.{OnTerm, WithValues};
ghost use Rattle.pb_protocol_unfolder_steps.specs.Steps.{step_assignment, protocol_assignments, change_of};
ghost use Rattle.pb_protocol_unfolder_steps.specs.Steps.{changed, changes};
ghost use Rattle.pb_protocol_unfolder_steps.specs.Unfolder.{form_in, protocol_in, scope_within};

use crate::element::Element;
use crate::fault::StepsError;
use crate::unfolder::Unfolder;
use pb_model_tree as flat;
use pb_protocol_folding::is_itself;
use pb_protocol_tree::Assignment;
use pb_protocol_unfolder_terms::{AssignmentCopy, TermScope, all_copies, element_name};
use pb_text_tree::{Argument, Name, Place, Term};
use std::alloc::AllocError;

/// What a step assigns, where names stand for its values, and where that stands: all copies of its
/// assignments.
#[derive(Clone, Copy)]
struct Assigning<'a> {
    pub scope: &'a TermScope<'a>,
    pub copies: &'a [AssignmentCopy<'a>],
    pub place: Place,
}

/// Adds what a variable gets, unless that is itself.
fn push_change(
    assignments: &mut Vec<flat::Assignment>,
    variable: Name,
    place: Place,
    term: Term,
) -> Result<(), AllocError>
    ensures { OnOk result (map step_assignment assignments.new.items
        ≡ map step_assignment assignments.old.items
        ++ change_of (string_bytes variable.text) (term_of term)) }
{
    if is_itself(variable.text.as_str(), &term) {
        drop((variable, term));
        return Ok(());
    }
    let value = Argument { place, term };
    assignments.push(flat::Assignment { variable, value })?;
    Ok(())
}

/// Adds what an element gets, unless it keeps its value.
fn push_assignment(
    assignments: &mut Vec<flat::Assignment>,
    unfolder: &Unfolder<'_, '_>,
    assigning: &Assigning<'_>,
    element: &Element<'_>,
) -> Result<(), StepsError>
    ensures assignments { (all : List declared_assignment.Assignment)
        → AreCopiesOf (data_of (protocol_in unfolder.now)) all assigning.now.copies.now
        → OnOk result (map step_assignment assignments.new.items
        ≡ map step_assignment assignments.old.items
        ++ changed (protocol_in unfolder.now)
        (scope_within unfolder.now assigning.now.scope.now)
        (protocol_assignments all) (flat_element element.now)) }
    ensures refused { (all : List declared_assignment.Assignment)
        → AreCopiesOf (data_of (protocol_in unfolder.now)) all assigning.now.copies.now
        → IfRefused result (OnTerm (WithValues assigning.now.scope.now
        (IsFaultInElement (surroundings_of (form_in unfolder.now))
        (scope_within unfolder.now assigning.now.scope.now)
        (map assignment_form all) (flat_element element.now)))) }
{
    let variable = element_name(unfolder.alloc(), element.name, &element.index)?;
    let term = unfolder.unfold_assigned(assigning.scope, assigning.copies, element)?;
    push_change(assignments, variable, assigning.place, term)?;
    Ok(())
}

/// What elements get, without those that keep their value. Each assignment stands at the place.
fn unfold_assignments<'x>(
    unfolder: &Unfolder<'_, '_>,
    scope: &'x TermScope<'x>,
    copies: &'x [AssignmentCopy<'x>],
    place: Place,
    elements: &[Element<'_>],
) -> Result<Vec<flat::Assignment>, StepsError>
    ensures assignments { (all : List declared_assignment.Assignment)
        → AreCopiesOf (data_of (protocol_in unfolder.now)) all copies.now
        → IfOk result (λ v. map step_assignment v.items
        ≡ changes (protocol_in unfolder.now) (scope_within unfolder.now scope.now)
        (protocol_assignments all) (map flat_element elements.now)) }
    ensures refused { (all : List declared_assignment.Assignment)
        → AreCopiesOf (data_of (protocol_in unfolder.now)) all copies.now
        → IfRefused result (OnTerm (WithValues scope.now
        (IsFaultInElements (form_in unfolder.now) (scope_within unfolder.now scope.now)
        (map assignment_form all) (map flat_element elements.now)))) }
{
    let assigning = Assigning {
        scope,
        copies,
        place,
    };
    let mut assignments = Vec::new(unfolder.alloc());
    for element in elements {
        push_assignment(&mut assignments, unfolder, &assigning, element)?;
    }
    Ok(assignments)
}

/// What all elements get by the assignments of a step, without those that keep their value. Each
/// stands at the place.
pub(crate) fn unfold_all(
    unfolder: &Unfolder<'_, '_>,
    scope: &TermScope<'_>,
    assignments: &[Assignment],
    place: Place,
) -> Result<Vec<flat::Assignment>, StepsError>
    ensures assignments { IfOk result (λ v. map step_assignment v.items
        ≡ changes (protocol_in unfolder.now) (scope_within unfolder.now scope.now)
        (protocol_assignments assignments.now) (all_elements (protocol_in unfolder.now))) }
    ensures refused { IfRefused result (OnTerm (WithValues scope.now
        (IsFaultInAssigned (form_in unfolder.now) (scope_within unfolder.now scope.now)
        (map assignment_form assignments.now) (all_elements (protocol_in unfolder.now))))) }
{
    let spreads = unfolder.spread(assignments)?;
    let copies = all_copies(unfolder.alloc(), &spreads)?;
    unfold_assignments(unfolder, scope, &copies, place, unfolder.elements())
}
