//! Unfolds what an element of an array gets by assignments.

ghost use Rattle.std.specs.Prelude.{◌≡◌, ◌≤◌, ◌↔◌, ◌+◌, suc, false, true, length, drop, map, IfOk, IsTrue};
ghost use Rattle.std.specs.Prelude.{IfErr, List, string_bytes};
ghost use Rattle.pb_protocol_tree.specs.Form.{assignment_form};
ghost use Rattle.std.specs.Prelude.{MatchResult};
ghost use Rattle.pb_protocol_folding.specs.Folding.{folded};
ghost use Rattle.pb_protocol_folding.specs.View.{term_of};
ghost use Rattle.pb_protocol_folding.specs.View as tree;
ghost use Rattle.pb_text_meaning.specs.Syntax as syntax;
ghost use Rattle.pb_protocol_meaning.specs.Syntax as protocol;
ghost use Rattle.pb_protocol_meaning.specs.Steps.{data_of};
ghost use Rattle.pb_protocol_unfolding.specs.PutIn.{put_in};
ghost use Rattle.pb_protocol_unfolding.specs.Unfolding as spec;
ghost use Rattle.pb_protocol_tree.specs.declared.step.Assignment as declared_assignment;
ghost use Rattle.pb_protocol_unfolder_terms.specs.declared.context.Context as declared_context;
ghost use Rattle.pb_protocol_unfolder_terms.specs.AssignmentCopies.{AreCopiesOf, assignments_said};
ghost use Rattle.pb_protocol_unfolder_terms.specs.AssignmentCopies.{copy_behind, scope_in_copy};
ghost use Rattle.pb_protocol_unfolder_terms.specs.Assigned.{after_by, compared_by, condition_by};
ghost use Rattle.pb_protocol_unfolder_terms.specs.Assigned.{IsLatest, element_said, placed_by};
ghost use Rattle.pb_protocol_unfolder_terms.specs.Assigned.{scope_around, scope_inside};
ghost use Rattle.pb_protocol_unfolder_terms.specs.Behind.{IsBehind};
ghost use Rattle.pb_protocol_unfolder_terms.specs.Contexts.{IsContext, IsSeenInside, folding_in};
ghost use Rattle.pb_protocol_unfolder_terms.specs.Contexts.{forms_in, scope_in, spec_in};
ghost use Rattle.pb_protocol_unfolder_terms.specs.Met.{Surroundings};
ghost use Rattle.pb_protocol_unfolder_terms.specs.TermFaults.{HasValues, IfFaultAt, IsFaultInAssignment};
ghost use Rattle.pb_protocol_unfolder_terms.specs.TermFaults.{IsFaultInCopies, IsFaultInElement};
ghost use Rattle.pb_protocol_unfolder_terms.specs.TermFaults.{scope_by};
ghost use Rattle.pb_protocol_unfolder_terms.specs.Tells.{AreIndices, AreIndicesMet, Tells, scope_said};
ghost use Rattle.pb_protocol_unfolder_terms.specs.Tells.{surroundings_in};
ghost use Rattle.pb_protocol_unfolder_terms.specs.Unfolding.{IsRefusal, IsUnfolded, Unfolds};
ghost use Rattle.pb_protocol_unfolder_terms.specs.Unfolding.{operator_count};

use crate::array::{choice, choosing, chosen, equality};
use crate::bounds::is_within;
use crate::context::Context;
use crate::copies::AssignmentCopy;
use crate::element::element_name;
use crate::fault::{UnfoldError, UnfoldRule};
use crate::form::Form;
use crate::level::{Level, behind_all, behind_one, refused};
use crate::meant::variable_at;
use crate::operands::{Connected, connected_term, decides};
use crate::pair::paired;
use crate::scope::TermScope;
use crate::sorts::Variable;
use crate::term::MAX_LEVELS;
use crate::unfold::unfold;
use crate::unfolded::Unfolded;
use crate::written::Written;
use pb_base::MAX_OPERATORS;
use pb_protocol_folding::truth_value;
use pb_protocol_tree::Assignment;
use pb_text_tree::{Argument, Connective, Name, Place, Term};
use std::alloc::{AllocError, Global};

/// An element of an array, or a plain state variable: its name, and a written value for each index.
#[derive(Clone, Copy)]
pub struct Element<'a> {
    pub array: &'a Name,
    pub index: &'a [Written<'a>],
}

/// Arguments of an array, which are compared with written values, and the array's indices as far as
/// they are known. The place is that of the array.
#[derive(Clone, Copy)]
pub(crate) struct Compared<'a> {
    pub place: Place,
    pub arguments: &'a [Argument],
    pub index: &'a [Written<'a>],
    pub indices: &'a [Variable<'a>],
}

/// What an element gets by the last of the copies of assignments that isn't seen to be to another
/// one.
#[derive(Drop)]
pub(crate) enum Latest {
    /// There is none, and this is what the element is.
    Unassigned(Unfolded),
    /// The one at this place, where its index is the element's, and else what those before it give.
    Assigned {
        place: usize,
        /// Whether its index is the element's.
        condition: Unfolded,
    },
}

/// A truth value.
fn truth(place: Place, value: bool, room: u32) -> Unfolded
    ensures { (folding : syntax.Spec) (truth : _) →
        IsUnfolded folding truth room (syntax.Term.Truth value) result }
{
    Unfolded {
        term: Term::Constant { place, value },
        form: Form::Truth(value),
        room,
    }
}

/// Whether an unfolded index is seen to stay inside the sort of an array's first index.
fn stays_inside(context: &Context<'_>, indices: &[Variable<'_>], index: &Term) -> bool
    ensures { IsTrue result ↔ IsSeenInside context.now indices.now (term_of index.now) }
{
    match indices.first() {
        Some(variable) => is_within(context, index, variable.sort),
        None => true,
    }
}

/// A comparison and what is compared behind it, both true.
fn both(alloc: Global, place: Place, equal: Term, others: Unfolded) -> Result<Unfolded, AllocError>
    ensures { (folding : syntax.Spec) (n m : _) (x y : syntax.Term) →
        term_of equal ≡ folded folding true x
        → IsUnfolded folding true n y others
        → m ≤ n + suc (operator_count x)
        → IfOk result (IsUnfolded folding true m (syntax.Term.Binary syntax.Operator.And x y)) }
{
    let connected = Connected {
        connective: Connective::And,
        truth: true,
    };
    let term = connected_term(alloc, connected, place, equal, others.term)?;
    Ok(Unfolded {
        term,
        form: Form::Other,
        room: others.room,
    })
}

/// What a comparison that is `false` gives with what is compared behind it.
fn none_equal(place: Place, room: u32) -> Unfolded
    ensures { (folding : syntax.Spec) (n : _) (x y : syntax.Term) →
        folded folding true x ≡ syntax.Term.Truth false
        → n ≤ room + suc (operator_count x)
        → IsUnfolded folding true n (syntax.Term.Binary syntax.Operator.And x y) result }
{
    Unfolded {
        term: Term::Constant {
            place,
            value: false,
        },
        form: Form::Other,
        room,
    }
}

/// An element that is not assigned.
fn itself(alloc: Global, element: Element<'_>, room: u32) -> Result<Unfolded, AllocError>
    ensures { (folding : syntax.Spec) (sort : syntax.Name) (truth : _) → IfOk result
        (IsUnfolded folding truth room
        (syntax.Term.Named (spec.name_of (element_said element.entry sort)))) }
{
    let name = element_name(alloc, element.array, element.index)?;
    Ok(Unfolded {
        term: Term::Name(name),
        form: Form::Name,
        room,
    })
}

/// The indices of the state variable of a name with so many, if there is one.
fn indices_of<'a>(context: &'a Context<'a>, array: &str, count: usize) -> &'a [Variable<'a>]
    ensures { AreIndices context.now array.now result.now }
{
    match variable_at(&context.variables, array, count) {
        Some(variable) => variable.indices.as_slice(),
        None => &[],
    }
}

/// The arguments of an assignment to an element's array, with the element's values.
fn compared_with<'a>(
    context: &'a Context<'a>,
    assignment: &'a Assignment,
    element: Element<'a>,
) -> Compared<'a>
    ensures arguments { result.arguments.now ≡ assignment.now.index.items }
    ensures index { result.index.now ≡ element.entry.index.now }
    ensures indices { AreIndices context.now (string_bytes assignment.now.variable.text)
        result.indices.now }
    ensures place { result.place ≡ assignment.now.variable.place }
{
    Compared {
        place: assignment.variable.place,
        arguments: &assignment.index,
        index: element.index,
        indices: indices_of(
            context,
            assignment.variable.text.as_str(),
            element.index.len(),
        ),
    }
}

/// The array's indices behind the first.
fn behind_first<'a>(indices: &'a [Variable<'a>]) -> &'a [Variable<'a>]
    ensures { result.now ≡ drop 1 indices.now }
{
    if indices.is_empty() {
        return indices;
    }
    &indices[1..]
}

/// Whether the arguments are the written values, where its truth alone counts.
fn unfold_compared<'a>(
    context: &'a Context<'a>,
    scope: &'a TermScope<'a>,
    level: Level,
    compared: Compared<'a>,
) -> Result<Unfolded, UnfoldError>
    ensures term { Unfolds (folding_in context.now) true level.room
        (compared_by context.now level.definitions scope.now compared.entry) result }
    ensures faults { Tells context.now result (AreIndicesMet context.now level.depth
        level.definitions scope.now compared.entry.place compared.entry.arguments.now
        compared.entry.indices.now) }
{
    let place = compared.place;
    let Some(argument) = compared.arguments.first() else {
        return Ok(truth(place, compared.index.is_empty(), level.room));
    };
    let Some(value) = compared.index.first() else {
        return Ok(truth(place, false, level.room));
    };
    let inner = Level {
        truth: false,
        room: behind_all(level.room, 2, place)?,
        ..level
    };
    let index = unfold(context, scope, inner, &argument.term)?;
    if !stays_inside(context, compared.indices, &index.term) {
        drop(index);
        return Err(refused(UnfoldRule::Index, argument.place));
    }
    let room = index.room;
    let Ok(equal) = equality(&context.folding(), &index.term, *value, place) else {
        drop(index);
        return Err(UnfoldError::Memory);
    };
    drop(index);
    if decides(Connective::And, &equal) {
        drop(equal);
        return Ok(none_equal(place, room));
    }
    let others = Compared {
        place,
        arguments: &compared.arguments[1..],
        index: &compared.index[1..],
        indices: behind_first(compared.indices),
    };
    let inner = Level { room, ..inner };
    let others = unfold_compared(context, scope, inner, others);
    let (equal, others) = paired(equal, others)?;
    Ok(both(context.alloc, place, equal, others)?)
}

/// What an element is behind assignments that are seen to be to another one, if there are any.
fn passed_over(passed: bool, unfolded: Unfolded) -> Unfolded
    ensures { (folding : syntax.Spec) (n left : _) (whole rest : syntax.Term) →
        IsBehind folding n whole rest passed left
        → IsUnfolded folding false left rest unfolded
        → IsUnfolded folding false n whole result }
{
    if passed {
        return Unfolded {
            form: Form::Other,
            ..unfolded
        };
    }
    unfolded
}

/// How many more operators there may be behind a term that is done with.
fn room_behind(unfolded: Unfolded) -> u32
    ensures { result ≡ unfolded.room }
{
    let room = unfolded.room;
    drop(unfolded);
    room
}

/// What names stand for in a copy of an assignment.
fn inside<'a>(copy: AssignmentCopy<'a>, scope: &'a TermScope<'a>) -> TermScope<'a>
    ensures scope { (c : declared_context.Context) → scope_around c result
        ≡ scope_in_copy (scope_around c scope.now) (copy_behind copy.entry) }
    ensures values { HasValues scope.now → HasValues result }
{
    TermScope::Values {
        variables: copy.variables,
        values: copy.values,
        outer: scope,
    }
}

/// Whether a copy's index is the element's, where its truth alone counts.
fn unfold_condition<'a>(
    context: &'a Context<'a>,
    scope: &'a TermScope<'a>,
    level: Level,
    copy: AssignmentCopy<'a>,
    element: Element<'a>,
) -> Result<Unfolded, UnfoldError>
    ensures term { (sort : syntax.Name) → Unfolds (folding_in context.now) true level.room
        (condition_by context.now level.definitions scope.now copy.entry
        (element_said element.entry sort)) result }
    ensures faults { HasValues scope.now → IfErr result
        (IfFaultAt (IsFaultInAssignment (surroundings_in context.now) level.depth
        level.definitions (scope_inside context.now scope.now copy.entry)
        (assignment_form copy.entry.assignment.now))) }
{
    let inner = inside(copy, scope);
    let compared = compared_with(context, copy.assignment, element);
    unfold_compared(&*context, &inner, level, compared)
}

/// The last of the copies that isn't seen to be to another element.
fn last_assignment<'a>(
    context: &'a Context<'a>,
    scope: &'a TermScope<'a>,
    level: Level,
    copies: &'a [AssignmentCopy<'a>],
    element: Element<'a>,
) -> Result<Latest, UnfoldError>
    ensures latest { (sort : syntax.Name) → MatchResult result
        (IsLatest context.now level.definitions level.room scope.now copies.now
        (element_said element.entry sort))
        (IsRefusal level.room (after_by context.now level.definitions scope.now copies.now
        (element_said element.entry sort))) }
    ensures faults { HasValues scope.now → IfErr result
        (IfFaultAt (IsFaultInCopies (surroundings_in context.now) level.depth level.definitions
        (placed_by context.now scope.now copies.now))) }
{
    let mut room = level.room;
    let mut passed = false;
    for place in (0..copies.len()).rev() {
        let copy = copies[place];
        let variable = &copy.assignment.variable;
        if variable.text.as_str() != element.array.text.as_str() {
            continue;
        }
        let inner = Level {
            room: behind_one(room, variable.place)?,
            ..level
        };
        let condition = unfold_condition(context, scope, inner, copy, element)?;
        if !decides(Connective::And, &condition.term) {
            return Ok(Latest::Assigned { place, condition });
        }
        room = room_behind(condition);
        passed = true;
    }
    let unfolded = itself(context.alloc, element, room)?;
    Ok(Latest::Unassigned(passed_over(passed, unfolded)))
}

/// The term of a copy, with its names' terms put in.
fn unfold_value<'a>(
    context: &'a Context<'a>,
    scope: &'a TermScope<'a>,
    level: Level,
    copy: AssignmentCopy<'a>,
) -> Result<Unfolded, UnfoldError>
    ensures term { Unfolds (folding_in context.now) level.truth level.room
        (put_in (spec_in context.now) (forms_in context.now level.definitions)
        (scope_inside context.now scope.now copy.entry)
        (tree.term_of copy.entry.assignment.now.value.term)) result }
    ensures faults { HasValues scope.now → IfErr result
        (IfFaultAt (IsFaultInAssignment (surroundings_in context.now) level.depth
        level.definitions (scope_inside context.now scope.now copy.entry)
        (assignment_form copy.entry.assignment.now))) }
{
    let inner = inside(copy, scope);
    unfold(&*context, &inner, level, &copy.assignment.value.term)
}

/// What an element is after copies of assignments, of which the last to it counts.
fn unfold_after<'a>(
    context: &'a Context<'a>,
    scope: &'a TermScope<'a>,
    level: Level,
    copies: &'a [AssignmentCopy<'a>],
    element: Element<'a>,
) -> Result<Unfolded, UnfoldError>
    ensures term { (sort : syntax.Name) → Unfolds (folding_in context.now) false level.room
        (after_by context.now level.definitions scope.now copies.now
        (element_said element.entry sort)) result }
    ensures faults { HasValues scope.now → IfErr result
        (IfFaultAt (IsFaultInCopies (surroundings_in context.now) level.depth level.definitions
        (placed_by context.now scope.now copies.now))) }
{
    let latest = last_assignment(context, scope, level, copies, element)?;
    match latest {
        Latest::Unassigned(unfolded) => Ok(unfolded),
        Latest::Assigned { place, condition } => {
            let copy = copies[place];
            let assigned_at = copy.assignment.variable.place;
            let inner = Level {
                truth: false,
                room: condition.room,
                ..level
            };
            if let Some(true) = truth_value(&condition.term) {
                drop(condition);
                return Ok(chosen(unfold_value(context, scope, inner, copy)?));
            }
            let Ok(name) = choosing(context.alloc, assigned_at) else {
                drop(condition);
                return Err(UnfoldError::Memory);
            };
            let Some(depth) = level.depth.checked_sub(1) else {
                drop(condition);
                return Err(refused(UnfoldRule::Depth, assigned_at));
            };
            let left = unfold_value(context, scope, inner, copy);
            let (condition, left) = paired(condition.term, left)?;
            let inner = Level {
                room: left.room,
                depth,
                ..inner
            };
            let right = unfold_after(context, scope, inner, &copies[..place], element);
            let ((condition, left), right) = paired((condition, left), right)?;
            Ok(choice(&context.folding(), name, condition, left, right)?)
        }
    }
}

/// What an element gets, by what the code has of a protocol.
fn unfold_assigned_by<'a>(
    context: &'a Context<'a>,
    scope: &'a TermScope<'a>,
    copies: &'a [AssignmentCopy<'a>],
    element: Element<'a>,
) -> Result<Unfolded, UnfoldError>
    ensures term { (sort : syntax.Name) → Unfolds (folding_in context.now) false MAX_OPERATORS
        (after_by context.now (length context.now.definitions.items) scope.now copies.now
        (element_said element.entry sort)) result }
    ensures faults { HasValues scope.now → IfErr result
        (IfFaultAt (IsFaultInCopies (surroundings_in context.now) MAX_LEVELS
        (length context.now.definitions.items) (placed_by context.now scope.now copies.now))) }
{
    let level = Level {
        truth: false,
        definitions: context.definitions.len(),
        room: MAX_OPERATORS as u32,
        depth: MAX_LEVELS,
    };
    unfold_after(context, scope, level, copies, element)
}

/// What an element of an array gets by assignments, folded, of which these are all copies. Of
/// several to it the last counts, and without one it stays what it is.
///
/// # Errors
/// There would be more than 8,192 operators, terms nest too deep, more than 8,192 values are
/// written out, an index isn't seen to stay inside its sort, or memory was refused.
pub fn unfold_assigned<'a>(
    context: &'a Context<'a>,
    scope: &'a TermScope<'a>,
    copies: &'a [AssignmentCopy<'a>],
    element: &'a Element<'a>,
) -> Result<Unfolded, UnfoldError>
    ensures term { (m : protocol.Protocol) (sort : syntax.Name)
        (assignments : List declared_assignment.Assignment) → IsContext m context.now
        → AreCopiesOf (data_of m) assignments copies.now
        → Unfolds (data_of m) false MAX_OPERATORS (spec.unfolded_assignment m (scope_in m scope.now)
        (assignments_said assignments) (element_said element.now sort)).term result }
    ensures faults { (m : Surroundings) (sort : syntax.Name)
        (assignments : List declared_assignment.Assignment) → surroundings_in context.now ≡ m
        → AreCopiesOf m.spec assignments copies.now
        → HasValues scope.now → IfErr result (IfFaultAt (IsFaultInElement m (scope_by m scope.now)
        (map assignment_form assignments) (element_said element.now sort))) }
{
    unfold_assigned_by(context, scope, copies, *element)
}
