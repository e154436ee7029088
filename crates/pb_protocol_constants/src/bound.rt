//! The ranges of sorts that are declared by their bounds.

ghost use Rattle.std.specs.Prelude.{◌≡◌, [], map, IfOk, MatchResult, OnOk};
ghost use Rattle.pb_base.specs.OrMemory.{IfFault, IfRefused};
ghost use Rattle.pb_text_tree.specs.Form.{range_form, term_form};
ghost use Rattle.pb_protocol_tree.specs.Form.{bounds_form, definition_form, protocol_form};
ghost use Rattle.pb_protocol_typing.specs.Faults.{protocol_faults};
ghost use Rattle.pb_protocol_constants.specs.Faults.{IsBoundFault, IsBoundsFault, IsFaultOfSome};
ghost use Rattle.pb_protocol_constants.specs.Faults.{IsTypingFaultIn};
ghost use Rattle.pb_protocol_constants.specs.Rules.{bound_definition, AreAllBounds, AreBounds};
ghost use Rattle.pb_protocol_constants.specs.Rules.{with_bound, IsBound};
ghost use Rattle.pb_protocol_constants.specs.Settled.{range_of, value_of, HasNoSorts};

use crate::fault::{ConstantsError, refused};
use crate::valued::{check_alone, value_of};
use pb_protocol_tree::{Bounds, Definition, Protocol};
use pb_text_tree::{Argument, Name, Range, copy_term};
use pb_typing_declarations::TypingRule;
use std::alloc::{AllocError, Global};

/// A definition for a bound, by a reserved word, which no constant has as its name: so that the
/// bound is checked as one.
fn checked_as(alloc: Global, bound: &Argument) -> Result<Definition, AllocError>
    ensures { IfOk result (λ d. definition_form d
        ≡ bound_definition bound.now.place (term_form bound.now.term)) }
{
    let term = copy_term(alloc, &bound.term)?;
    let Ok(text) = "sort".to_owned(alloc) else {
        drop(term);
        return Err(AllocError);
    };
    Ok(Definition {
        name: Name {
            place: bound.place,
            text,
        },
        parameters: Vec::new(alloc),
        term,
    })
}

/// Checks a bound as a definition behind these constants, which are left as they were.
fn check_bound(
    alloc: Global,
    constants: &mut Protocol,
    bound: &Argument,
) -> Result<(), ConstantsError>
    ensures rules { MatchResult result
        (λ _. protocol_faults (with_bound (protocol_form constants.old)
        bound.now.place (term_form bound.now.term)) ≡ [])
        (λ error. IfFault error (IsTypingFaultIn (protocol_faults
        (with_bound (protocol_form constants.old) bound.now.place (term_form bound.now.term))))) }
    ensures kept { OnOk result (protocol_form constants.new ≡ protocol_form constants.old) }
{
    let definition = checked_as(alloc, bound)?;
    constants.definitions.push(definition)?;
    let checked = check_alone(alloc, constants);
    drop(constants.definitions.pop());
    checked
}

/// The value of a bound over these constants, which are left as they were.
fn bound_value(
    alloc: Global,
    constants: &mut Protocol,
    bound: &Argument,
) -> Result<i32, ConstantsError>
    ensures value { HasNoSorts (protocol_form constants.old) → IfOk result
        (λ v. v ≡ value_of (protocol_form constants.old) (term_form bound.now.term)) }
    ensures bound { HasNoSorts (protocol_form constants.old) → OnOk result
        (IsBound (protocol_form constants.old) bound.now.place (term_form bound.now.term)) }
    ensures kept { OnOk result (protocol_form constants.new ≡ protocol_form constants.old) }
    ensures refused { IfRefused result (IsBoundFault (protocol_form constants.old)
        bound.now.place (term_form bound.now.term)) }
{
    check_bound(alloc, constants, bound)?;
    value_of(alloc, constants, bound.place, &bound.term)
}

/// The range of a sort by its bounds, which are in order (T11).
fn range_of(
    alloc: Global,
    constants: &mut Protocol,
    bounds: Bounds,
) -> Result<Range, ConstantsError>
    ensures range { HasNoSorts (protocol_form constants.old) → IfOk result
        (λ r. range_form r ≡ range_of (protocol_form constants.old) (bounds_form bounds)) }
    ensures bounds { HasNoSorts (protocol_form constants.old) → OnOk result
        (AreBounds (protocol_form constants.old) (bounds_form bounds)) }
    ensures kept { OnOk result (protocol_form constants.new ≡ protocol_form constants.old) }
    ensures refused { HasNoSorts (protocol_form constants.old) → IfRefused result
        (IsBoundsFault (protocol_form constants.old) (bounds_form bounds)) }
{
    let place = bounds.low.place;
    let low = bound_value(alloc, constants, &bounds.low)?;
    let high = bound_value(alloc, constants, &bounds.high)?;
    if low > high {
        drop(bounds);
        return Err(refused(TypingRule::OutsideCarrier, place));
    }
    Ok(Range {
        place,
        name: bounds.sort.text,
        low,
        high,
    })
}

/// The ranges of all sorts that are declared by bounds, in order.
pub(crate) fn ranges_of(
    alloc: Global,
    constants: &mut Protocol,
    bounds: Vec<Bounds>,
) -> Result<Vec<Range>, ConstantsError>
    ensures ranges { HasNoSorts (protocol_form constants.old) → IfOk result
        (λ v. map range_form v.items
        ≡ map (range_of (protocol_form constants.old)) (map bounds_form bounds.items)) }
    ensures bounds { HasNoSorts (protocol_form constants.old) → OnOk result
        (AreAllBounds (protocol_form constants.old) (map bounds_form bounds.items)) }
    ensures kept { OnOk result (protocol_form constants.new ≡ protocol_form constants.old) }
    ensures refused { HasNoSorts (protocol_form constants.old) → IfRefused result
        (IsFaultOfSome (IsBoundsFault (protocol_form constants.old))
        (map bounds_form bounds.items)) }
{
    let mut ranges = Vec::new(alloc);
    for its_bounds in bounds {
        let range = range_of(alloc, constants, its_bounds)?;
        ranges.push(range)?;
    }
    Ok(ranges)
}
