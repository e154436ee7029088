//! The rules of sets of steps.

ghost use Rattle.std.specs.Prelude.{◌≡◌, map, Some};
ghost use Rattle.pb_text_tree.specs.Form.{named};
ghost use Rattle.pb_typing_declarations.specs.Entries.{carrier_shape};
ghost use Rattle.pb_typing_declarations.specs.Enumerators.{enumerator_of};
ghost use Rattle.pb_protocol_tree.specs.Form.{step_set_form, step_value_form};
ghost use Rattle.pb_protocol_typing.specs.FormulaLinks.{sets_fault};
ghost use Rattle.pb_protocol_typing.specs.Scopes.{sort_around, unless_state};
ghost use Rattle.pb_protocol_typing.specs.Sets.{alone_fault, definition_fault, instances_fault};
ghost use Rattle.pb_protocol_typing.specs.Sets.{is_included, is_within, kind_fault, number_fault};
ghost use Rattle.pb_protocol_typing.specs.Sets.{set_fault};
ghost use Rattle.pb_protocol_typing.specs.Sets.{step_value_fault, values_fault, variable_fault};
ghost use Rattle.pb_protocol_typing.specs.Sets.{written_fault};
ghost use Rattle.pb_protocol_typing.specs.View.{scope_of, shapes_in, signature_of, written_of};

use crate::around::sort_around;
use crate::kind::{Kind, agree, carrier_kind};
use crate::scope::{Scope, unless_state};
use crate::signature::{Signature, Steps};
use crate::term::fault_unless;
use crate::term_kind::carrier_at;
use crate::written::{Written, as_written};
use crate::written_as::WrittenAs;
use pb_protocol_tree::{StepSet, StepSetLink, StepValue};
use pb_sorts::Carrier;
use pb_text_tree::{Name, Place};
use pb_typing_declarations::{TypingFault, TypingRule};

fn kind_fault(kind: Kind, carrier: Option<Carrier>, place: Place) -> Option<TypingFault>
    ensures { result ≡ kind_fault kind (carrier_shape carrier) place }
{
    let agrees = agree(kind, carrier_kind(carrier));
    fault_unless(agrees, TypingRule::WrongKind, place)
}

/// Whether a number, with a minus in front of it or without, is within a range.
fn is_within(carrier: Option<Carrier>, is_negative: bool, size: u64) -> bool
    ensures { result ≡ is_within (carrier_shape carrier) is_negative size }
{
    let range = match carrier {
        Some(Carrier::Range(range)) => range,
        _ => return true,
    };
    if size > 4294967296 {
        return false;
    }
    let size = size as i64;
    let value = if is_negative { -size } else { size };
    i64::from(range.low) <= value && value <= i64::from(range.high)
}

/// Whether each whole number of one carrier is one of the other.
fn is_included(carrier: Option<Carrier>, other: Option<Carrier>) -> bool
    ensures { result ≡ is_included (carrier_shape carrier) (carrier_shape other) }
{
    match (carrier, other) {
        (Some(Carrier::Range(inner)), Some(Carrier::Range(outer))) => {
            outer.low <= inner.low && inner.high <= outer.high
        }
        _ => true,
    }
}

/// A quantifier's variable as the value of a step's own variable.
fn variable_fault(
    carrier: Option<Carrier>,
    own: Option<Carrier>,
    place: Place,
) -> Option<TypingFault>
    ensures { result ≡ variable_fault (carrier_shape carrier) (carrier_shape own) place }
{
    if let Some(fault) = kind_fault(carrier_kind(carrier), own, place) {
        return Some(fault);
    }
    let is_included = is_included(carrier, own);
    fault_unless(is_included, TypingRule::OutsideCarrier, place)
}

/// A number as the value of a step's own variable.
fn number_fault(
    own: Option<Carrier>,
    place: Place,
    is_negative: bool,
    size: u64,
) -> Option<TypingFault>
    ensures { result ≡ number_fault (carrier_shape own) place is_negative size }
{
    if let Some(fault) = kind_fault(Kind::Whole, own, place) {
        return Some(fault);
    }
    let is_within = is_within(own, is_negative, size);
    fault_unless(is_within, TypingRule::OutsideCarrier, place)
}

/// What a definition without state stands for, as the value of a step's own variable.
fn definition_fault(
    signature: &Signature,
    own: Option<Carrier>,
    place: Place,
    name: &Name,
) -> Option<TypingFault>
    ensures { result ≡ definition_fault (signature_of signature.now) (carrier_shape own) place
        (named name.now) }
{
    if !signature.parameters.is_empty() {
        return Some(TypingFault {
            rule: TypingRule::WrongCount,
            place: name.place,
        });
    }
    match signature.written {
        WrittenAs::Number(is_negative, size) => number_fault(own, place, is_negative, size),
        WrittenAs::OfKind => kind_fault(signature.kind, own, place),
        WrittenAs::Calculated => Some(TypingFault {
            rule: TypingRule::WrongKind,
            place,
        }),
    }
}

/// A name as the value of a step's own variable.
fn alone_fault(
    scope: &Scope<'_, '_>,
    own: Option<Carrier>,
    place: Place,
    name: &Name,
) -> Option<TypingFault>
    ensures { result ≡ alone_fault (scope_of scope.now)
        (sort_around (scope_of scope.now).around (named name.now).text)
        (unless_state ((scope_of scope.now).signatures (named name.now).text))
        (enumerator_of (scope_of scope.now).spec (named name.now).text)
        (carrier_shape own) place (named name.now) }
{
    if let Some(sort) = sort_around(scope.around, &name.text) {
        return variable_fault(scope.declarations.carrier(&sort.text), own, place);
    }
    if let Some(signature) = unless_state(scope.signature(&name.text)) {
        return definition_fault(signature, own, place, name);
    }
    match scope.declarations.enumerator(&name.text) {
        Some(enumerator) => kind_fault(Kind::Struct(enumerator.sort), own, place),
        None => Some(TypingFault {
            rule: TypingRule::UnknownName,
            place: name.place,
        }),
    }
}

/// A term as the value of a step's own variable.
fn written_fault(
    scope: &Scope<'_, '_>,
    own: Option<Carrier>,
    place: Place,
    value: Written<'_>,
) -> Option<TypingFault>
    ensures { result ≡ written_fault (scope_of scope.now) (carrier_shape own) place
        (written_of value.entry) }
{
    match value {
        Written::Boolean(_) => kind_fault(Kind::Truth, own, place),
        Written::Number(is_negative, size) => number_fault(own, place, is_negative, size),
        Written::Alone(name) => alone_fault(scope, own, place, name),
        Written::Other => Some(TypingFault {
            rule: TypingRule::WrongKind,
            place,
        }),
    }
}

/// What stands for a step's own variable.
fn step_value_fault(
    scope: &Scope<'_, '_>,
    own: Option<Carrier>,
    value: &StepValue,
) -> Option<TypingFault>
    ensures { result ≡ step_value_fault (scope_of scope.now) (carrier_shape own)
        (step_value_form value.now) }
{
    match value {
        StepValue::Any { .. } => None,
        StepValue::Value(argument) => {
            written_fault(scope, own, argument.place, as_written(&argument.term))
        }
    }
}

/// The first fault of values for a step's own variables.
fn values_fault(
    scope: &Scope<'_, '_>,
    own: &[Option<Carrier>],
    values: &[StepValue],
) -> Option<TypingFault>
    ensures { result ≡ values_fault (scope_of scope.now) 0 (map carrier_shape own.now)
        (map step_value_form values.now) }
{
    for (index, value) in values.iter().enumerate() {
        if let Some(fault) = step_value_fault(scope, carrier_at(own, index), value) {
            return Some(fault);
        }
    }
    None
}

/// As many values as a step has own variables (T08), and then their first fault.
fn own_values_fault(
    scope: &Scope<'_, '_>,
    step: &Name,
    own: &[Option<Carrier>],
    values: &[StepValue],
) -> Option<TypingFault>
    ensures { result ≡ instances_fault (scope_of scope.now)
        (Some (map carrier_shape own.now)) (named step.now) (map step_value_form values.now) }
{
    let is_count = values.len() == own.len();
    if let Some(fault) = fault_unless(is_count, TypingRule::WrongCount, step.place) {
        return Some(fault);
    }
    values_fault(scope, own, values)
}

/// The first fault of a step with values for its own variables.
fn instances_fault(
    steps: &Steps<'_>,
    scope: &Scope<'_, '_>,
    step: &Name,
    values: &[StepValue],
) -> Option<TypingFault>
    ensures { result ≡ instances_fault (scope_of scope.now)
        (shapes_in steps.now (named step.now).text) (named step.now)
        (map step_value_form values.now) }
{
    match steps.table.get(step.text.as_str()) {
        None => Some(TypingFault {
            rule: TypingRule::UnknownName,
            place: step.place,
        }),
        Some(own) => own_values_fault(scope, step, &own.carriers, values),
    }
}

/// The first fault of a set of steps.
#[cycle(step_sets)]
pub(crate) fn set_fault(
    steps: &Steps<'_>,
    scope: &Scope<'_, '_>,
    set: &StepSet,
) -> Option<TypingFault>
    ensures { result ≡ set_fault (shapes_in steps.now) (scope_of scope.now)
        (step_set_form set.now) }
{
    match set {
        StepSet::All { .. } => None,
        StepSet::Step(name) => {
            let is_known = steps.table.contains_key(name.text.as_str());
            fault_unless(is_known, TypingRule::UnknownName, name.place)
        }
        StepSet::Instances { step, values } => instances_fault(steps, scope, step, values),
        StepSet::Complement { operand, .. } => set_fault(steps, scope, operand),
        StepSet::Union { first, links } => {
            if let Some(fault) = set_fault(steps, scope, first) {
                return Some(fault);
            }
            sets_fault(steps, scope, links)
        }
    }
}

/// The same of the sets of links.
#[cycle(step_sets)]
fn sets_fault(
    steps: &Steps<'_>,
    scope: &Scope<'_, '_>,
    links: &[StepSetLink],
) -> Option<TypingFault>
    ensures { result ≡ sets_fault (shapes_in steps.now) (scope_of scope.now) links.now }
{
    for link in links {
        if let Some(fault) = set_fault(steps, scope, &link.operand) {
            return Some(fault);
        }
    }
    None
}
