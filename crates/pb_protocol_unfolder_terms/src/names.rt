//! What is put in for a name: a value, a state variable, or an enumerator.

ghost use Rattle.std.specs.Prelude.{◌≡◌, map, string_bytes, IfOk};
ghost use Rattle.pb_text_meaning.specs.Syntax.{NoTerms};
ghost use Rattle.pb_text_meaning.specs.Syntax as syntax;
ghost use Rattle.pb_text_meaning.specs.Sorts.{place_in};
ghost use Rattle.pb_protocol_unfolding.specs.PutIn.{enumerator_term};
ghost use Rattle.pb_protocol_unfolding.specs.PutIn as spec;
ghost use Rattle.pb_protocol_folding.specs.View as tree;
ghost use Rattle.pb_protocol_unfolder_terms.specs.Unfolding.{IsUnfolded};
ghost use Rattle.pb_protocol_unfolder_terms.specs.Contexts.{folding_in, spec_in};
ghost use Rattle.pb_protocol_unfolder_terms.specs.Values.{is_named, written_term};
ghost use Rattle.pb_protocol_unfolder_terms.specs.View.{variable_of};

use crate::context::{Context, StateVariable};
use crate::enumerator::is_enumerator;
use crate::form::Form;
use crate::unfolded::Unfolded;
use crate::written::Written;
use pb_protocol_folding::{Folding, negative_term};
use pb_text_tree::{Name, Place, Term, copy_name};
use std::alloc::{AllocError, Global};

/// The number 0, which stands for what is nothing.
pub(crate) fn nothing(place: Place, room: u32) -> Unfolded
    ensures { (folding : syntax.Spec) (truth : _) →
        IsUnfolded folding truth room (syntax.Term.Number 0) result }
{
    Unfolded {
        term: Term::Number { place, value: 0 },
        form: Form::Number(0),
        room,
    }
}

/// The value that is put in for a name, folded.
pub(crate) fn value_term(
    folding: &Folding<'_>,
    value: Written<'_>,
    place: Place,
    room: u32,
) -> Result<Unfolded, AllocError>
    ensures { (truth : _) → IfOk result (IsUnfolded (tree.spec_of folding.now.sorts.now) truth
        room (written_term value.entry)) }
{
    match value {
        Written::Truth(value) => {
            let term = Term::Constant { place, value };
            let form = Form::Truth(value);
            Ok(Unfolded { term, form, room })
        }
        Written::Number(value) => {
            let term = Term::Number { place, value };
            let form = Form::Number(value);
            Ok(Unfolded { term, form, room })
        }
        Written::Negative(value) => {
            let term = negative_term(folding, place, Term::Number { place, value })?;
            let form = Form::Negative(value);
            Ok(Unfolded { term, form, room })
        }
        Written::Enumerator(name) => {
            let text = name.text.as_str().to_owned(folding.alloc)?;
            let term = Term::Name(Name { place, text });
            let form = Form::Name;
            Ok(Unfolded { term, form, room })
        }
    }
}

/// A name that stands for itself as it is: an element of an array, or the array.
pub(crate) fn element_term(alloc: Global, name: &Name, room: u32) -> Result<Unfolded, AllocError>
    ensures { (folding : syntax.Spec) (truth : _) → IfOk result
        (IsUnfolded folding truth room (syntax.Term.Named (string_bytes name.now.text))) }
{
    let term = Term::Name(copy_name(alloc, name)?);
    let form = Form::Name;
    Ok(Unfolded { term, form, room })
}

/// A name at another place.
pub(crate) fn placed_name(alloc: Global, name: &Name, place: Place) -> Result<Name, AllocError>
    ensures text { IfOk result (λ n. string_bytes n.text ≡ string_bytes name.now.text) }
    ensures place { IfOk result (λ n. n.place ≡ place) }
{
    let text = name.text.as_str().to_owned(alloc)?;
    Ok(Name { place, text })
}

/// A state variable without arguments, at a place.
pub(crate) fn bare_variable(
    context: &Context<'_>,
    variable: &StateVariable<'_>,
    place: Place,
    room: u32,
) -> Result<Unfolded, AllocError>
    ensures { (folding : syntax.Spec) (sorts : syntax.Spec) (truth : _) → IfOk result
        (IsUnfolded folding truth room (spec.read sorts (string_bytes variable.now.name.now.text)
        (map variable_of variable.now.indices.items) NoTerms)) }
{
    if variable.indices.is_empty() {
        let text = variable.name.text.as_str().to_owned(context.alloc)?;
        let term = Term::Name(Name { place, text });
        let form = Form::Name;
        return Ok(Unfolded { term, form, room });
    }
    Ok(Unfolded {
        term: Term::Number { place, value: 0 },
        form: Form::Number(0),
        room,
    })
}

/// A name that stands for itself, or the number 0 where it is no enumerator.
pub(crate) fn own_name(
    context: &Context<'_>,
    name: &Name,
    room: u32,
) -> Result<Unfolded, AllocError>
    ensures { (truth : _) → IfOk result (IsUnfolded (folding_in context.now) truth room
        (enumerator_term (place_in (is_named (string_bytes name.now.text))
        (spec_in context.now).sorts) (string_bytes name.now.text))) }
{
    if is_enumerator(context.declarations, name.text.as_str()) {
        return Ok(Unfolded {
            term: Term::Name(copy_name(context.alloc, name)?),
            form: Form::Name,
            room,
        });
    }
    Ok(Unfolded {
        term: Term::Number {
            place: name.place,
            value: 0,
        },
        form: Form::Number(0),
        room,
    })
}
