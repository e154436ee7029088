//! Constants as a protocol of definitions alone, by which terms over them are checked and have
//! values.

ghost use Rattle.std.specs.Prelude.{◌≡◌, [], map, Some, None, IfOk, MatchResult};
ghost use Rattle.pb_base.specs.OrMemory.{IfFault, IfRefused};
ghost use Rattle.pb_text_tree.specs.Form.{term_form};
ghost use Rattle.pb_typing_declarations.specs.declared.fault.TypingRule.TheVariants.{WrongKind};
ghost use Rattle.pb_protocol_folding.specs.View.{term_of};
ghost use Rattle.pb_protocol_tree.specs.Form.{constant_form, definition_form, protocol_form};
ghost use Rattle.pb_protocol_tree.specs.Form.{ProtocolForm};
ghost use Rattle.pb_protocol_constants.specs.Contexts.{IsOfConstants};
ghost use Rattle.pb_protocol_constants.specs.Faults.{typing_fault, IsTypingFaultIn, IsValueFault};
ghost use Rattle.pb_protocol_constants.specs.Settled.{definition_of_constant, place_of_constant};
ghost use Rattle.pb_protocol_constants.specs.Settled.{definitions_alone, number_in, unfolded_value};
ghost use Rattle.pb_protocol_typing.specs.Faults.{protocol_faults};

use crate::fault::{ConstantsError, of_term, refused};
use crate::number::number_in;
use pb_model_tree::InitialState;
use pb_protocol_tree::{Constant, Definition, Protocol};
use pb_protocol_typing::check_protocol;
use pb_protocol_unfolder_terms::{Context, TermScope, unfold_term};
use pb_text_tree::{Place, Term};
use pb_typing_declarations::TypingRule;
use std::alloc::{AllocError, Global};

/// Constants as definitions, with where their values stand.
#[derive(Drop)]
pub(crate) struct Definitions {
    pub definitions: Vec<Definition>,
    pub places: Vec<Place>,
}

/// Constants as definitions without parameters.
pub(crate) fn definitions_of(
    alloc: Global,
    constants: Vec<Constant>,
) -> Result<Definitions, AllocError>
    ensures definitions { IfOk result (λ d. map definition_form d.definitions.items
        ≡ map definition_of_constant (map constant_form constants.items)) }
    ensures places { IfOk result (λ d. d.places.items
        ≡ map place_of_constant (map constant_form constants.items)) }
{
    let mut definitions = Vec::new(alloc);
    let mut places = Vec::new(alloc);
    for constant in constants {
        let Ok(()) = places.push(constant.value.place) else {
            drop(constant);
            return Err(AllocError);
        };
        definitions.push(Definition {
            name: constant.name,
            parameters: Vec::new(alloc),
            term: constant.value.term,
        })?;
    }
    Ok(Definitions {
        definitions,
        places,
    })
}

/// A protocol of these definitions alone.
pub(crate) fn alone(alloc: Global, definitions: Vec<Definition>) -> Protocol
    ensures { protocol_form result ≡ definitions_alone (map definition_form definitions.items) }
{
    Protocol {
        sorts: Vec::new(alloc),
        ranges: Vec::new(alloc),
        state: Vec::new(alloc),
        definitions,
        steps: Vec::new(alloc),
        initial: InitialState {
            place: Place { line: 1, column: 1 },
            values: Vec::new(alloc),
        },
        properties: Vec::new(alloc),
    }
}

/// Checks the definitions of a protocol that has nothing else.
pub(crate) fn check_alone(alloc: Global, protocol: &Protocol) -> Result<(), ConstantsError>
    ensures { MatchResult result
        (λ _. protocol_faults (protocol_form protocol.now) ≡ [])
        (λ error. IfFault error (IsTypingFaultIn (protocol_faults (protocol_form protocol.now)))) }
{
    match check_protocol(alloc, protocol) {
        Ok(()) => Ok(()),
        Err(error) => Err(error.raise()),
    }
}

/// The number that an unfolded value is written as, else it is refused at the place (T04).
fn written_number(term: &Term, place: Place) -> Result<i32, ConstantsError>
    ensures number { IfOk result (λ v. number_in (term_of term.now) ≡ Some v) }
    ensures refused { IfRefused result (λ error.
        (error ≡ typing_fault WrongKind place) × (number_in (term_of term.now) ≡ None)) }
{
    match number_in(term) {
        Some(number) => Ok(number),
        None => Err(refused(TypingRule::WrongKind, place)),
    }
}

/// The number that a value at a place is unfolded to by constants.
fn unfolded_number(context: &Context<'_>, place: Place, value: &Term) -> Result<i32, ConstantsError>
    ensures value { (m : ProtocolForm) → IsOfConstants m context.now → IfOk result
        (λ v. number_in (unfolded_value m (term_form value.now)) ≡ Some v) }
    ensures refused { (m : ProtocolForm) → IsOfConstants m context.now → IfRefused result
        (IsValueFault m place (term_form value.now)) }
{
    match unfold_term(context, &TermScope::Empty, false, value) {
        Ok(unfolded) => {
            let number = written_number(&unfolded.term, place);
            drop(unfolded);
            number
        }
        Err(error) => Err(of_term(error)),
    }
}

/// The value of a term over constants: a number of 32 bits, else it is refused at its place (T04).
pub(crate) fn value_of(
    alloc: Global,
    constants: &Protocol,
    place: Place,
    value: &Term,
) -> Result<i32, ConstantsError>
    ensures value { IfOk result (λ v. number_in
        (unfolded_value (protocol_form constants.now) (term_form value.now)) ≡ Some v) }
    ensures refused { IfRefused result
        (IsValueFault (protocol_form constants.now) place (term_form value.now)) }
{
    let context = Context::at_start(alloc, constants)?;
    unfolded_number(&context, place, value)
}
