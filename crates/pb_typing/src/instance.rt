//! The check of instances of predicate variables.

ghost use Rattle.std.specs.Prelude.{◌≡◌, ◌++◌, [], false, length, map, MatchResult};
ghost use Rattle.pb_text_tree.specs.Form.{argument_forms, instance_form, term_form};
ghost use Rattle.pb_text_meaning.specs.Erase.{erased_arguments, erased_term};
ghost use Rattle.pb_typing_rules.specs.Faults.{instance_faults, term_faults};
ghost use Rattle.pb_typing_rules.specs.Shapes.{may_be_alike};
ghost use Rattle.pb_typing_rules.specs.Term.{shape};
ghost use Rattle.pb_typing_declarations.specs.Entries.{shape_of, shapes_of};
ghost use Rattle.pb_typing_declarations.specs.Faults.{IsAmong, unless};
ghost use Rattle.pb_typing_tree.specs.Elaboration as elaboration;
ghost use Rattle.pb_typing_tree.specs.View.{argument_view};
ghost use Rattle.pb_typing.specs.Arguments.{faults_against};
ghost use Rattle.pb_typing_nodes.specs.Contexts.{scope_in, slots_in, text_in};
ghost use Rattle.pb_typing_nodes.specs.Elaborated.{Elaborates};
ghost use Rattle.pb_typing.specs.Elaborated.{IsCall};
ghost use Rattle.pb_typing_terms.specs.Slots.{over_slots};
ghost use Rattle.pb_typing.specs.Typed.{IsLayout};
ghost use Rattle.pb_typing.specs.View.{is_positive};

use crate::polarity::Polarity;
use pb_sorts::Carrier;
use pb_text_tree::Instance;
use pb_typing_declarations::{TypeError, TypingRule, require};
use pb_typing_nodes::context::Context;
use pb_typing_nodes::operands::accepted;
use pb_typing_nodes::operation::fault;
use pb_typing_nodes::shape::{are_alike, carrier_shape};
use pb_typing_terms::term::check_term;
use pb_typing_tree::Argument;

/// An instance of an equation, by its place, with these arguments.
#[derive(Drop)]
pub(crate) struct Call {
    pub equation: usize,
    pub arguments: Vec<Argument>,
}

/// Checks a predicate variable, which has to be of positive polarity (T06), with as many arguments
/// as it has parameters (T08). A name that no equation declares (T01) is no predicate variable, so
/// that it breaks no rule of negations.
pub(crate) fn check_instance(
    context: &Context<'_, '_, '_>,
    polarity: Polarity,
    instance: &Instance,
) -> Result<Call, TypeError>
    requires { IsLayout (text_in context.now) context.now.layout.now }
    ensures { MatchResult result
        (λ call. (instance_faults (text_in context.now) (is_positive polarity)
        (scope_in context.now) (instance_form instance.now) ≡ [])
        × IsCall (text_in context.now) (scope_in context.now) (slots_in context.now)
        (instance_form instance.now) call)
        (IsAmong (instance_faults (text_in context.now) (is_positive polarity)
        (scope_in context.now) (instance_form instance.now))) }
{
    let place = instance.name.place;
    match context.declarations.equation(&instance.name.text) {
        Some(equation) => {
            let carriers = context.layout.carriers(equation);
            require(polarity.is_positive(), TypingRule::OddNegations, place)?;
            let is_count = instance.arguments.len() == carriers.len();
            require(is_count, TypingRule::WrongCount, place)?;
            let arguments = check_arguments(context, carriers, &instance.arguments)?;
            Ok(Call {
                equation,
                arguments,
            })
        }
        None => Err(TypeError::Refused(fault(TypingRule::UnknownName, place))),
    }
}

/// Checks arguments against the carriers of as many parameters.
fn check_arguments(
    context: &Context<'_, '_, '_>,
    carriers: &[Carrier],
    arguments: &[pb_text_tree::Argument],
) -> Result<Vec<Argument>, TypeError>
    requires { length arguments.now ≡ length carriers.now }
    ensures { MatchResult result
        (λ es. (faults_against (text_in context.now) (scope_in context.now) arguments.now
        (shapes_of carriers.now) ≡ [])
        × (map argument_view es.items ≡ elaboration.arguments (text_in context.now)
        (slots_in context.now) (scope_in context.now)
        (erased_arguments (argument_forms arguments.now))))
        (IsAmong (faults_against (text_in context.now) (scope_in context.now) arguments.now
        (shapes_of carriers.now))) }
{
    let mut checked = Vec::with_capacity(context.alloc, arguments.len())?;
    for (index, argument) in arguments.iter().enumerate() {
        let typed = check_argument(context, argument, carriers[index])?;
        checked.push(typed)?;
    }
    Ok(checked)
}

/// Checks an argument against its parameter's carrier, by their kinds (T04).
fn check_argument(
    context: &Context<'_, '_, '_>,
    argument: &pb_text_tree::Argument,
    parameter: Carrier,
) -> Result<Argument, TypeError>
    ensures { Elaborates
        (term_faults (text_in context.now) false (scope_in context.now)
        (term_form argument.now.term)
        ++ unless (may_be_alike (shape (text_in context.now) (scope_in context.now)
        (erased_term (term_form argument.now.term))) (shape_of parameter))
        TypingRule.WrongKind argument.now.place)
        (shape (text_in context.now) (scope_in context.now)
        (erased_term (term_form argument.now.term)))
        (over_slots (text_in context.now) (slots_in context.now) argument.now.term) result }
{
    let found = check_term(context, &argument.term)?;
    let test = are_alike(&found.shape, &carrier_shape(parameter));
    let typed = accepted(found, test, TypingRule::WrongKind, argument.place)?;
    Ok(typed)
}
