//! The check of the initial instance.

ghost use Rattle.std.specs.Prelude.{◌≡◌, ◌++◌, List, [], false, length, map, MatchResult, OnOk};
ghost use Rattle.pb_sorts.specs.Carrier.{values_of};
ghost use Rattle.pb_text_meaning.specs.Syntax.{Variable};
ghost use Rattle.pb_text_tree.specs.Form.{argument_forms, instance_form, spec_form};
ghost use Rattle.pb_text_meaning.specs.Erase.{erased_arguments};
ghost use Rattle.pb_text_meaning.specs.Formula.{carriers_of};
ghost use Rattle.pb_text_meaning.specs.Value as meaning;
ghost use Rattle.pb_text_meaning.specs.Fits.{AllFit};
ghost use Rattle.pb_typing_declarations.specs.Faults.{IsAmong};
ghost use Rattle.pb_typing_declarations.specs.View.{spec_of, text_of};
ghost use Rattle.pb_typing_rules.specs.Faults.{initial_faults, value_faults};
ghost use Rattle.pb_typing_rules.specs.Scope.{outermost};
ghost use Rattle.pb_typing_tree.specs.Elaboration as elaboration;
ghost use Rattle.pb_typing_tree.specs.Elaboration.{unslotted};
ghost use Rattle.pb_typing_tree.specs.Expansion.{have_quantifier};
ghost use Rattle.pb_typing_tree.specs.InitialPlace.{IsInitial};
ghost use Rattle.pb_typing_tree.specs.View.{argument_view};
ghost use Rattle.pb_typing.specs.Typed.{IsLayout};

use crate::instance::check_instance;
use crate::polarity::Polarity;
use pb_sorts::{Carrier, Layout};
use pb_text_tree::{Argument, Spec};
use pb_typing_declarations::{Declarations, TypeError, TypingRule, require};
use pb_typing_nodes::context::Context;
use pb_typing_nodes::scope::Scope;
use pb_typing_tree::Initial;
use pb_typing_values::value;
use std::alloc::Global;

/// Checks the initial instance, and hands it out: it is well typed, and each argument's value is in
/// its parameter's carrier.
pub(crate) fn check_initial(
    alloc: Global,
    declarations: &Declarations<'_>,
    spec: &Spec,
    layout: &Layout,
) -> Result<Initial, TypeError>
    requires text { text_of declarations.now ≡ spec_form spec.now }
    requires layout { IsLayout (spec_of declarations.now) layout.now }
    ensures { MatchResult result
        (λ i. (initial_faults (spec_of declarations.now) (instance_form spec.now.initial) ≡ [])
        × IsInitial (spec_of declarations.now) i.equation i.values.items)
        (IsAmong (initial_faults (spec_of declarations.now) (instance_form spec.now.initial))) }
{
    let initial = &spec.initial;
    let context = Context {
        alloc,
        declarations,
        layout,
        scope: &Scope::Outermost,
    };
    let call = check_instance(&context, Polarity::Positive, initial)?;
    let carriers = layout.carriers(call.equation);
    let mut values = Vec::with_capacity(alloc, carriers.len())?;
    let arguments = &initial.arguments;
    check_values(
        declarations,
        carriers,
        arguments,
        &call.arguments,
        &mut values,
    )?;
    Ok(Initial {
        equation: call.equation as u8,
        values,
    })
}

/// Checks that the value of each argument, which is also given over slots, is in its carrier (T11),
/// and adds the values to others.
fn check_values(
    declarations: &Declarations<'_>,
    carriers: &[Carrier],
    arguments: &[Argument],
    typed: &[pb_typing_tree::Argument],
    values: &mut Vec<i64>,
) -> Result<(), TypeError>
    requires fit { AllFit (spec_of declarations.now) []
        (erased_arguments (argument_forms arguments.now)) }
    requires plain { have_quantifier (erased_arguments (argument_forms arguments.now)) ≡ false }
    requires counted { length arguments.now ≡ length carriers.now }
    requires typed { map argument_view typed.now
        ≡ elaboration.arguments (spec_of declarations.now) unslotted outermost
        (erased_arguments (argument_forms arguments.now)) }
    ensures faults { (xs : List Variable) → map values_of carriers.now
        ≡ carriers_of (spec_of declarations.now) xs → MatchResult result
        (λ _. value_faults (spec_of declarations.now) (argument_forms arguments.now) xs ≡ [])
        (IsAmong (value_faults (spec_of declarations.now) (argument_forms arguments.now) xs)) }
    ensures values { OnOk result (values.new.items
        ≡ values.old.items ++ meaning.values (spec_of declarations.now) []
        (erased_arguments (argument_forms arguments.now))) }
{
    let Some((argument, arguments)) = arguments.split_first() else {
        return Ok(());
    };
    let Some((carrier, carriers)) = carriers.split_first() else {
        unreachable!()
    };
    let Some((first, typed)) = typed.split_first() else {
        unreachable!()
    };
    let value = value(&first.term, &[]);
    require(
        carrier.contains(value),
        TypingRule::OutsideCarrier,
        argument.place,
    )?;
    values.push(value)?;
    check_values(declarations, carriers, arguments, typed, values)
}
