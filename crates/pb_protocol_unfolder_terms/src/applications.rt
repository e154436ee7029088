//! Unfolds names with arguments, definitions, arrays and functions of data, counting, and
//! arithmetic.

ghost use Rattle.std.specs.Prelude.{◌≡◌, ◌<◌, suc, true, length, string_bytes};
ghost use Rattle.pb_text_tree.specs.Form.{TermForm, argument_forms, arithmetic_links};
ghost use Rattle.pb_text_tree.specs.Form.{calculated, named, term_form};
ghost use Rattle.pb_text_meaning.specs.Functions.{named_function};
ghost use Rattle.pb_text_meaning.specs.Syntax as syntax;
ghost use Rattle.pb_protocol_folding.specs.Folding.{is_if};
ghost use Rattle.pb_protocol_folding.specs.View as tree;
ghost use Rattle.pb_protocol_unfolder_terms.specs.Contexts.{folding_in};
ghost use Rattle.pb_protocol_unfolder_terms.specs.Puts.{UnfoldsAll, calculated_term, put, puts};
ghost use Rattle.pb_protocol_unfolder_terms.specs.Tells.{AreArgumentsMet, IsTermMet, Tells};
ghost use Rattle.pb_protocol_unfolder_terms.specs.Unfolding.{Unfolds};

use crate::arguments::{UnfoldedArguments, function_term, is_choice, no_arguments, with_argument};
use crate::arithmetic::calculation;
use crate::array::{Array, choice, chosen};
use crate::context::Context;
use crate::counting::unfold_count;
use crate::fault::UnfoldError;
use crate::level::{Level, behind_one};
use crate::meant::Meant;
use crate::names::placed_name;
use crate::pair::paired;
use crate::reads::unfold_read;
use crate::scope::TermScope;
use crate::unfold::unfold;
use crate::unfolded::Unfolded;
use pb_protocol_folding::truth_value;
use pb_text_counting::is_counting;
use pb_text_tree::{Argument, ArithmeticLink, Name, Term, copy_name};

/// Arguments, of the first of which the truth alone may count.
#[cycle(unfolding)]
fn unfold_arguments<'a>(
    context: &'a Context<'a>,
    scope: &'a TermScope<'a>,
    level: Level,
    arguments: &'a [Argument],
) -> Result<UnfoldedArguments, UnfoldError>
    ensures term { UnfoldsAll (folding_in context.now) level.truth level.room
        (puts context.now level.definitions scope.now (tree.terms_of arguments.now)) result }
    ensures faults { Tells context.now result
        (AreArgumentsMet context.now level.depth level.definitions scope.now arguments.now) }
{
    let mut unfolded = no_arguments(context.alloc, level.room);
    let mut truth = level.truth;
    for argument in arguments {
        let inner = Level {
            truth,
            room: unfolded.room,
            ..level
        };
        let next = unfold(context, scope, inner, &argument.term)?;
        unfolded = with_argument(&context.folding(), argument.place, unfolded, next)?;
        truth = false;
    }
    Ok(unfolded)
}

/// `if` with its three arguments: of two where the condition decides, only the one that is chosen.
#[cycle(unfolding)]
fn unfold_choice<'a>(
    context: &'a Context<'a>,
    scope: &'a TermScope<'a>,
    level: Level,
    function: &'a Name,
    arguments: &'a [Argument],
) -> Result<Unfolded, UnfoldError>
    requires choice { is_if (named_function (string_bytes function.now.text)) ≡ true }
    requires arguments { length arguments.now ≡ 3 }
    ensures term { Unfolds (folding_in context.now) level.truth level.room
        (syntax.Term.Apply (string_bytes function.now.text)
        (puts context.now level.definitions scope.now (tree.terms_of arguments.now))) result }
    ensures faults { Tells context.now result (IsTermMet context.now (suc level.depth)
        level.definitions scope.now
        (TermForm.application (named function.now) (argument_forms arguments.now))) }
{
    let room = behind_one(level.room, function.place)?;
    let inner = Level {
        truth: true,
        room,
        ..level
    };
    let condition = unfold(context, scope, inner, &arguments[0].term)?;
    let inner = Level {
        truth: false,
        room: condition.room,
        ..level
    };
    match truth_value(&condition.term) {
        Some(true) => {
            drop(condition);
            Ok(chosen(unfold(context, scope, inner, &arguments[1].term)?))
        }
        Some(false) => {
            drop(condition);
            Ok(chosen(unfold(context, scope, inner, &arguments[2].term)?))
        }
        None => {
            let left = unfold(context, scope, inner, &arguments[1].term);
            let (condition, left) = paired(condition.term, left)?;
            let inner = Level {
                room: left.room,
                ..inner
            };
            let right = unfold(context, scope, inner, &arguments[2].term);
            let ((condition, left), right) = paired((condition, left), right)?;
            let Ok(name) = copy_name(context.alloc, function) else {
                drop((condition, left, right));
                return Err(UnfoldError::Memory);
            };
            Ok(choice(&context.folding(), name, condition, left, right)?)
        }
    }
}

/// A function of data with its arguments.
#[cycle(unfolding)]
fn unfold_function<'a>(
    context: &'a Context<'a>,
    scope: &'a TermScope<'a>,
    level: Level,
    function: &'a Name,
    arguments: &'a [Argument],
) -> Result<Unfolded, UnfoldError>
    ensures term { Unfolds (folding_in context.now) level.truth level.room
        (syntax.Term.Apply (string_bytes function.now.text)
        (puts context.now level.definitions scope.now (tree.terms_of arguments.now))) result }
    ensures faults { Tells context.now result (IsTermMet context.now (suc level.depth)
        level.definitions scope.now
        (TermForm.application (named function.now) (argument_forms arguments.now))) }
{
    let truth = is_choice(function.text.as_str());
    if truth && arguments.len() == 3 {
        return unfold_choice(context, scope, level, function, arguments);
    }
    let room = behind_one(level.room, function.place)?;
    let inner = Level {
        truth,
        room,
        ..level
    };
    let unfolded = unfold_arguments(context, scope, inner, arguments)?;
    Ok(function_term(&context.folding(), function, unfolded)?)
}

/// A definition, an array or a function of data, with its arguments.
#[cycle(unfolding)]
pub(crate) fn unfold_application<'a>(
    context: &'a Context<'a>,
    scope: &'a TermScope<'a>,
    level: Level,
    function: &'a Name,
    arguments: &'a [Argument],
) -> Result<Unfolded, UnfoldError>
    ensures term { Unfolds (folding_in context.now) level.truth level.room
        (put context.now level.definitions scope.now
        (syntax.Term.Apply (string_bytes function.now.text) (tree.terms_of arguments.now))) result }
    ensures faults { Tells context.now result (IsTermMet context.now (suc level.depth)
        level.definitions scope.now
        (TermForm.application (named function.now) (argument_forms arguments.now))) }
{
    if is_counting(function.text.as_str()) {
        return unfold_count(context, scope, level, function.place, arguments);
    }
    if arguments.is_empty() {
        return unfold_function(context, scope, level, function, arguments);
    }
    match context.meant(level.definitions, function.text.as_str(), arguments.len()) {
        Meant::Definition(definition, before) => {
            let inner = TermScope::Arguments {
                parameters: &definition.parameters,
                arguments: &*arguments,
                definitions: level.definitions,
                user: &*scope,
            };
            let level = Level {
                definitions: before,
                ..level
            };
            unfold(&*context, &inner, level, &*definition.term)
        }
        Meant::Variable(variable) => {
            let name = placed_name(context.alloc, variable.name, function.place)?;
            let array = Array {
                name: &name,
                indices: &variable.indices,
                arguments: &*arguments,
            };
            unfold_read(&*context, &*scope, level, array)
        }
        Meant::Neither => unfold_function(context, scope, level, function, arguments),
    }
}

/// Arithmetic of operands, from the first on.
#[cycle(unfolding)]
pub(crate) fn unfold_arithmetic<'a>(
    context: &'a Context<'a>,
    scope: &'a TermScope<'a>,
    level: Level,
    first: &'a Term,
    links: &'a [ArithmeticLink],
) -> Result<Unfolded, UnfoldError>
    requires { 0 < length links.now }
    ensures term { Unfolds (folding_in context.now) level.truth level.room
        (put context.now level.definitions scope.now
        (calculated_term (tree.term_of first.now) links.now)) result }
    ensures faults { Tells context.now result (IsTermMet context.now (suc level.depth)
        level.definitions scope.now (calculated (term_form first.now)
        (arithmetic_links links.now))) }
{
    let inner = Level {
        truth: false,
        ..level
    };
    let mut left = unfold(context, scope, inner, first)?;
    for link in links {
        let place = link.place;
        let room = behind_one(left.room, place);
        let (before, room) = paired(left, room)?;
        let right = unfold(context, scope, Level { room, ..inner }, &link.operand);
        let (before, right) = paired(before, right)?;
        left = calculation(&context.folding(), place, link.operator, before, right)?;
    }
    Ok(left)
}
