//! Unfolds a term: what its names stand for is put in, and what is decided is folded at once.

ghost use Rattle.std.specs.Prelude.{None, string_bytes, suc};
ghost use Rattle.pb_text_tree.specs.Form.{TermForm, named, term_form};
ghost use Rattle.pb_text_meaning.specs.Syntax.{NoTerms};
ghost use Rattle.pb_text_meaning.specs.Syntax as syntax;
ghost use Rattle.pb_protocol_folding.specs.View as tree;
ghost use Rattle.pb_protocol_unfolding.specs.PutIn as spec;
ghost use Rattle.pb_protocol_unfolder_terms.specs.Chains.{HasLinks};
ghost use Rattle.pb_protocol_unfolder_terms.specs.Contexts.{forms_in, folding_in, spec_in};
ghost use Rattle.pb_protocol_unfolder_terms.specs.Puts.{put};
ghost use Rattle.pb_protocol_unfolder_terms.specs.Scopes.{scope_of};
ghost use Rattle.pb_protocol_unfolder_terms.specs.Tells.{IsMetAt, IsTermMet, Tells};
ghost use Rattle.pb_protocol_unfolder_terms.specs.Unfolding.{Unfolds};

use crate::applications::{unfold_application, unfold_arithmetic};
use crate::connectives::{Chain, Quantified, unfold_operands, unfold_quantified};
use crate::context::Context;
use crate::fault::{UnfoldError, UnfoldRule};
use crate::form::Form;
use crate::level::{Level, behind_one, operated, place_of, refused};
use crate::meant::Meant;
use crate::names::{bare_variable, own_name, value_term};
use crate::operands::{Connected, joined_operands};
use crate::pair::paired;
use crate::scope::{NameBinding, TermScope, looked_up};
use crate::unfolded::{Unfolded, comparison, negation, negative};
use pb_text_tree::{Name, Term};

/// A name that nothing in scope stands for.
#[cycle(unfolding)]
fn unfold_free<'a>(
    context: &'a Context<'a>,
    level: Level,
    name: &'a Name,
) -> Result<Unfolded, UnfoldError>
    ensures term { Unfolds (folding_in context.now) level.truth level.room
        (spec.named_term (spec_in context.now) None
        (forms_in context.now level.definitions (string_bytes name.now.text) NoTerms)
        (string_bytes name.now.text)) result }
    ensures faults { (ρ : spec.TermScope) → Tells context.now result
        (IsMetAt context.now (suc level.depth) level.definitions ρ
        (TermForm.name (named name.now))) }
{
    match context.meant(level.definitions, name.text.as_str(), 0) {
        Meant::Definition(definition, before) => {
            let inner = Level {
                definitions: before,
                ..level
            };
            unfold(context, &TermScope::Empty, inner, definition.term)
        }
        Meant::Variable(variable) => {
            let place = name.place;
            Ok(bare_variable(context, variable, place, level.room)?)
        }
        Meant::Neither => Ok(own_name(context, name, level.room)?),
    }
}

/// A name with what it stands for put in.
#[cycle(unfolding)]
fn unfold_name<'a>(
    context: &'a Context<'a>,
    scope: &'a TermScope<'a>,
    level: Level,
    name: &'a Name,
) -> Result<Unfolded, UnfoldError>
    ensures term { Unfolds (folding_in context.now) level.truth level.room
        (spec.put_in (spec_in context.now) (forms_in context.now level.definitions)
        (scope_of (spec_in context.now) (forms_in context.now) scope.now)
        (syntax.Term.Named (string_bytes name.now.text))) result }
    ensures faults { Tells context.now result (IsTermMet context.now (suc level.depth)
        level.definitions scope.now (TermForm.name (named name.now))) }
{
    match looked_up(scope, name.text.as_str()) {
        NameBinding::Value(value) => {
            Ok(value_term(&context.folding(), value, name.place, level.room)?)
        }
        NameBinding::Argument {
            term,
            definitions,
            user,
        } => {
            let inner = Level {
                definitions,
                ..level
            };
            unfold(context, user, inner, term)
        }
        NameBinding::Nothing => unfold_free(context, level, name),
    }
}

/// A term that is open with what its names stand for put in, folded.
#[cycle(unfolding)]
fn unfold_opened<'a>(
    context: &'a Context<'a>,
    scope: &'a TermScope<'a>,
    level: Level,
    term: &'a Term,
) -> Result<Unfolded, UnfoldError>
    requires { HasLinks term.now }
    ensures term { Unfolds (folding_in context.now) level.truth level.room
        (spec.put_in (spec_in context.now) (forms_in context.now level.definitions)
        (scope_of (spec_in context.now) (forms_in context.now) scope.now)
        (tree.term_of term.now)) result }
    ensures faults { Tells context.now result
        (IsTermMet context.now (suc level.depth) level.definitions scope.now
        (term_form term.now)) }
{
    match term {
        Term::Constant { place, value } => Ok(Unfolded {
            term: Term::Constant {
                place: *place,
                value: *value,
            },
            form: Form::Truth(*value),
            room: level.room,
        }),
        Term::Number { place, value } => Ok(Unfolded {
            term: Term::Number {
                place: *place,
                value: *value,
            },
            form: Form::Number(*value),
            room: level.room,
        }),
        Term::Name(name) => unfold_name(context, scope, level, name),
        Term::Not { place, operand } => {
            let room = behind_one(level.room, *place)?;
            let inner = Level {
                truth: true,
                room,
                ..level
            };
            let operand = unfold(context, scope, inner, operand)?;
            Ok(negation(&context.folding(), *place, operand)?)
        }
        Term::Negative { place, operand } => {
            let room = behind_one(level.room, *place)?;
            let inner = Level {
                truth: false,
                room,
                ..level
            };
            let operand = unfold(context, scope, inner, operand)?;
            Ok(negative(&context.folding(), *place, operand)?)
        }
        Term::Chain {
            connective,
            first,
            links,
        } => {
            let chain = Chain {
                connective: *connective,
                first,
                links,
            };
            let operands = unfold_operands(context, scope, level, chain)?;
            let connected = Connected {
                connective: *connective,
                truth: level.truth,
            };
            Ok(joined_operands(context.alloc, connected, operands)?)
        }
        Term::Comparison {
            place,
            comparison: sign,
            left,
            right,
        } => {
            let room = behind_one(level.room, *place)?;
            let inner = Level {
                truth: false,
                room,
                ..level
            };
            let left = unfold(context, scope, inner, left)?;
            let inner = Level {
                truth: false,
                room: left.room,
                ..level
            };
            let right = unfold(context, scope, inner, right);
            let (left, right) = paired(left, right)?;
            Ok(comparison(&context.folding(), *place, *sign, left, right)?)
        }
        Term::Application {
            function,
            arguments,
        } => unfold_application(context, scope, level, function, arguments),
        Term::Arithmetic { first, links } => {
            unfold_arithmetic(context, scope, level, first, links)
        }
        Term::Quantified {
            place,
            quantifier,
            variables,
            body,
        } => {
            let quantified = Quantified {
                place: *place,
                quantifier: *quantifier,
                variables,
                body,
            };
            unfold_quantified(context, scope, level, quantified)
        }
    }
}

/// A term with what its names stand for put in, folded. It takes a level.
#[cycle(unfolding)]
pub(crate) fn unfold<'a>(
    context: &'a Context<'a>,
    scope: &'a TermScope<'a>,
    level: Level,
    term: &'a Term,
) -> Result<Unfolded, UnfoldError>
    ensures term { Unfolds (folding_in context.now) level.truth level.room
        (spec.put_in (spec_in context.now) (forms_in context.now level.definitions)
        (scope_of (spec_in context.now) (forms_in context.now) scope.now)
        (tree.term_of term.now)) result }
    ensures faults { Tells context.now result (IsTermMet context.now level.depth level.definitions
        scope.now (term_form term.now)) }
{
    let Some(depth) = level.depth.checked_sub(1) else {
        return Err(refused(UnfoldRule::Depth, place_of(term)));
    };
    unfold_opened(context, scope, Level { depth, ..level }, operated(term))
}
