//! Unfolds connectives and quantifiers: their operands one after another, up to the first that
//! decides.

ghost use Rattle.std.specs.Prelude.{◌<◌, length, suc, MatchResult};
ghost use Rattle.pb_text_tree.specs.Form.{TermForm, chained, term_form, term_links};
ghost use Rattle.pb_text_tree.specs.Form.{variable_forms};
ghost use Rattle.pb_text_meaning.specs.Erase.{erased_variables};
ghost use Rattle.pb_text_meaning.specs.Syntax as syntax;
ghost use Rattle.pb_protocol_folding.specs.Kept as kept;
ghost use Rattle.pb_protocol_folding.specs.View as tree;
ghost use Rattle.pb_protocol_unfolder_terms.specs.Chains.{chain_term, operands_of};
ghost use Rattle.pb_protocol_unfolder_terms.specs.Contexts.{folding_in};
ghost use Rattle.pb_protocol_unfolder_terms.specs.Copies.{copied_term};
ghost use Rattle.pb_protocol_unfolder_terms.specs.Operands.{AreOperands};
ghost use Rattle.pb_protocol_unfolder_terms.specs.Puts.{put};
ghost use Rattle.pb_protocol_unfolder_terms.specs.Tells.{AreCopiesMet, IsTermMet, Tells};
ghost use Rattle.pb_protocol_unfolder_terms.specs.Unfolding.{IsRefusal, Unfolds};

use crate::context::Context;
use crate::fault::UnfoldError;
use crate::level::{Level, behind_one};
use crate::operands::{
    Connected, Operands, decided, decides, joined_operands, joining, neutral, said_of_none,
    truth_counts,
};
use crate::scope::TermScope;
use crate::sorts::Variable;
use crate::unfold::unfold;
use crate::unfolded::Unfolded;
use crate::variables::variables_of;
use crate::written::{Written, written_tuples};
use pb_text_tree::{Connective, Place, Quantifier, Term, TermLink, Variables};

/// A chain of one connective, as a tree has it.
#[derive(Clone, Copy)]
pub(crate) struct Chain<'a> {
    pub connective: Connective,
    pub first: &'a Term,
    pub links: &'a [TermLink],
}

/// A quantifier in data, as a tree has it.
#[derive(Clone, Copy)]
pub(crate) struct Quantified<'a> {
    pub place: Place,
    pub quantifier: Quantifier,
    pub variables: &'a [Variables],
    pub body: &'a Term,
}

/// The variables of a quantifier, and each tuple of their values.
#[derive(Clone, Copy)]
struct Copies<'a> {
    pub variables: &'a [Variable<'a>],
    pub tuples: &'a [Vec<Written<'a>>],
}

/// The operands of a chain, up to the first that decides it.
#[cycle(unfolding)]
pub(crate) fn unfold_operands<'a>(
    context: &'a Context<'a>,
    scope: &'a TermScope<'a>,
    level: Level,
    chain: Chain<'a>,
) -> Result<Operands, UnfoldError>
    requires { 0 < length chain.links.now }
    ensures operands { MatchResult result
        (AreOperands (folding_in context.now) chain.entry.connective level.truth level.room
        (put context.now level.definitions scope.now (chain_term chain.entry.connective
        (tree.term_of chain.entry.first.now) (operands_of chain.entry.links.now))))
        (IsRefusal level.room (put context.now level.definitions scope.now
        (chain_term chain.entry.connective (tree.term_of chain.entry.first.now)
        (operands_of chain.entry.links.now)))) }
    ensures faults { Tells context.now result (IsTermMet context.now (suc level.depth)
        level.definitions scope.now (chained (TermForm.connected chain.entry.connective)
        (term_form chain.entry.first.now) (term_links chain.entry.links.now))) }
{
    let mut before = Vec::new(context.alloc);
    let mut room = level.room;
    let mut term = chain.first;
    for link in chain.links {
        let place = link.place;
        let inner = Level {
            truth: true,
            room: behind_one(room, place)?,
            ..level
        };
        let unfolded = unfold(context, scope, inner, term)?;
        room = unfolded.room;
        if decides(chain.connective, &unfolded.term) {
            drop(unfolded);
            let last = decided(chain.connective, place);
            return Ok(Operands { before, last, room });
        }
        let operand = unfolded.term;
        before.push(TermLink { place, operand })?;
        term = &link.operand;
    }
    let truth = truth_counts(level.truth, &before);
    let unfolded = unfold(
        context,
        scope,
        Level {
            truth,
            room,
            ..level
        },
        term,
    )?;
    Ok(Operands {
        before,
        last: unfolded.term,
        room: unfolded.room,
    })
}

/// What a quantifier says of each tuple of values, up to the first that decides it.
#[cycle(unfolding)]
fn unfold_copies<'a>(
    context: &'a Context<'a>,
    scope: &'a TermScope<'a>,
    level: Level,
    quantified: Quantified<'a>,
    copies: Copies<'a>,
) -> Result<Operands, UnfoldError>
    requires { 0 < length copies.tuples.now }
    ensures operands { MatchResult result
        (AreOperands (folding_in context.now) (kept.joining quantified.entry.quantifier)
        level.truth level.room (copied_term context.now level.definitions scope.now
        quantified.entry.quantifier copies.entry (tree.term_of quantified.entry.body.now)))
        (IsRefusal level.room (copied_term context.now level.definitions scope.now
        quantified.entry.quantifier copies.entry (tree.term_of quantified.entry.body.now))) }
    ensures faults { Tells context.now result (AreCopiesMet context.now level.depth
        level.definitions scope.now quantified.entry.place copies.entry
        (term_form quantified.entry.body.now)) }
{
    let place = quantified.place;
    let connective = joining(quantified.quantifier);
    let mut before = Vec::new(context.alloc);
    let mut room = level.room;
    for values in copies.tuples {
        let inner = Level {
            truth: true,
            room: behind_one(room, place)?,
            ..level
        };
        let copied = TermScope::Values {
            variables: &*copies.variables,
            values: values,
            outer: &*scope,
        };
        let unfolded = unfold(&*context, &copied, inner, &*quantified.body)?;
        room = unfolded.room;
        if decides(connective, &unfolded.term) {
            drop(unfolded);
            let last = decided(connective, place);
            return Ok(Operands { before, last, room });
        }
        let operand = unfolded.term;
        before.push(TermLink { place, operand })?;
    }
    let value = neutral(quantified.quantifier);
    let last = Term::Constant { place, value };
    Ok(Operands { before, last, room })
}

/// A quantifier written out.
#[cycle(unfolding)]
pub(crate) fn unfold_quantified<'a>(
    context: &'a Context<'a>,
    scope: &'a TermScope<'a>,
    level: Level,
    quantified: Quantified<'a>,
) -> Result<Unfolded, UnfoldError>
    ensures term { Unfolds (folding_in context.now) level.truth level.room
        (put context.now level.definitions scope.now
        (syntax.Term.Quantified quantified.entry.quantifier
        (erased_variables (variable_forms quantified.entry.variables.now))
        (tree.term_of quantified.entry.body.now))) result }
    ensures faults { Tells context.now result (IsTermMet context.now (suc level.depth)
        level.definitions scope.now (TermForm.quantified quantified.entry.quantifier
        quantified.entry.place (variable_forms quantified.entry.variables.now)
        (term_form quantified.entry.body.now))) }
{
    let variables = variables_of(context.alloc, quantified.variables)?;
    let place = quantified.place;
    let tuples = written_tuples(context.alloc, context.sorts(), &variables, place)?;
    if tuples.is_empty() {
        return Ok(said_of_none(quantified.quantifier, place, level.room));
    }
    let copies = Copies {
        variables: &variables,
        tuples: &tuples,
    };
    let operands = unfold_copies(&*context, &*scope, level, quantified, copies)?;
    let connected = Connected {
        connective: joining(quantified.quantifier),
        truth: level.truth,
    };
    Ok(joined_operands(context.alloc, connected, operands)?)
}
