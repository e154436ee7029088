//! A formula behind a guard, which is cut into its conjuncts: the first that is false decides, and
//! those behind it aren't looked at.

ghost use Rattle.std.specs.Prelude.{◌≡◌, not, IfOk};
ghost use Rattle.pb_text_tree.specs.Form.{FormulaForm, formula_form, term_form, term_links};
ghost use Rattle.pb_model_translation.specs.Placed.{behind_form};
ghost use Rattle.pb_model_modalities.specs.Guard.{reversed_chain_form};
ghost use Rattle.pb_model_modalities.specs.Guard as guards;

use crate::reversed_chain::ReversedChain;
use pb_text_tree::{Connective, Formula, Place, Term, TermLink, copy_term};
use std::alloc::{AllocError, Global};

/// How a guard is read: the connective between it and the formula behind it, the place at which it
/// stands, and whether its negation is meant.
#[derive(Clone, Copy)]
pub(crate) struct Reading {
    pub connective: Connective,
    pub place: Place,
    pub negated: bool,
}

/// How the operand of a negation at a place is read.
fn negated_at(reading: Reading, place: Place) -> Reading
    ensures { result ≡ record {
      connective = reading.connective;
      place = place;
      negated = not reading.negated;
    } }
{
    Reading {
        connective: reading.connective,
        place,
        negated: !reading.negated,
    }
}

/// Whether a chain, or its negation, is the conjunction of its operands, some of them negated.
fn is_cut(connective: Connective, negated: bool) -> bool
    ensures { result ≡ guards.is_cut connective negated }
{
    match connective {
        Connective::And => !negated,
        Connective::Or | Connective::Implies => negated,
    }
}

/// Whether all operands but the last are negated there.
fn negates_first(connective: Connective) -> bool
    ensures { result ≡ guards.negates_first connective }
{
    match connective {
        Connective::Or => true,
        Connective::And | Connective::Implies => false,
    }
}

/// What is tested of a conjunct.
fn conjunct(alloc: Global, reading: Reading, guard: &Term) -> Result<Formula, AllocError>
    ensures { IfOk result (λ f. formula_form f ≡ FormulaForm.val reading.place
        (guards.signed_term reading.place reading.negated (term_form guard.now))) }
{
    let place = reading.place;
    let term = copy_term(alloc, guard)?;
    if reading.negated {
        let operand = Box::new(alloc, term)?;
        let term = Term::Not { place, operand };
        return Ok(Formula::Value { place, term });
    }
    Ok(Formula::Value { place, term })
}

/// A chain behind a guard that stays whole.
fn behind_conjunct(
    alloc: Global,
    reading: Reading,
    guard: &Term,
    then: ReversedChain,
) -> Result<ReversedChain, AllocError>
    ensures { IfOk result (λ chain. reversed_chain_form reading.connective chain
        ≡ FormulaForm.connected reading.connective reading.place (FormulaForm.val reading.place
        (guards.signed_term reading.place reading.negated (term_form guard.now)))
        (reversed_chain_form reading.connective then)) }
{
    let condition = conjunct(alloc, reading, guard)?;
    then.behind(reading.place, condition)
}

/// How the operand of a link is read, before others.
fn operand_reading(
    reading: Reading,
    others_negated: bool,
    place: Place,
    links: &[TermLink],
) -> Reading
    ensures connective { result.connective ≡ reading.connective }
    ensures sign { (result.place, result.negated)
        ≡ guards.operand_sign reading.negated others_negated place (term_links links.now) }
{
    match links.first() {
        Some(next) => Reading {
            place: next.place,
            negated: others_negated,
            connective: reading.connective,
        },
        None => Reading {
            place,
            negated: reading.negated,
            connective: reading.connective,
        },
    }
}

/// A chain behind the operands of a guard's links.
#[cycle(guards)]
fn behind_operands(
    alloc: Global,
    reading: Reading,
    others_negated: bool,
    links: &[TermLink],
    mut then: ReversedChain,
) -> Result<ReversedChain, AllocError>
    ensures { IfOk result (λ chain. reversed_chain_form reading.connective chain
        ≡ guards.behind_operands reading.connective reading.negated others_negated
        (term_links links.now) (reversed_chain_form reading.connective then)) }
{
    for index in (0..links.len()).rev() {
        let link = &links[index];
        let after = &links[index + 1..];
        let sign = operand_reading(reading, others_negated, link.place, after);
        then = behind(alloc, sign, &link.operand, then)?;
    }
    Ok(then)
}

/// A chain behind a guard, or behind its negation: the guard's conjuncts one behind the other.
#[cycle(guards)]
fn behind(
    alloc: Global,
    reading: Reading,
    guard: &Term,
    then: ReversedChain,
) -> Result<ReversedChain, AllocError>
    ensures { IfOk result (λ chain. reversed_chain_form reading.connective chain
        ≡ behind_form reading.connective reading.place reading.negated (term_form guard.now)
        (reversed_chain_form reading.connective then)) }
{
    match guard {
        Term::Not { place, operand } => {
            let turned = negated_at(reading, *place);
            behind(alloc, turned, operand, then)
        }
        Term::Chain {
            connective,
            first,
            links,
        } => {
            if links.is_empty() {
                return behind(alloc, reading, first, then);
            }
            if !is_cut(*connective, reading.negated) {
                return behind_conjunct(alloc, reading, guard, then);
            }
            let others_negated = negates_first(*connective);
            let then = behind_operands(alloc, reading, others_negated, links, then)?;
            let sign = operand_reading(reading, others_negated, reading.place, links);
            behind(alloc, sign, first, then)
        }
        Term::Arithmetic { first, links } => {
            if links.is_empty() {
                return behind(alloc, reading, first, then);
            }
            behind_conjunct(alloc, reading, guard, then)
        }
        _ => behind_conjunct(alloc, reading, guard, then),
    }
}

/// A formula behind a guard, or behind its negation.
pub(crate) fn guarded(
    alloc: Global,
    reading: Reading,
    guard: &Term,
    then: Formula,
) -> Result<Formula, AllocError>
    ensures { IfOk result (λ f. formula_form f ≡ behind_form reading.connective reading.place
        reading.negated (term_form guard.now) (formula_form then)) }
{
    let alone = ReversedChain::new(alloc, then);
    let chain = behind(alloc, reading, guard, alone)?;
    chain.into_formula(alloc, reading.connective)
}
