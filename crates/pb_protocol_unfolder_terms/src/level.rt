//! How a term is unfolded, and what is refused.

ghost use Rattle.std.specs.Prelude.{◌≡◌, ◌+◌, ◌<◌, ℕ, suc, MatchResult};
ghost use Rattle.pb_base.specs.declared.or_memory.OrMemory.TheVariants.{Refused};
ghost use Rattle.pb_text_tree.specs.Form.{term_form};
ghost use Rattle.pb_text_meaning.specs.Syntax as syntax;
ghost use Rattle.pb_protocol_unfolder_terms.specs.Chains.{HasLinks};
ghost use Rattle.pb_protocol_unfolder_terms.specs.Deep.{HasLargePart, told_at};
ghost use Rattle.pb_protocol_unfolder_terms.specs.declared.fault.UnfoldRule.TheVariants.{Operators};
ghost use Rattle.pb_protocol_unfolder_terms.specs.Met.{Occurrence, Surroundings};
ghost use Rattle.pb_protocol_unfolder_terms.specs.Tells.{IsFaultOf};
ghost use Rattle.pb_protocol_unfolder_terms.specs.Unfolding.{IsRefusal, operator_count};

use crate::fault::{UnfoldError, UnfoldFault, UnfoldRule};
use pb_text_tree::{Place, Term};

/// How a term is unfolded: whether its truth alone counts, by how many of the definitions, how many
/// operators there may be, and how many more terms may be open.
#[derive(Clone, Copy)]
pub(crate) struct Level {
    pub truth: bool,
    pub definitions: usize,
    pub room: u32,
    pub depth: u32,
}

pub(crate) fn refused(rule: UnfoldRule, place: Place) -> UnfoldError
    ensures { result ≡ Refused record { rule = rule; place = place } }
{
    UnfoldError::Refused(UnfoldFault { rule, place })
}

/// How many operators there may be behind one more; the fault stands at its place.
pub(crate) fn behind_one(room: u32, place: Place) -> Result<u32, UnfoldError>
    ensures { MatchResult result (λ left. room ≡ suc left)
        (λ error. (error ≡ Refused record { rule = Operators; place = place }) × (room ≡ 0)) }
{
    match room.checked_sub(1) {
        Some(room) => Ok(room),
        None => Err(refused(UnfoldRule::Operators, place)),
    }
}

/// How many operators there may be behind so many more; the fault stands at a place.
pub(crate) fn behind_all(room: u32, operators: u32, place: Place) -> Result<u32, UnfoldError>
    ensures { MatchResult result (λ left. room ≡ left + operators)
        (λ error. (error ≡ Refused record { rule = Operators; place = place })
        × (room < operators)) }
{
    match room.checked_sub(operators) {
        Some(room) => Ok(room),
        None => Err(refused(UnfoldRule::Operators, place)),
    }
}

/// Why an index isn't unfolded, which says nothing of the operators around it: where it has too
/// many it nests too deep.
pub(crate) fn of_index(error: UnfoldError) -> UnfoldError
    ensures refusal { (n : ℕ) (whole : syntax.Term) → IsRefusal n whole result }
    ensures faults { (m : Surroundings) (whole : Occurrence) (n : ℕ) (index : syntax.Term)
        → IsRefusal n index error → (n < operator_count index → HasLargePart m whole)
        → IsFaultOf m whole error → IsFaultOf m whole result }
{
    match error {
        UnfoldError::Refused(UnfoldFault { rule, place }) => match rule {
            UnfoldRule::Operators => refused(UnfoldRule::Depth, place),
            rule => refused(rule, place),
        },
        UnfoldError::Memory => UnfoldError::Memory,
    }
}

/// The place at which a term that nests too deep is refused.
pub(crate) fn place_of(term: &Term) -> Place
    ensures { result ≡ told_at (term_form term.now) }
{
    match term {
        Term::Constant { place, .. }
        | Term::Number { place, .. }
        | Term::Not { place, .. }
        | Term::Negative { place, .. }
        | Term::Comparison { place, .. }
        | Term::Quantified { place, .. } => *place,
        Term::Name(name) => name.place,
        Term::Application { function, .. } => function.place,
        Term::Chain { first, .. } => place_of(first),
        Term::Arithmetic { first, .. } => place_of(first),
    }
}

/// A term without chains and arithmetic of one operand around it.
pub(crate) fn operated(term: &Term) -> &Term
    ensures form { term_form result.now ≡ term_form term.now }
    ensures links { HasLinks result.now }
{
    match term {
        Term::Chain { first, links, .. } => {
            if links.is_empty() {
                operated(first)
            } else {
                term
            }
        }
        Term::Arithmetic { first, links } => {
            if links.is_empty() {
                operated(first)
            } else {
                term
            }
        }
        _ => term,
    }
}
