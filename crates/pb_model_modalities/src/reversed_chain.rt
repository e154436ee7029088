//! A chain that is put together from its last operand to its first: however many stand in front,
//! it becomes one chain, not a chain within a chain.

ghost use Rattle.std.specs.Prelude.{◌≡◌, [], IfOk};
ghost use Rattle.pb_text_tree.specs.Form.{FormulaForm, formula_form};
ghost use Rattle.pb_model_modalities.specs.Guard.{reversed_chain_form};

use pb_text_tree::{Connective, Formula, Link, Place};
use std::alloc::{AllocError, Global};

/// The operands of one connective, with the last link first.
#[derive(Drop)]
pub(crate) struct ReversedChain {
    first: Formula,
    links: Vec<Link>,
}

impl ReversedChain {
    /// The chain of a formula alone.
    pub(crate) fn new(alloc: Global, first: Formula) -> Self
        ensures first { result.first ≡ first }
        ensures links { result.links.items ≡ [] }
    {
        let links = Vec::new(alloc);
        ReversedChain { first, links }
    }

    /// The chain behind one more operand, with the place of the connective between them.
    pub(crate) fn behind(self, place: Place, operand: Formula) -> Result<Self, AllocError>
        ensures { IfOk result (λ chain. (c : Connective) → reversed_chain_form c chain
            ≡ FormulaForm.connected c place (formula_form operand) (reversed_chain_form c self)) }
    {
        let ReversedChain { first, mut links } = self;
        links.push(Link {
            place,
            operand: first,
        })?;
        Ok(ReversedChain {
            first: operand,
            links,
        })
    }

    /// The operands as a formula.
    pub(crate) fn into_formula(
        self,
        alloc: Global,
        connective: Connective,
    ) -> Result<Formula, AllocError>
        ensures { IfOk result (λ f. formula_form f ≡ reversed_chain_form connective self) }
    {
        let ReversedChain { first, mut links } = self;
        if links.is_empty() {
            return Ok(first);
        }
        let first = Box::new(alloc, first)?;
        links.reverse();
        Ok(Formula::Chain {
            connective,
            first,
            links,
        })
    }
}
