//! Formulas in positive normal form.

use pb_fixpoint_trees::Junction;
use pb_sorts::Carrier;
use pb_text_tree::Quantifier;
use pb_typing::Polarity;
use pb_typing_tree::{Argument, Term};

/// A formula in which negation stands on data alone. What it borrows is the typed tree's.
#[derive(Debug, Drop)]
#[cycle(formulas)]
pub enum Formula<'t> {
    /// A data term of kind Bool, negated where the polarity is negative.
    Test {
        polarity: Polarity,
        term: &'t Term,
    },
    /// A conjunction, or a disjunction, of operands in order: a chain of one connective is one
    /// node.
    Join {
        junction: Junction,
        first: Box<Formula<'t>>,
        rest: Vec<Formula<'t>>,
    },
    /// For all values, or for some value, of each of the slots from `slot` on, which have these
    /// carriers.
    Each {
        quantifier: Quantifier,
        slot: usize,
        carriers: &'t [Carrier],
        body: Box<Formula<'t>>,
    },
    /// The instance of an equation, by its place, with these arguments.
    Call {
        equation: usize,
        arguments: &'t [Argument],
    },
}
