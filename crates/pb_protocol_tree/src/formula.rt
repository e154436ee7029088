//! Formulas of the modal mu-calculus with data (Groote and Mousavi 2014), as they are read.

use crate::step_set::StepSet;
use pb_fixpoint::Sign;
use pb_model_tree::Modality;
use pb_text_tree::{Connective, Name, Place, Quantifier, Term, Variables};

/// A formula of the modal mu-calculus.
#[derive(Drop)]
#[cycle(formulas)]
pub enum Formula {
    /// `true` or `false`.
    Constant {
        place: Place,
        value: bool,
    },
    /// A data term of Booleans over the state and the variables of quantifiers around, with the
    /// place of its first token.
    Data {
        place: Place,
        term: Term,
    },
    /// The variable of a fixpoint around it.
    Variable(Name),
    /// `!` and its operand, the place being that of `!`.
    Negation {
        place: Place,
        operand: Box<Formula>,
    },
    /// Operands of one connective, read to the right: `first c (operand c (operand ..))`.
    Chain {
        connective: Connective,
        first: Box<Formula>,
        links: Vec<Link>,
    },
    /// `[A]` or `<A>` and its operand, the place being that of the bracket.
    Modal {
        place: Place,
        modality: Modality,
        steps: StepSet,
        operand: Box<Formula>,
    },
    /// `mu X .` or `nu X .` and its body, the place being that of `mu` or `nu`.
    Fixpoint {
        place: Place,
        sign: Sign,
        variable: Name,
        body: Box<Formula>,
    },
    /// `forall` or `exists` with its variables and its body, the place being that of the
    /// quantifier: all copies of the body, or some, one for each tuple of values.
    Quantified {
        place: Place,
        quantifier: Quantifier,
        variables: Vec<Variables>,
        body: Box<Formula>,
    },
}

/// A connective in a chain, where it stands, and the operand behind it.
#[derive(Drop)]
#[cycle(formulas)]
pub struct Link {
    pub place: Place,
    pub operand: Formula,
}
