//! Formulas as they are read.

use crate::name::Name;
use crate::operator::{Connective, Quantifier};
use crate::place::Place;
use crate::term::{Argument, Term};
use crate::variable::Variables;

/// An instance of a predicate variable.
#[derive(Drop)]
pub struct Instance {
    pub name: Name,
    pub arguments: Vec<Argument>,
}

/// A formula.
#[derive(Drop)]
#[cycle(formulas)]
pub enum Formula {
    /// `true` or `false`.
    Constant {
        place: Place,
        value: bool,
    },
    /// `val` and its data term, the place being that of `val`.
    Value {
        place: Place,
        term: Term,
    },
    /// A predicate variable with its arguments.
    Instance(Instance),
    /// `!` and its operand, the place being that of `!`.
    Negation {
        place: Place,
        operand: Box<Formula>,
    },
    /// Operands of one connective, read to the right: `first c (operand c (operand ..))`.
    Chain {
        connective: Connective,
        first: Box<Formula>,
        links: Vec<Link>,
    },
    /// A quantifier with its variables and its body, the place being that of the quantifier.
    Quantified {
        place: Place,
        quantifier: Quantifier,
        variables: Vec<Variables>,
        body: Box<Formula>,
    },
}

/// A connective in a chain, where it stands, and the operand behind it.
#[derive(Drop)]
#[cycle(formulas)]
pub struct Link {
    pub place: Place,
    pub operand: Formula,
}
