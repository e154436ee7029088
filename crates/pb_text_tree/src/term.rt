//! Data terms as they are read.

use crate::name::Name;
use crate::operator::{Arithmetic, Comparison, Connective, Quantifier};
use crate::place::Place;
use crate::variable::Variables;

/// A data term.
#[derive(Drop)]
#[cycle(terms)]
pub enum Term {
    /// `true` or `false`.
    Constant {
        place: Place,
        value: bool,
    },
    /// A number.
    Number {
        place: Place,
        value: u64,
    },
    /// A variable or an enumerator.
    Name(Name),
    /// `!` and its operand, the place being that of `!`.
    Not {
        place: Place,
        operand: Box<Term>,
    },
    /// `-` and its operand, the place being that of `-`.
    Negative {
        place: Place,
        operand: Box<Term>,
    },
    /// Operands of one connective, read to the right: `first c (operand c (operand ..))`.
    Chain {
        connective: Connective,
        first: Box<Term>,
        links: Vec<TermLink>,
    },
    /// Two terms that are compared, the place being that of the comparison's sign.
    Comparison {
        place: Place,
        comparison: Comparison,
        left: Box<Term>,
        right: Box<Term>,
    },
    /// Operands of arithmetic, read to the left: `((first o operand) o operand) ..`.
    Arithmetic {
        first: Box<Term>,
        links: Vec<ArithmeticLink>,
    },
    /// A function or a recogniser with its arguments.
    Application {
        function: Name,
        arguments: Vec<Argument>,
    },
    /// A quantifier with its variables and its body, the place being that of the quantifier.
    Quantified {
        place: Place,
        quantifier: Quantifier,
        variables: Vec<Variables>,
        body: Box<Term>,
    },
}

/// A connective in a chain, where it stands, and the operand behind it.
#[derive(Drop)]
#[cycle(terms)]
pub struct TermLink {
    pub place: Place,
    pub operand: Term,
}

/// An operator of arithmetic in a chain, where it stands, and the operand behind it.
#[derive(Drop)]
#[cycle(terms)]
pub struct ArithmeticLink {
    pub place: Place,
    pub operator: Arithmetic,
    pub operand: Term,
}

/// An argument, with the place of its first token, which may be a bracket.
#[derive(Drop)]
#[cycle(terms)]
pub struct Argument {
    pub place: Place,
    pub term: Term,
}
