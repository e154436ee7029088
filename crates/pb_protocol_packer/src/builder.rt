//! Data terms that are made, all nodes of which stand at one place.

ghost use Rattle.std.specs.Prelude.{◌≡◌, IfOk};
ghost use Rattle.pb_text_meaning.specs.Syntax as syntax;
ghost use Rattle.pb_text_meaning.specs.Erase.{of_arithmetic, of_comparison, of_connective};
ghost use Rattle.pb_protocol_packing.specs.Numbers as numbers;
ghost use Rattle.pb_protocol_packer.specs.View.{term_of, name_bytes};

use crate::node::{application, arithmetic, chain};
use pb_base::both;
use pb_text_tree::{
    Argument, Arithmetic, ArithmeticLink, Comparison, Connective, Name, Place, Term, TermLink,
};
use std::alloc::{AllocError, Global};

/// The place of the nodes, and an allocator.
#[derive(Clone, Copy)]
pub(crate) struct Builder {
    pub alloc: Global,
    pub place: Place,
}

impl Builder {
    /// A truth value.
    pub fn truth(self, value: bool) -> Term
        ensures { term_of result ≡ syntax.Term.Truth value }
    {
        Term::Constant {
            place: self.place,
            value,
        }
    }

    /// A number that isn't below 0.
    pub fn number(self, value: u64) -> Term
        ensures { term_of result ≡ syntax.Term.Number value }
    {
        Term::Number {
            place: self.place,
            value,
        }
    }

    /// A whole number, with `-` where it is below 0.
    pub fn whole(self, value: i64) -> Result<Term, AllocError>
        ensures { IfOk result (λ t. term_of t ≡ numbers.number value) }
    {
        let number = self.number(value.unsigned_abs());
        if value >= 0 {
            return Ok(number);
        }
        let operand = Box::new(self.alloc, number)?;
        Ok(Term::Negative {
            place: self.place,
            operand,
        })
    }

    /// A name.
    pub fn name(self, name: &Name) -> Result<Term, AllocError>
        ensures { IfOk result (λ t. term_of t ≡ syntax.Term.Named (name_bytes name.now)) }
    {
        let text = name.text.as_str().to_owned(self.alloc)?;
        Ok(Term::Name(Name {
            place: self.place,
            text,
        }))
    }

    /// Two terms with an operator of arithmetic between them. What stands left of it goes on: no
    /// node is nested in another there.
    pub fn computed(self, operator: Arithmetic, left: Term, right: Term) -> Result<Term, AllocError>
        ensures { IfOk result (λ t. term_of t
            ≡ syntax.Term.Binary (of_arithmetic operator) (term_of left) (term_of right)) }
    {
        let link = ArithmeticLink {
            place: self.place,
            operator,
            operand: right,
        };
        match left {
            Term::Arithmetic { first, mut links } => {
                links.push(link)?;
                Ok(Term::Arithmetic { first, links })
            }
            _ => {
                let (left, links) = both(left, vec![in self.alloc; link])?;
                arithmetic(self.alloc, left, links)
            }
        }
    }

    /// Two terms that are compared.
    pub fn compared(
        self,
        comparison: Comparison,
        left: Term,
        right: Term,
    ) -> Result<Term, AllocError>
        ensures { IfOk result (λ t. term_of t
            ≡ syntax.Term.Binary (of_comparison comparison) (term_of left) (term_of right)) }
    {
        let (right, left) = both(right, Box::new(self.alloc, left))?;
        let right = Box::new(self.alloc, right)?;
        Ok(Term::Comparison {
            place: self.place,
            comparison,
            left,
            right,
        })
    }

    /// Two Boolean terms with a connective between them. A chain on the right goes on.
    pub fn connected(
        self,
        connective: Connective,
        left: Term,
        right: Term,
    ) -> Result<Term, AllocError>
        ensures { IfOk result (λ t. term_of t
            ≡ syntax.Term.Binary (of_connective connective) (term_of left) (term_of right)) }
    {
        let link = TermLink {
            place: self.place,
            operand: right,
        };
        let (left, links) = both(left, vec![in self.alloc; link])?;
        chain(self.alloc, connective, left, links)
    }

    /// `if(condition, chosen, other)`.
    pub fn either(self, condition: Term, chosen: Term, other: Term) -> Result<Term, AllocError>
        ensures { IfOk result (λ t. term_of t
            ≡ numbers.either (term_of condition) (term_of chosen) (term_of other)) }
    {
        let arguments = vec![in self.alloc;
            self.argument(condition),
            self.argument(chosen),
            self.argument(other),
        ]?;
        let text = "if".to_owned(self.alloc)?;
        let function = Name {
            place: self.place,
            text,
        };
        Ok(application(function, arguments))
    }

    fn argument(self, term: Term) -> Argument
        ensures { result ≡ record { place = self.place; term = term } }
    {
        Argument {
            place: self.place,
            term,
        }
    }
}
