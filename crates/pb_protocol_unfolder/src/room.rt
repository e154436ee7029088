//! How many operators an unfolded formula may have.

ghost use Rattle.std.specs.Prelude.{◌≡◌, ◌+◌, ◌<◌, OnOk, sum_by};
ghost use Rattle.pb_base.specs.OrMemory.{IfRefused};
ghost use Rattle.pb_protocol_folding.specs.View.{term_of};
ghost use Rattle.pb_base.specs.declared.limits.TheConstants.{MAX_OPERATORS};
ghost use Rattle.pb_protocol_unfolder_terms.specs.Unfolding.{operator_count};
ghost use Rattle.pb_protocol_unfolder.specs.Faults.{OfMany};
ghost use Rattle.pb_protocol_unfolder.specs.Operators.{argument_operators, operand_operators};
ghost use Rattle.pb_protocol_unfolder.specs.Operators.{operation_operators};

use crate::fault::{UnfoldingError, UnfoldingRule, refused};
use pb_base::MAX_OPERATORS;
use pb_text_tree::{Argument, ArithmeticLink, Place, Term, TermLink};

/// How many more operators a formula may have.
#[derive(Drop)]
pub(crate) struct Room {
    operators: usize,
}

impl Room {
    /// The room of a whole formula.
    pub(crate) fn whole() -> Room
        ensures { result.operators ≡ MAX_OPERATORS }
    {
        Room {
            operators: MAX_OPERATORS,
        }
    }

    /// Takes so many operators; where there are fewer, the token at the place passes the limit.
    pub(crate) fn take(&mut self, operators: usize, place: Place) -> Result<(), UnfoldingError>
        ensures taken { OnOk result (self.old.operators
            ≡ self.new.operators + operators) }
        ensures refused { IfRefused result
            (OfMany (self.old.operators < operators) place) }
    {
        if operators > self.operators {
            return Err(refused(UnfoldingRule::Operators, place));
        }
        self.operators -= operators;
        Ok(())
    }

    #[cycle(operators)]
    fn take_links(&mut self, links: &[TermLink], place: Place) -> Result<(), UnfoldingError>
        ensures taken { OnOk result (self.old.operators
            ≡ self.new.operators + sum_by operand_operators links.now) }
        ensures refused { IfRefused result
            (OfMany (self.old.operators < sum_by operand_operators links.now) place) }
    {
        for link in links {
            self.take(1, place)?;
            self.take_term(&link.operand, place)?;
        }
        Ok(())
    }

    #[cycle(operators)]
    fn take_operations(
        &mut self,
        links: &[ArithmeticLink],
        place: Place,
    ) -> Result<(), UnfoldingError>
        ensures taken { OnOk result (self.old.operators
            ≡ self.new.operators + sum_by operation_operators links.now) }
        ensures refused { IfRefused result
            (OfMany (self.old.operators < sum_by operation_operators links.now) place) }
    {
        for link in links {
            self.take(1, place)?;
            self.take_term(&link.operand, place)?;
        }
        Ok(())
    }

    #[cycle(operators)]
    fn take_arguments(&mut self, arguments: &[Argument], place: Place) -> Result<(), UnfoldingError>
        ensures taken { OnOk result (self.old.operators
            ≡ self.new.operators + sum_by argument_operators arguments.now) }
        ensures refused { IfRefused result
            (OfMany (self.old.operators < sum_by argument_operators arguments.now) place) }
    {
        for argument in arguments {
            self.take_term(&argument.term, place)?;
        }
        Ok(())
    }

    /// Takes the operators of a term; where there are more than are left, the token at the place
    /// passes the limit.
    #[cycle(operators)]
    pub(crate) fn take_term(&mut self, term: &Term, place: Place) -> Result<(), UnfoldingError>
        ensures taken { OnOk result (self.old.operators
            ≡ self.new.operators + operator_count (term_of term.now)) }
        ensures refused { IfRefused result
            (OfMany (self.old.operators < operator_count (term_of term.now)) place) }
    {
        match term {
            Term::Constant { .. } | Term::Number { .. } | Term::Name(_) => Ok(()),
            Term::Not { operand, .. } | Term::Negative { operand, .. } => {
                self.take(1, place)?;
                self.take_term(operand, place)
            }
            Term::Chain { first, links, .. } => {
                self.take_term(first, place)?;
                self.take_links(links, place)
            }
            Term::Comparison { left, right, .. } => {
                self.take(1, place)?;
                self.take_term(left, place)?;
                self.take_term(right, place)
            }
            Term::Arithmetic { first, links } => {
                self.take_term(first, place)?;
                self.take_operations(links, place)
            }
            Term::Application { arguments, .. } => {
                self.take(1, place)?;
                self.take_arguments(arguments, place)
            }
            Term::Quantified { body, .. } => {
                self.take(1, place)?;
                self.take_term(body, place)
            }
        }
    }
}
