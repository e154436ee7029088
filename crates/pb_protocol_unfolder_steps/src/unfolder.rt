//! Unfolds the terms of a protocol.

ghost use Rattle.std.specs.Prelude.{◌≡◌, List, map, IfOk};
ghost use Rattle.pb_text_tree.specs.Form.{term_form};
ghost use Rattle.pb_protocol_tree.specs.Form.{assignment_form, protocol_form};
ghost use Rattle.pb_base.specs.OrMemory.{IfRefused};
ghost use Rattle.pb_protocol_folding.specs.Folding.{folded};
ghost use Rattle.pb_protocol_folding.specs.View.{term_of};
ghost use Rattle.pb_protocol_meaning.specs.Steps.{data_of};
ghost use Rattle.pb_protocol_unfolding.specs.Unfolding as definitions;
ghost use Rattle.pb_protocol_unfolder_steps.specs.Elements.{flat_element};
ghost use Rattle.pb_protocol_tree.specs.declared.step.Assignment as declared_assignment;
ghost use Rattle.pb_protocol_unfolder_terms.specs.AssignmentCopies.{AreCopiesOf, AreSpreadsOf};
ghost use Rattle.pb_protocol_unfolder_terms.specs.TermFaults.{IsFaultInCopying, IsFaultInElement};
ghost use Rattle.pb_protocol_unfolder_terms.specs.TermFaults.{IsFaultInTerm, surroundings_of};
ghost use Rattle.pb_protocol_unfolder_steps.specs.StepFaults.{OnTerm, WithValues};
ghost use Rattle.pb_protocol_unfolder_steps.specs.Written.{AreElementsOf};

use crate::element::Element;
use crate::fault::{StepsError, of_term};
use crate::sorts::sorts_of;
use pb_protocol_tree::{Assignment, Protocol};
use pb_protocol_unfolder_terms as terms;
use pb_protocol_unfolder_terms::{
    AssignmentCopy, Context, Spread, TermScope, spread_assignments, unfold_assigned, unfold_term,
};
use pb_text_tree::Term;
use std::alloc::{AllocError, Global};
use std::marker::Model;

/// A protocol with its elements, and what its terms are unfolded by. Contracts see the protocol.
#[derive(Drop)]
pub struct Unfolder<'a, 'e> {
    alloc: Global,
    protocol: &'a Protocol,
    elements: &'e [Element<'a>],
    context: Context<'a>,
}

impl<'a, 'e> Model for Unfolder<'a, 'e> {
    ghost use Rattle.pb_protocol_tree.specs.declared.protocol.Protocol.{Protocol};
    ghost use Rattle.pb_protocol_tree.specs.contracts.protocol.Protocol.{the_row};
    ghost use Rattle.pb_protocol_tree.specs.Form.{protocol_form};
    ghost use Rattle.pb_protocol_unfolder_steps.specs.TermContexts.{IsContextOf};
    ghost use Rattle.pb_protocol_unfolder_steps.specs.Written.{AreElementsOf};

    ghost Value = { Protocol };

    ghost coded = { the_row.coded };

    ghost view = { λ unfolder. unfolder.protocol.now };

    ghost invariant = { λ unfolder. IsContextOf (protocol_form unfolder.protocol.now)
        unfolder.context
        × AreElementsOf (protocol_form unfolder.protocol.now) unfolder.elements.now };
}

impl<'a, 'e> Unfolder<'a, 'e> {
    ghost use Rattle.pb_protocol_unfolder_steps.specs.Steps.{element_assigned};
    ghost use Rattle.pb_protocol_unfolder_steps.specs.Steps.{protocol_assignments};
    ghost use Rattle.pb_protocol_unfolder_steps.specs.Unfolder.{form_in, protocol_in, scope_within};

    /// What unfolds the terms of a protocol's steps and formulas, where these are its elements.
    ///
    /// # Errors
    /// Memory was refused.
    pub fn new(
        alloc: Global,
        protocol: &'a Protocol,
        elements: &'e [Element<'a>],
    ) -> Result<Unfolder<'a, 'e>, AllocError>
        requires { AreElementsOf (protocol_form protocol.now) elements.now }
        ensures { IfOk result (λ u. u ≡ protocol.now) }
    {
        let context = Context::new(alloc, protocol)?;
        Ok(Unfolder {
            alloc,
            protocol,
            elements,
            context,
        })
    }

    /// Where memory comes from.
    pub fn alloc(&self) -> Global {
        self.alloc
    }

    /// The protocol.
    pub fn protocol(&self) -> &'a Protocol
        ensures { result.now ≡ self.now }
    {
        self.protocol
    }

    /// The elements of the protocol's state variables.
    pub fn elements(&self) -> &'e [Element<'a>]
        ensures { AreElementsOf (form_in self.now) result.now }
    {
        self.elements
    }

    /// A term, with what names stand for put in, folded: where its truth alone counts, or its
    /// value.
    ///
    /// # Errors
    /// The term isn't unfolded (`StepsFault::Term`), or memory was refused.
    pub fn unfold(
        &self,
        scope: &TermScope<'_>,
        truth: bool,
        term: &Term,
    ) -> Result<Term, StepsError>
        ensures term { IfOk result (λ t. term_of t ≡ folded (data_of (protocol_in self.now)) truth
            (definitions.unfolded_term (protocol_in self.now) (scope_within self.now scope.now)
            (term_of term.now))) }
        ensures refused { IfRefused result (OnTerm (WithValues scope.now (IsFaultInTerm
            (surroundings_of (form_in self.now)) (scope_within self.now scope.now)
            (term_form term.now)))) }
    {
        match unfold_term(&self.context, scope, truth, term) {
            Ok(unfolded) => Ok(unfolded.term),
            Err(error) => Err(of_term(error)),
        }
    }

    /// Assignments, each for all values of its variables.
    pub(crate) fn spread<'s>(
        &self,
        assignments: &'s [Assignment],
    ) -> Result<Vec<Spread<'s>>, StepsError>
    where
        'a: 's,
        ensures spreads { IfOk result (λ v. AreSpreadsOf (data_of (protocol_in self.now))
            assignments.now v.items) }
        ensures refused { IfRefused result (OnTerm (IsFaultInCopying
            (data_of (protocol_in self.now)) (map assignment_form assignments.now))) }
    {
        match spread_assignments(self.alloc, sorts_of(self.protocol), assignments) {
            Ok(spreads) => Ok(spreads),
            Err(error) => Err(of_term(error)),
        }
    }

    /// What an element gets by assignments, folded, of which these are all copies.
    pub(crate) fn unfold_assigned(
        &self,
        scope: &TermScope<'_>,
        copies: &[AssignmentCopy<'_>],
        element: &Element<'_>,
    ) -> Result<Term, StepsError>
        ensures term { (assignments : List declared_assignment.Assignment)
            → AreCopiesOf (data_of (protocol_in self.now)) assignments copies.now
            → IfOk result (λ t. term_of t ≡ element_assigned (protocol_in self.now)
            (scope_within self.now scope.now) (protocol_assignments assignments)
            (flat_element element.now)) }
        ensures refused { (assignments : List declared_assignment.Assignment)
            → AreCopiesOf (data_of (protocol_in self.now)) assignments copies.now
            → IfRefused result (OnTerm (WithValues scope.now (IsFaultInElement
            (surroundings_of (form_in self.now)) (scope_within self.now scope.now)
            (map assignment_form assignments) (flat_element element.now)))) }
    {
        let element = terms::Element {
            array: element.name,
            index: &element.index,
        };
        match unfold_assigned(&self.context, scope, copies, &element) {
            Ok(unfolded) => Ok(unfolded.term),
            Err(error) => Err(of_term(error)),
        }
    }
}
