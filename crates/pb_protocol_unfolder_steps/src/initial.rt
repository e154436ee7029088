//! The values of the elements at the start.

ghost use Rattle.std.specs.Prelude.{◌≡◌, ◌<◌, ◌++◌, false, length, map, flat_map, IfOk, OnOk};
ghost use Rattle.pb_text_tree.specs.Form.{argument_forms, term_form};
ghost use Rattle.pb_protocol_tree.specs.Form.{protocol_form};
ghost use Rattle.pb_text_meaning.specs.Erase.{erased_arguments};
ghost use Rattle.pb_base.specs.OrMemory.{IfRefused};
ghost use Rattle.pb_protocol_folding.specs.Folding.{folded_arguments};
ghost use Rattle.pb_protocol_folding.specs.View.{term_of};
ghost use Rattle.pb_protocol_meaning.specs.Erase.{protocol_of};
ghost use Rattle.pb_protocol_meaning.specs.Steps.{data_of};
ghost use Rattle.pb_protocol_unfolding.specs.Unfolding as definitions;
ghost use Rattle.pb_protocol_unfolding.specs.Written.{written_tuples};
ghost use Rattle.pb_base.specs.declared.limits.TheConstants.{MAX_OPERATORS};
ghost use Rattle.pb_protocol_unfolder_terms.specs.Values.{tuple_of, written_term};
ghost use Rattle.pb_protocol_unfolder_terms.specs.View.{variable_of};
ghost use Rattle.pb_protocol_unfolder_steps.specs.Initial.{argument_term, indices_behind, indices_of_group};
ghost use Rattle.pb_protocol_unfolder_steps.specs.Initial.{indices_of_state, indices_said};
ghost use Rattle.pb_protocol_unfolder_steps.specs.Initial.{initial_terms_of, term_at, terms_at};
ghost use Rattle.pb_protocol_unfolder_steps.specs.StepFaults.{IsFaultAtValues, IsFaultAtSome, IsFaultAtStart};
ghost use Rattle.pb_protocol_unfolder_steps.specs.StepFaults.{IsFaultInValue, IsFaultInValues};
ghost use Rattle.pb_protocol_unfolder_steps.specs.StepFaults.{IsTermOr, OnTerm, argument_form};

use crate::fault::{StepsError, of_term};
use crate::sorts::sorts_of;
use crate::tuples::all_tuples;
use pb_protocol_tree::{Protocol, StateVariable, StateVariables};
use pb_protocol_unfolder_terms::{
    Context, TermScope, Variable, Written, unfold_term, variables_of,
};
use pb_text_tree::{Argument, Term};
use std::alloc::{AllocError, Global};
use std::marker::Model;

/// Adds the state variables of a group.
fn push_variables<'a>(
    variables: &mut Vec<&'a StateVariable>,
    group: &'a StateVariables,
) -> Result<(), AllocError>
    ensures { OnOk result (map indices_behind variables.new.items
        ≡ map indices_behind variables.old.items ++ indices_of_group group.now) }
{
    for variable in &group.variables {
        variables.push(variable)?;
    }
    Ok(())
}

/// All state variables, in order.
fn state_variables<'a>(
    alloc: Global,
    state: &'a [StateVariables],
) -> Result<Vec<&'a StateVariable>, AllocError>
    ensures { IfOk result (λ v. map indices_behind v.items ≡ indices_of_state state.now) }
{
    let mut variables = Vec::new(alloc);
    for group in state {
        push_variables(&mut variables, group)?;
    }
    Ok(variables)
}

/// A protocol, and what the terms of its initial state are unfolded by. Contracts see the protocol.
#[derive(Drop)]
struct Initial<'a> {
    alloc: Global,
    protocol: &'a Protocol,
    context: Context<'a>,
}

impl<'a> Model for Initial<'a> {
    ghost use Rattle.pb_protocol_tree.specs.declared.protocol.Protocol.{Protocol};
    ghost use Rattle.pb_protocol_tree.specs.contracts.protocol.Protocol.{the_row};
    ghost use Rattle.pb_protocol_tree.specs.Form.{protocol_form};
    ghost use Rattle.pb_protocol_unfolder_steps.specs.TermContexts.{IsContextAtStart};

    ghost Value = { Protocol };

    ghost coded = { the_row.coded };

    ghost view = { λ initial. initial.protocol.now };

    ghost invariant = { λ initial.
        IsContextAtStart (protocol_form initial.protocol.now) initial.context };
}

impl Initial<'_> {
    /// A term at values of indices, folded.
    fn unfold_at(
        &self,
        indices: &[Variable<'_>],
        values: &[Written<'_>],
        term: &Term,
    ) -> Result<Term, StepsError>
        ensures term { IfOk result (λ t. term_of t ≡ term_at (protocol_of self.now)
            (map variable_of indices.now) (term_of term.now) (map written_term values.now)) }
        ensures refused { IfRefused result (OnTerm (IsFaultAtValues (protocol_form self.now)
            (map variable_of indices.now) (term_form term.now) (map written_term values.now))) }
    {
        let scope = TermScope::Values {
            variables: indices,
            values,
            outer: &TermScope::Empty,
        };
        match unfold_term(&self.context, &scope, false, term) {
            Ok(unfolded) => Ok(unfolded.term),
            Err(error) => Err(of_term(error)),
        }
    }

    /// Adds a term at each of these tuples of values of indices.
    fn push_at(
        &self,
        terms: &mut Vec<Argument>,
        indices: &[Variable<'_>],
        tuples: &[Vec<Written<'_>>],
        value: &Argument,
    ) -> Result<(), StepsError>
        ensures terms { OnOk result (map argument_term terms.new.items
            ≡ map argument_term terms.old.items
            ++ map (term_at (protocol_of self.now) (map variable_of indices.now)
            (argument_term value.now)) (map tuple_of tuples.now)) }
        ensures refused { IfRefused result (OnTerm (IsFaultAtSome
            (protocol_form self.now) (map variable_of indices.now)
            (argument_form value.now) (map tuple_of tuples.now))) }
    {
        let place = value.place;
        for values in tuples {
            let term = self.unfold_at(indices, values, &value.term)?;
            terms.push(Argument { place, term })?;
        }
        Ok(())
    }

    /// Adds the values of a state variable's elements at the start.
    fn push_values(
        &self,
        terms: &mut Vec<Argument>,
        variable: &StateVariable,
        value: &Argument,
    ) -> Result<(), StepsError>
        ensures terms { OnOk result (map argument_term terms.new.items
            ≡ map argument_term terms.old.items
            ++ terms_at (protocol_of self.now) (indices_said variable.now)
            (argument_term value.now)) }
        ensures refused { IfRefused result (IsTermOr (MAX_OPERATORS
            < length (written_tuples (data_of (protocol_of self.now))
            (indices_said variable.now)))
            (IsFaultInValue (protocol_form self.now) (indices_said variable.now)
            (argument_form value.now))) }
    {
        let indices = variables_of(self.alloc, &variable.indices)?;
        let sorts = sorts_of(self.protocol);
        let tuples = all_tuples(self.alloc, sorts, &variable.indices, variable.name.place)?;
        self.push_at(terms, &indices, &tuples, value)
    }

    /// The values of the elements of these variables at the start.
    fn values_of(
        &self,
        variables: &[&StateVariable],
        values: &[Argument],
    ) -> Result<Vec<Argument>, StepsError>
        ensures terms { IfOk result (λ v. map argument_term v.items
            ≡ initial_terms_of (protocol_of self.now)
            (map indices_behind variables.now) (map argument_term values.now)) }
        ensures refused { IfRefused result (IsTermOr (MAX_OPERATORS
            < length (flat_map (written_tuples (data_of (protocol_of self.now)))
            (map indices_behind variables.now)))
            (IsFaultInValues (protocol_form self.now)
            (map indices_behind variables.now) (map argument_form values.now))) }
    {
        let mut terms = Vec::new(self.alloc);
        for at in 0..variables.len().min(values.len()) {
            self.push_values(&mut terms, variables[at], &values[at])?;
        }
        Ok(terms)
    }
}

/// The values of the elements at the start, folded: for each element the term of its variable, with
/// the index put in. Each stands where that term does.
///
/// # Errors
/// A term isn't unfolded (`StepsFault::Term`), memory was refused, or there are more than 8,192
/// elements (T12, at the name of a state variable), which `elements` refuses before.
pub fn initial_terms(alloc: Global, protocol: &Protocol) -> Result<Vec<Argument>, StepsError>
    ensures terms { IfOk result (λ v. erased_arguments (argument_forms v.items)
        ≡ folded_arguments (data_of (protocol_of protocol.now)) false
        (definitions.terms_of (definitions.unfolded_initial (data_of (protocol_of protocol.now))
        (definitions.forms_at_start (protocol_of protocol.now))
        (protocol_of protocol.now).variables (protocol_of protocol.now).initial))) }
    ensures refused { IfRefused result (IsTermOr
        (MAX_OPERATORS < length (definitions.all_elements (protocol_of protocol.now)))
        (IsFaultAtStart (protocol_form protocol.now))) }
{
    let variables = state_variables(alloc, &protocol.state)?;
    let initial = Initial {
        alloc,
        protocol,
        context: Context::at_start(alloc, protocol)?,
    };
    initial.values_of(&variables, &protocol.initial.values)
}
