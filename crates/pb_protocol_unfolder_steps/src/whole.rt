//! Which steps of a protocol stay whole.

ghost use Rattle.std.specs.Prelude.{◌≡◌, ◌++◌, nat_lt, length, map, IfOk, OnOk};
ghost use Rattle.pb_protocol_tree.specs.Form.{protocol_form, step_form};
ghost use Rattle.pb_protocol_meaning.specs.Erase.{erased_step, protocol_of};
ghost use Rattle.pb_protocol_unfolding.specs.Unfolding as definitions;
ghost use Rattle.pb_protocol_unfolder_terms.specs.View.{spec_of};
ghost use Rattle.pb_protocol_whole_steps.specs.View.{name_bytes};
ghost use Rattle.pb_protocol_unfolder_steps.specs.WholeSteps.{declared_names, enumerator_names};
ghost use Rattle.pb_protocol_unfolder_steps.specs.WholeSteps.{IsCount, names_declared};
ghost use Rattle.pb_protocol_unfolder_steps.specs.WholeSteps.{tuples_of_step, tuples_of_steps};
ghost use Rattle.pb_protocol_unfolder_steps.specs.Written.{AreElementsOf};

use crate::element::{Element, element_names};
use crate::limits::MAX_WRITTEN_STEPS;
use crate::sorts::sorts_of;
use crate::tuples::all_tuples;
use pb_base::OrMemory;
use pb_protocol_tree::{Protocol, Step};
use pb_protocol_unfolder_terms::Sorts;
use pb_protocol_whole_steps::{stays_whole, valued_names};
use pb_text_tree::{Enumerator, Name, Sort, SortDeclaration, copy_name};
use std::alloc::{AllocError, Global};
use std::marker::Model;

/// A protocol, with the names that own variables of steps that stay whole may not have, and those
/// of the steps that are named by values. Contracts see the protocol.
#[derive(Drop)]
pub struct WholeSteps<'a> {
    alloc: Global,
    protocol: &'a Protocol,
    /// Whether there are too many steps with all their values: else none stays whole.
    many: bool,
    others: Vec<Name>,
    valued: Vec<&'a Name>,
}

impl<'a> Model for WholeSteps<'a> {
    ghost use Rattle.pb_protocol_tree.specs.declared.protocol.Protocol.{Protocol};
    ghost use Rattle.pb_protocol_tree.specs.contracts.protocol.Protocol.{the_row};
    ghost use Rattle.pb_protocol_meaning.specs.Erase.{protocol_of};
    ghost use Rattle.pb_protocol_unfolder_steps.specs.WholeSteps.{IsToldOf};

    ghost Value = { Protocol };

    ghost coded = { the_row.coded };

    ghost view = { λ whole. whole.protocol.now };

    ghost invariant = { λ whole. IsToldOf (protocol_of whole.protocol.now) whole.many
        whole.others.items whole.valued.items };
}

/// Adds the names of enumerators.
fn push_enumerators(
    names: &mut Vec<Name>,
    enumerators: &[Enumerator],
    alloc: Global,
) -> Result<(), AllocError>
    ensures { OnOk result (map name_bytes names.new.items
        ≡ map name_bytes names.old.items ++ enumerator_names enumerators.now) }
{
    for enumerator in enumerators {
        names.push(copy_name(alloc, &enumerator.name)?)?;
    }
    Ok(())
}

/// Adds the names of the enumerators of a sort.
fn push_declared(
    names: &mut Vec<Name>,
    declaration: &SortDeclaration,
    alloc: Global,
) -> Result<(), AllocError>
    ensures { OnOk result (map name_bytes names.new.items
        ≡ map name_bytes names.old.items ++ declared_names declaration.now) }
{
    match &declaration.sort {
        Sort::Struct(enumerators) => push_enumerators(names, enumerators, alloc),
        Sort::Alias(_) => Ok(()),
    }
}

/// Adds the names of the enumerators of all sorts.
fn push_all_declared(
    names: &mut Vec<Name>,
    declarations: &[SortDeclaration],
    alloc: Global,
) -> Result<(), AllocError>
    ensures { OnOk result (map name_bytes names.new.items
        ≡ map name_bytes names.old.items ++ names_declared declarations.now) }
{
    for declaration in declarations {
        push_declared(names, declaration, alloc)?;
    }
    Ok(())
}

/// How many tuples of values a step's own variables have, unless there are more than there may be
/// steps.
fn tuple_count(alloc: Global, sorts: Sorts<'_>, step: &Step) -> Result<Option<usize>, AllocError>
    ensures { IfOk result (IsCount (length (tuples_of_step (spec_of sorts.entry) step.now))) }
{
    match all_tuples(alloc, sorts, &step.variables, step.name.place) {
        Ok(tuples) => {
            if tuples.len() > MAX_WRITTEN_STEPS {
                return Ok(None);
            }
            Ok(Some(tuples.len()))
        }
        Err(OrMemory::Refused(_)) => Ok(None),
        Err(OrMemory::Memory) => Err(AllocError),
    }
}

/// Whether there are too many steps with all their values.
fn are_many(alloc: Global, sorts: Sorts<'_>, steps: &[Step]) -> Result<bool, AllocError>
    ensures { IfOk result (λ b. b ≡ nat_lt definitions.most_written
        (length (tuples_of_steps (spec_of sorts.entry) steps.now))) }
{
    let mut count = 0;
    for step in steps {
        let Some(more) = tuple_count(alloc, sorts, step)? else {
            return Ok(true);
        };
        count += more;
        if count > MAX_WRITTEN_STEPS {
            return Ok(true);
        }
    }
    Ok(false)
}

impl<'a> WholeSteps<'a> {
    /// Which steps of a protocol with these elements stay whole.
    ///
    /// # Errors
    /// Memory was refused.
    pub fn among(
        alloc: Global,
        protocol: &'a Protocol,
        elements: &[Element<'_>],
    ) -> Result<WholeSteps<'a>, AllocError>
        requires { AreElementsOf (protocol_form protocol.now) elements.now }
        ensures { IfOk result (λ whole. whole ≡ protocol.now) }
    {
        let many = are_many(alloc, sorts_of(protocol), &protocol.steps)?;
        let mut others = element_names(alloc, elements)?;
        push_all_declared(&mut others, &protocol.sorts, alloc)?;
        let valued = valued_names(alloc, protocol)?;
        Ok(WholeSteps {
            alloc,
            protocol,
            many,
            others,
            valued,
        })
    }

    /// Where memory comes from.
    pub(crate) fn alloc(&self) -> Global {
        self.alloc
    }

    /// The protocol.
    pub(crate) fn protocol(&self) -> &'a Protocol
        ensures { result.now ≡ self.now }
    {
        self.protocol
    }

    /// Whether a step stays whole.
    ///
    /// # Errors
    /// Memory was refused.
    pub fn has(&self, step: &Step) -> Result<bool, AllocError>
        ensures { IfOk result (λ b. b
            ≡ definitions.is_whole (protocol_of self.now) (erased_step (step_form step.now))) }
    {
        if !self.many {
            return Ok(false);
        }
        stays_whole(self.alloc, &self.others, &self.valued, step)
    }
}
