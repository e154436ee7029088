//! What a text declares: the check of its declarations, and look-ups by name.

ghost use Rattle.std.specs.Prelude.{◌≡◌, [], MatchOption, MatchResult, IfOk, map};
ghost use Rattle.std.specs.Option.{option_map};
ghost use Rattle.pb_sorts.specs.Carrier.{values_of};
ghost use Rattle.pb_sorts.specs.Counting.{instance_limit};
ghost use Rattle.pb_sorts.specs.Layout as layouts;
ghost use Rattle.pb_sorts.specs.Layout.{lists_of};
ghost use Rattle.pb_text_tree.specs.Form.{spec_form, variable_forms};
ghost use Rattle.pb_text_meaning.specs.Syntax.{same_name, Equation};
ghost use Rattle.pb_text_meaning.specs.Sorts.{carrier_of, is_recogniser, place_in};
ghost use Rattle.pb_text_meaning.specs.Erase.{erase, erased_variables};
ghost use Rattle.pb_text_meaning.specs.Formula.{carriers_of};
ghost use Rattle.pb_typing_declarations.specs.Faults.{IsAmong};
ghost use Rattle.pb_typing_declarations.specs.Shapes.{sort_shape, variable_shapes};
ghost use Rattle.pb_typing_declarations.specs.Enumerators.{enumerator_of, recogniser_of};
ghost use Rattle.pb_typing_declarations.specs.Entries.{carrier_shape, shapes_of};
ghost use Rattle.pb_typing_declarations.specs.Agreement.{equation_place};
ghost use Rattle.pb_typing_declarations.specs.Reading.{HasCarriers};
ghost use Rattle.pb_typing_declarations.specs.Declarations.{variables_faults, declaration_faults};

use crate::definition::{as_enumerator, as_recogniser};
use crate::fault::TypeError;
use crate::sorts::Enumerator;
use crate::tables::Tables;
use crate::variables::variable_entries;
use pb_sorts::{Carrier, Counting, Layout};
use pb_text_tree::{Spec, Variables};
use std::alloc::{AllocError, Global};

/// What a text declares, where each declaration is as it must be. Its look-ups take no memory.
#[derive(Drop)]
pub struct Declarations<'a> {
    tables: Tables<'a>,
    /// The carriers of each equation's parameters.
    carriers: Vec<Vec<Carrier>>,
    /// Which instances count.
    counting: Counting,
    pub ghost faultless: { declaration_faults (instance_limit counting)
        (spec_form tables.spec.now) ≡ [] },
    pub ghost carried: { HasCarriers (instance_limit counting)
        (erase (spec_form tables.spec.now)) 0 (spec_form tables.spec.now).equations
        (lists_of carriers.items) },
}

impl<'a> Declarations<'a> {
    ghost use Rattle.pb_typing_declarations.specs.View.{limit_of, text_of, spec_of};

    /// What a text declares, by which instances count.
    ///
    /// # Errors
    /// A fault of the declarations exactly where there is one; where several rules fail, any one of
    /// them. `TypeError::Memory` comes only where memory was refused.
    pub fn read(
        alloc: Global,
        spec: &'a Spec,
        counting: Counting,
    ) -> Result<Declarations<'a>, TypeError>
        ensures text { IfOk result (λ declarations. text_of declarations ≡ spec_form spec.now) }
        ensures limit { IfOk result (λ declarations. limit_of declarations
            ≡ instance_limit counting) }
        ensures checked { MatchResult result
            (λ _. declaration_faults (instance_limit counting) (spec_form spec.now) ≡ [])
            (IsAmong (declaration_faults (instance_limit counting) (spec_form spec.now))) }
    {
        let tables = Tables::read(alloc, spec)?;
        let carriers = tables.check(alloc, counting)?;
        Ok(Declarations {
            tables,
            carriers,
            counting,
        })
    }

    /// The carrier of a sort; none where no such sort has values.
    pub fn carrier(&self, sort: &str) -> Option<Carrier>
        ensures shape { carrier_shape result ≡ sort_shape (spec_of self.now) sort.now }
        ensures values { MatchOption result
            (carrier_of (spec_of self.now) sort.now ≡ [])
            (λ carrier. values_of carrier ≡ carrier_of (spec_of self.now) sort.now) }
    {
        self.tables.end(sort).carrier()
    }

    /// The enumerator of this name.
    pub fn enumerator(&self, name: &str) -> Option<Enumerator>
        ensures entry { result ≡ enumerator_of (spec_of self.now) name.now }
        ensures place { option_map (λ e. e.place) result
            ≡ place_in (λ e. same_name e.name name.now) (spec_of self.now).sorts }
    {
        as_enumerator(self.tables.data_name(name))
    }

    /// The enumerator whose recogniser has this name.
    pub fn recogniser(&self, name: &str) -> Option<Enumerator>
        ensures entry { result ≡ recogniser_of (spec_of self.now) name.now }
        ensures place { option_map (λ e. e.place) result
            ≡ place_in (λ e. is_recogniser name.now e.recogniser) (spec_of self.now).sorts }
    {
        as_recogniser(self.tables.data_name(name))
    }

    /// The place of the equation with this name.
    pub fn equation(&self, name: &str) -> Option<usize>
        ensures { result ≡ equation_place (spec_of self.now) name.now }
    {
        self.tables.equation(name)
    }

    /// Checks one list of variables, a quantifier's or an equation's parameters: no name stands
    /// twice, and each sort has values. Hands out the carriers of their sorts, in order.
    ///
    /// # Errors
    /// A fault of the list exactly where there is one; where several rules fail, any one of them.
    /// `TypeError::Memory` comes only where memory was refused.
    pub fn check_variables(
        &self,
        alloc: Global,
        groups: &[Variables],
    ) -> Result<Vec<Carrier>, TypeError>
        ensures checked { MatchResult result
            (λ _. variables_faults (spec_of self.now) (variable_forms groups.now) ≡ [])
            (IsAmong (variables_faults (spec_of self.now) (variable_forms groups.now))) }
        ensures shapes { IfOk result (λ carriers. shapes_of carriers.items
            ≡ variable_shapes (spec_of self.now) (erased_variables (variable_forms groups.now))) }
    {
        let variables = variable_entries(alloc, groups)?;
        self.tables.variable_carriers(alloc, &variables)
    }

    /// The layout of the equations' instances, each parameter with its sort's carrier: the
    /// Booleans, a struct by its number, or a range.
    pub fn layout(&self, alloc: Global) -> Result<Layout, AllocError>
        ensures carriers { IfOk result (λ layout. layouts.carriers_of layout
            ≡ map (λ (X : Equation). carriers_of (spec_of self.now) X.parameters)
            (spec_of self.now).equations) }
        ensures shapes { IfOk result (λ layout. map shapes_of layout
            ≡ map (λ (X : Equation). variable_shapes (spec_of self.now) X.parameters)
            (spec_of self.now).equations) }
    {
        match Layout::counting(alloc, &self.carriers, self.counting) {
            Ok(layout) => Ok(layout),
            Err(error) => Err(error.only_memory()),
        }
    }
}
