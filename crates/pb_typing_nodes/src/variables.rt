//! Lists of variables: each variable gets the next slot.

ghost use Rattle.std.specs.Prelude.{◌≡◌, ◌≤◌, ◌+◌, ◌++◌, [], drop, length, IfOk, OnOk};
ghost use Rattle.std.specs.Prelude.{MatchResult, string_bytes};
ghost use Rattle.pb_text_tree.specs.Form.{variable_forms};
ghost use Rattle.pb_text_meaning.specs.Erase.{erased_variables};
ghost use Rattle.pb_text_meaning.specs.Syntax as syntax;
ghost use Rattle.pb_typing_declarations.specs.Declarations.{variables_faults};
ghost use Rattle.pb_typing_declarations.specs.Entries.{shapes_of};
ghost use Rattle.pb_typing_declarations.specs.Faults.{IsAmong};
ghost use Rattle.pb_typing_declarations.specs.Tables.{entry_of};
ghost use Rattle.pb_typing_rules.specs.Scope.{bound, outermost};
ghost use Rattle.pb_typing_tree.specs.Calls.{call_places};
ghost use Rattle.pb_typing_tree.specs.Elaboration.{unslotted, with_slots};
ghost use Rattle.pb_typing_tree.specs.Loops.{variable_shapes};
ghost use Rattle.pb_typing_tree.specs.View.{formula_view, nested};
ghost use Rattle.pb_typing_nodes.specs.Bound.{IsBound};
ghost use Rattle.pb_typing_nodes.specs.Contexts.{text_in};
ghost use Rattle.pb_typing_nodes.specs.Scopes.{named_shapes, named_slots, table_slots, table_view};
ghost use Rattle.pb_typing_nodes.specs.Scopes.{with_entry};

use crate::context::Context;
use crate::scope::Variable;
use crate::shape::carrier_shape;
use pb_sorts::Carrier;
use pb_text_tree::{Name, Quantifier, Variables};
use pb_typing_declarations::TypeError;
use pb_typing_tree::Formula;
use std::alloc::{AllocError, Global};
use std::collections::HashMap;

/// The variables of a quantifier: their table, the first's slot, and their carriers in order.
#[derive(Drop)]
pub struct Bound<'t> {
    pub table: HashMap<&'t str, Variable>,
    pub slot: usize,
    pub carriers: Vec<Carrier>,
}

/// Checks the variables of a quantifier, gives each the next slot, and adds its carrier to those of
/// the slots so far.
///
/// # Errors
/// A rule fails in the list of variables, or memory was refused.
pub fn bind_variables<'t>(
    context: &Context<'_, '_, 't>,
    carriers: &mut Vec<Carrier>,
    groups: &'t [Variables],
) -> Result<Bound<'t>, TypeError>
    ensures bound { MatchResult result
        (λ b. (variables_faults (text_in context.now) (variable_forms groups.now) ≡ [])
        × IsBound (text_in context.now) (erased_variables (variable_forms groups.now))
        carriers.old.items b)
        (IsAmong (variables_faults (text_in context.now) (variable_forms groups.now))) }
    ensures carriers { OnOk result (shapes_of carriers.new.items
        ≡ shapes_of carriers.old.items ++ variable_shapes (text_in context.now)
        (erased_variables (variable_forms groups.now))) }
{
    let own = context.declarations.check_variables(context.alloc, groups)?;
    let slot = carriers.len();
    carriers.extend_from_slice(&own)?;
    let table = declare_variables(context.alloc, groups, carriers, slot)?;
    Ok(Bound {
        table,
        slot,
        carriers: own,
    })
}

/// Gives each variable of a list the next slot from `first` on, where the carriers of all slots are
/// given: behind those of the slots before, the variables' own.
///
/// # Errors
/// Memory was refused.
pub fn declare_variables<'t>(
    alloc: Global,
    groups: &'t [Variables],
    carriers: &[Carrier],
    first: usize,
) -> Result<HashMap<&'t str, Variable>, AllocError>
    requires { length carriers.now ≡ first + length (variable_forms groups.now) }
    ensures shapes { (S : syntax.Spec) → shapes_of (drop first carriers.now)
        ≡ variable_shapes S (erased_variables (variable_forms groups.now))
        → IfOk result (λ table. table_view table
        ≡ bound S (erased_variables (variable_forms groups.now)) outermost) }
    ensures slots { IfOk result (λ table. table_slots table
        ≡ with_slots (erased_variables (variable_forms groups.now)) first unslotted) }
{
    let mut table = HashMap::new(alloc);
    let mut slot = first;
    for group in groups {
        table = declare_names(table, &group.names, carriers, slot)?;
        slot += group.names.len();
    }
    Ok(table)
}

/// Gives each name the next slot from `first` on, with the slot's carrier.
fn declare_names<'t>(
    mut table: HashMap<&'t str, Variable>,
    names: &'t [Name],
    carriers: &[Carrier],
    first: usize,
) -> Result<HashMap<&'t str, Variable>, AllocError>
    requires { first + length names.now ≤ length carriers.now }
    ensures shapes { IfOk result (λ more. table_view more
        ≡ named_shapes names.now (shapes_of (drop first carriers.now)) (table_view table.entry)) }
    ensures slots { IfOk result (λ more. table_slots more
        ≡ named_slots names.now first (table_slots table.entry)) }
{
    for (place, name) in names.iter().enumerate() {
        let slot = first + place;
        let shape = carrier_shape(carriers[slot]);
        table = with_name(table, name, Variable { slot, shape })?;
    }
    Ok(table)
}

/// A table with one more name.
fn with_name<'t, V: Copy>(
    mut table: HashMap<&'t str, V>,
    name: &'t Name,
    value: V,
) -> Result<HashMap<&'t str, V>, AllocError>
    ensures { IfOk result (λ more. (x : syntax.Name) → entry_of {V = V} more x
        ≡ with_entry (string_bytes name.now.text) value (entry_of {V = V} table.entry) x) }
{
    table.insert(name.text.as_str(), value)?;
    Ok(table)
}

/// The carriers of the slots from one on.
///
/// # Errors
/// Memory was refused.
pub fn carriers_from(
    alloc: Global,
    carriers: &[Carrier],
    first: usize,
) -> Result<Vec<Carrier>, AllocError>
    requires { first ≤ length carriers.now }
    ensures { IfOk result (λ own. own.items ≡ drop first carriers.now) }
{
    Vec::from_slice(alloc, &carriers[first..])
}

/// A quantifier over a body.
///
/// # Errors
/// Memory was refused.
pub fn quantified(
    alloc: Global,
    quantifier: Quantifier,
    bound: Bound<'_>,
    body: Formula,
) -> Result<Formula, AllocError>
    ensures view { IfOk result (λ f. formula_view f
        ≡ nested quantifier bound.entry.slot bound.entry.carriers.items (formula_view body)) }
    ensures places { IfOk result (λ f. call_places f ≡ call_places body) }
{
    Ok(Formula::Quantified {
        quantifier,
        slot: bound.slot,
        carriers: bound.carriers,
        body: Box::new(alloc, body)?,
    })
}
