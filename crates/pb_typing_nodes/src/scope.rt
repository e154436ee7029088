//! The variables in scope.

ghost use Rattle.std.specs.Prelude.{◌≡◌};
ghost use Rattle.std.specs.Option.{option_map};
ghost use Rattle.pb_typing_tree.specs.View.{shape_view};
ghost use Rattle.pb_typing_nodes.specs.Scopes.{scope_view, slotting};

use pb_typing_tree::Shape;
use std::collections::HashMap;

/// A variable: its slot, and what is known of its values.
#[derive(Clone, Copy)]
pub struct Variable {
    pub slot: usize,
    pub shape: Shape,
}

/// The variables in scope, one table for each list of variables, the innermost outside: an inner
/// variable hides an outer one of its name.
#[derive(Clone, Copy)]
pub enum Scope<'a, 't> {
    Outermost,
    Inner(&'a HashMap<&'t str, Variable>, &'a Scope<'a, 't>),
}

/// A variable, if one of this name is in scope.
pub(crate) fn find_variable(scope: &Scope<'_, '_>, name: &str) -> Option<Variable>
    ensures shape { option_map (λ variable. shape_view variable.shape) result
        ≡ scope_view scope.now name.now }
    ensures slot { option_map (λ variable. variable.slot) result ≡ slotting scope.now name.now }
{
    match scope {
        Scope::Outermost => None,
        Scope::Inner(table, outer) => match table.get(name) {
            Some(variable) => Some(*variable),
            None => find_variable(outer, name),
        },
    }
}
