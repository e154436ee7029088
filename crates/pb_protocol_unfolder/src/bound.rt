//! What names in sets of steps stand for: values, and never the arguments of a definition.

ghost use Rattle.std.specs.Prelude.{◌≡◌, ℕ};
ghost use Rattle.pb_text_meaning.specs.Syntax.{Spec};
ghost use Rattle.pb_protocol_unfolding.specs.PutIn as put;
ghost use Rattle.pb_protocol_unfolder_terms.specs.Scopes.{scope_of};
ghost use Rattle.pb_protocol_unfolder.specs.Parts.{HasValues, bound_term};

use pb_protocol_unfolder_terms::{TermScope, Written, last_value};

/// The value that a name stands for, if it is that of a quantifier's variable.
pub(crate) fn bound_value<'a>(scope: &TermScope<'a>, name: &str) -> Option<Written<'a>>
    requires { HasValues scope.now }
    ensures { (sorts : Spec) (forms : ℕ → put.Forms) → bound_term result
        ≡ put.term_of (scope_of sorts forms scope.now) name.now }
{
    match scope {
        TermScope::Empty | TermScope::Arguments { .. } => None,
        TermScope::Values {
            variables,
            values,
            outer,
        } => match last_value(variables, values, name) {
            Some(value) => Some(value),
            None => bound_value(outer, name),
        },
    }
}
