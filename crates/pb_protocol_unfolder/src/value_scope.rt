//! What names stand for in formulas and sets of steps: values, and never the arguments of a
//! definition.

ghost use Rattle.std.specs.Prelude.{◌≡◌, true};
ghost use Rattle.pb_protocol_unfolder.specs.ValueScopes.{has_values};

use pb_protocol_unfolder_terms::TermScope;

/// What names stand for, where that is values alone.
#[derive(Clone, Copy)]
pub(crate) struct ValueScope<'a> {
    pub names: TermScope<'a>,
    ghost values: { has_values names ≡ true },
}
