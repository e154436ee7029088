//! The parameters of equations that are called.

ghost use Rattle.std.specs.Prelude.{◌≡◌};
ghost use Rattle.std.specs.List.{slice_get};
ghost use Rattle.pb_assembler_scheme.specs.Scheme.{parameters};

use pb_sorts::{Carrier, Layout};

/// The carriers of the parameters of the equation at a place, none where there is no equation.
pub fn parameters_of(layout: &Layout, equation: usize) -> &[Carrier]
    ensures { result.now ≡ parameters (slice_get layout.now equation) }
{
    if equation < layout.equation_count() {
        layout.carriers(equation)
    } else {
        &[]
    }
}
