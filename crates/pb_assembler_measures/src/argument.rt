//! Which arguments are tested for the ranges of their parameters.

ghost use Rattle.std.specs.Prelude.{◌≡◌, ◌&&◌, map, option_map, Option};
ghost use Rattle.std.specs.List.{slice_get};
ghost use Rattle.pb_typing_tree.specs.View.{argument_view, shape_view};
ghost use Rattle.pb_assembler_scheme.specs.Scheme.{any_tested, tested_range};
ghost use Rattle.pb_assembler_measures.specs.MeasureFormulas.{is_tested};

use pb_sorts::{Carrier, Range};
use pb_typing_tree::{Argument, Shape};

/// The range that an argument is tested for: its parameter's, unless all that is known of the
/// argument lies within.
pub fn tested_range(carrier: Carrier, shape: Shape) -> Option<Range>
    ensures { option_map (λ r. (r.low, r.high)) result ≡ tested_range carrier (shape_view shape) }
{
    match (carrier, shape) {
        (Carrier::Range(range), Shape::Wholes(known)) => {
            let low = i64::from(range.low);
            let high = i64::from(range.high);
            if low <= known.low() && known.high() <= high {
                None
            } else {
                Some(range)
            }
        }
        _ => None,
    }
}

pub(crate) fn is_tested(carriers: &[Carrier], place: usize, argument: &Argument) -> bool
    ensures { result ≡ is_tested (slice_get carriers.now place) (argument_view argument.now).shape }
{
    match carriers.get(place) {
        Some(carrier) => tested_range(*carrier, argument.shape).is_some(),
        None => false,
    }
}

/// Whether one of the arguments for these parameters is tested.
pub fn any_tested(carriers: &[Carrier], arguments: &[Argument]) -> bool
    ensures { result ≡ any_tested carriers.now (map argument_view arguments.now) }
{
    let Some((carrier, carriers)) = carriers.split_first() else {
        return false;
    };
    let Some((argument, arguments)) = arguments.split_first() else {
        return false;
    };
    tested_range(*carrier, argument.shape).is_some() || any_tested(carriers, arguments)
}
