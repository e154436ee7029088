//! A call that is looked for.

ghost use Rattle.std.specs.Prelude.{◌≡◌, []};

use pb_sorts::Instance;
use pb_text_tree::Place;
use pb_typing_values::Environment;

/// A call at a place that names an instance. Tests are evaluated where nothing holds.
#[derive(Clone, Copy)]
pub(crate) struct Sought<'a> {
    pub place: Place,
    pub called: &'a Instance,
    pub environment: Environment<'a>,
    pub ghost nothing_holds: { environment.truths.now ≡ [] },
}
