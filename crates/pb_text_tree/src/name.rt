//! Names as they are read.

ghost use Rattle.std.specs.Prelude.{◌≡◌, string_bytes, true};
ghost use Rattle.pb_base.specs.Names.{is_spelled};

use crate::place::Place;

/// A name, where it stands: a letter or `_`, then letters, digits, `_` and `'`.
#[derive(Drop)]
pub struct Name {
    pub place: Place,
    pub text: String,
    pub ghost spelled: { is_spelled (string_bytes text) ≡ true },
}
