//! Names that a text or a word has, before a tree owns them.

ghost use Rattle.std.specs.Prelude.{◌≡◌, true};
ghost use Rattle.pb_base.specs.Names.{is_spelled};

use pb_text_tree::Place;

/// A name that stands at a place, and is spelled as names are.
#[derive(Clone, Copy)]
pub struct NameRef<'a> {
    pub place: Place,
    pub text: &'a str,
    pub ghost spelled: { is_spelled text.now ≡ true },
}
