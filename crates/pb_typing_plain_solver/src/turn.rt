//! The solver's turn at one equation.

ghost use Rattle.std.specs.Prelude.{◌<◌, length};

use pb_typing::Typed;

/// An equation of a typed text, by its place.
#[derive(Clone, Copy)]
pub(crate) struct Turn<'a> {
    pub typed: &'a Typed,
    pub equation: usize,
    pub ghost known: { equation < length typed.now.layout },
}
