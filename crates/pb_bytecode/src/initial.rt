//! The instance that a module asks for.

/// An equation, by its place, and a value for each of its parameters: of `Bool` 0 or 1, of an
/// enumeration the enumerator's place, of a range the number itself.
#[derive(Drop)]
pub struct Initial {
    pub equation: u8,
    pub values: Vec<i64>,
}
