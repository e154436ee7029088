//! A call that is made.

use pb_text_tree::Place;

/// A call that an instance's right side makes.
#[derive(Drop)]
pub struct MadeCall {
    /// Where the call's name stands.
    pub place: Place,
    /// The values of the quantified variables around the call, outermost first.
    pub own: Vec<i64>,
    /// The called equation, by its place among the equations.
    pub equation: usize,
    /// The values of the arguments, which need not be in the parameters' carriers.
    pub values: Vec<i64>,
}
