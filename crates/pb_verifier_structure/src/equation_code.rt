//! The part of an equation that the rules by position read.

use pb_bytecode_program::Op;
use pb_sorts::Carrier;

/// The code of one equation, with what its instructions may name. A crate above has these as parts
/// of a module.
#[derive(Clone, Copy)]
pub struct EquationCode<'a> {
    /// The instructions, by place.
    pub instructions: &'a [Op],
    /// The carriers of the parameters, which are the first slots.
    pub parameters: &'a [Carrier],
    /// The carriers of the loop slots, which follow the parameters.
    pub loops: &'a [Carrier],
    /// How many equations the system has.
    pub equations: usize,
}
