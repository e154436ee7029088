//! Equations of a module.

use crate::name::Name;
use pb_bytecode_program::Op;
use pb_fixpoint::Sign;
use pb_sorts::Carrier;

/// A fixpoint equation: its predicate variable with the carriers of its parameters, and the code
/// that computes the and/or tree of the right side at an instance (Groote and Willemse 2005).
#[derive(Drop)]
pub struct Equation {
    pub sign: Sign,
    pub name: Name,
    /// Carriers of the parameters, at most `MAX_PARAMETERS`. They are the first slots.
    pub parameters: Vec<Carrier>,
    /// Carriers of the loop slots, at most `MAX_LOOP_SLOTS`, which follow the parameters.
    pub loops: Vec<Carrier>,
    /// How many steps a run takes at most, as the module states it.
    pub steps: u32,
    /// How many tokens a run writes at most, as the module states it.
    pub tokens: u32,
    /// The instructions, 1 to 65,535.
    pub code: Vec<Op>,
}
