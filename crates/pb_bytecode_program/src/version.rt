//! Versions of the module format.

/// The version of the module format that code is written in. Version 2 has the instruction
/// `Op::SlotInRange`, which version 1 lacks.
#[derive(Clone, Copy, PartialEq, Eq)]
pub enum Version {
    One,
    Two,
}
