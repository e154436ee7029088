//! Why a text has no compiled module.

use pb_base::{Fault, OrMemory};
use pb_bytecode::Limit;
use thiserror::Error;

/// `C01` to `C06`: the code of the equation at this place, counted from 0, exceeds a limit of the
/// machine.
#[derive(Clone, Copy, Debug, PartialEq, Eq, Error)]
#[error("{limit} equation {equation}")]
pub struct Excess {
    pub limit: Limit,
    pub equation: usize,
}

impl Fault for Excess {}

/// Why a text has no compiled module.
pub type CompileError = OrMemory<Excess>;
