//! Why no state flows on from an instruction.

use crate::rule::AcceptanceRule;
use pb_base::{Fault, OrMemory};

impl Fault for AcceptanceRule {}

/// Why no state flows on from an instruction: it breaks this rule, or memory is refused.
pub type FlowError = OrMemory<AcceptanceRule>;
