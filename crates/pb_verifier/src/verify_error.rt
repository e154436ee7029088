//! Why a module is refused.

use pb_base::{Fault, OrMemory};
use pb_verifier_states::AcceptanceRule;
use std::fmt;

/// `V01` to `V16`: the rule that is broken, by the instruction at a place of an equation's code.
/// Equations and places count from 0. The stated counts (`V16`) are those of the equation, and are
/// named at place 0. It shows as `V03 equation 0 place 2`.
#[derive(Clone, Copy, Debug, PartialEq, Eq)]
pub struct CodeFault {
    pub rule: AcceptanceRule,
    pub equation: usize,
    pub place: usize,
}

impl Fault for CodeFault {}

/// Why a module is refused: its code breaks a rule, or memory was refused.
pub type VerifyError = OrMemory<CodeFault>;

impl fmt::Display for CodeFault {
    ghost use Rattle.std.specs.Prelude.{Some};
    ghost use Rattle.pb_verifier.specs.FaultText.{code_fault_text};

    ghost output = { λ fault. Some (code_fault_text fault) };

    fn fmt<W: fmt::Write>(&self, f: &mut fmt::Formatter<W>) -> fmt::Result {
        let CodeFault {
            rule,
            equation,
            place,
        } = self;
        write!(f, "{} equation {equation} place {place}", rule.number())
    }
}
