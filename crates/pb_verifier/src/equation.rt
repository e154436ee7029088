//! The check of one equation's code: the rules by position, then the stated counts, then the pass.

ghost use Rattle.std.specs.Prelude.{◌↔◌, IsTrue, OnOk};
ghost use Rattle.pb_bytecode_program.specs.Machine.{Program};
ghost use Rattle.pb_verifier_structure.specs.Structure.{IsStructured};
ghost use Rattle.pb_verifier_structure.specs.Views.{IsProgramOf};
ghost use Rattle.pb_verifier.specs.Acceptance.{HasTable, StatesCounts};
ghost use Rattle.pb_base.specs.OrMemory.{OnRefused};
ghost use Rattle.pb_verifier.specs.Names.{program_in_module};

use crate::equation_in_module::EquationInModule;
use crate::pass::pass;
use pb_base::{MAX_STEPS, MAX_TOKENS, OrMemory};
use pb_verifier_states::AcceptanceRule;
use pb_verifier_structure::{EquationCode, PositionFault, check_structure, static_counts};
use std::alloc::Global;

// Whether the stated counts are at least the static ones and within the limits (V16).
fn are_enough(code: &EquationCode, steps: u32, tokens: u32) -> bool
    requires { (p : Program) → IsProgramOf p code.now → IsStructured p }
    ensures { (p : Program) → IsProgramOf p code.now → IsTrue result ↔ StatesCounts p steps tokens }
{
    let counts = static_counts(code);
    let enough = counts.steps <= u64::from(steps) && counts.tokens <= u64::from(tokens);
    enough && steps as usize <= MAX_STEPS && tokens as usize <= MAX_TOKENS
}

/// Checks the code of an equation.
pub(crate) fn check_equation(
    alloc: Global,
    checked: &EquationInModule<'_>,
) -> Result<(), OrMemory<PositionFault>>
    ensures accepted { OnOk result (HasTable (program_in_module checked.now)) }
    ensures refused { OnRefused result (HasTable (program_in_module checked.now) → ⊥) }
{
    let equation = checked.equation;
    let code = EquationCode {
        instructions: &equation.code,
        parameters: &equation.parameters,
        loops: &equation.loops,
        equations: checked.names.callees.equation_count(),
    };
    check_structure(alloc, &code)?;
    if !are_enough(&code, equation.steps, equation.tokens) {
        return Err(OrMemory::Refused(PositionFault {
            rule: AcceptanceRule::StatedCounts,
            place: 0,
        }));
    }
    pass(alloc, checked)
}
