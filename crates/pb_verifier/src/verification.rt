//! Verifying modules.

ghost use Rattle.std.specs.Prelude.{◌≡◌, IfErr, IfOk, OnOk, Some, ℕ, slice_get};
ghost use Rattle.pb_sorts.specs.Instance.{instance_of};
ghost use Rattle.pb_bytecode.specs.Decoded.{module_contents};
ghost use Rattle.pb_bytecode.specs.Meaning.{parameters};
ghost use Rattle.pb_bytecode.specs.declared.equation.Equation.{Equation as equation_type};
ghost use Rattle.pb_verifier.specs.Acceptance.{IsAccepted, IsInitialNumber};
ghost use Rattle.pb_verifier.specs.Programs.{program_in, HaveTables};
ghost use Rattle.pb_base.specs.OrMemory.{IfFault, OnRefused, raised};
ghost use Rattle.pb_verifier_structure.specs.Structure.{IsProgramWithinLimits};

use crate::equation::check_equation;
use crate::equation_in_module::EquationInModule;
use crate::module_tables::{enumerator_counts, layout_of};
use crate::verified::Verified;
use crate::verify_error::{CodeFault, VerifyError};
use crate::visit::Names;
use pb_base::OrMemory;
use pb_bytecode::{Equation, Initial, Module};
use pb_sorts::{Instance, Layout, Tuple};
use pb_verifier_structure::PositionFault;
use std::alloc::{AllocError, Global};

// The refusal of the code of the equation of a number.
fn in_equation(error: OrMemory<PositionFault>, number: usize) -> VerifyError
    ensures { raised (λ fault above.
        above ≡ record { rule = fault.rule; equation = number; place = fault.place }) error result }
{
    error.map(|fault| CodeFault {
        rule: fault.rule,
        equation: number,
        place: fault.place,
    })
}

// Checks the code of each equation, in order.
fn check_equations(
    alloc: Global,
    sorts: &[u8],
    callees: &Layout,
    equations: &[Equation],
) -> Result<(), VerifyError>
    requires { (k : ℕ) (e : equation_type) → slice_get equations.now k ≡ Some e
        → IsProgramWithinLimits (program_in sorts.now callees.now e) }
    ensures accepted { OnOk result (HaveTables sorts.now
        callees.now equations.now) }
    ensures refused { OnRefused result
        (HaveTables sorts.now callees.now equations.now → ⊥) }
{
    let names = Names { sorts, callees };
    for (number, equation) in equations.iter().enumerate() {
        let checked = EquationInModule { names, equation };
        match check_equation(alloc, &checked) {
            Ok(()) => {}
            Err(error) => return Err(in_equation(error, number)),
        }
    }
    Ok(())
}

// An initial instance. Up to `MAX_PARAMETERS` values take no memory.
fn initial_instance(alloc: Global, initial: &Initial) -> Result<Instance, AllocError>
    ensures { IfOk result (λ instance. instance_of instance ≡ record {
      equation = initial.now.equation;
      values = initial.now.values.items;
    }) }
{
    Ok(Instance {
        equation: initial.equation,
        values: Tuple::from_slice(alloc, &initial.values)?,
    })
}

// Checks a module whose instances have this layout, and gives the number of the initial one.
fn check(alloc: Global, module: &Module, layout: &Layout) -> Result<u64, VerifyError>
    requires { layout.now ≡ parameters (module_contents «module».now) }
    ensures accepted { OnOk result (IsAccepted (module_contents «module».now)) }
    ensures initial { IfOk result (IsInitialNumber (module_contents «module».now)) }
    ensures refused { OnRefused result (IsAccepted (module_contents «module».now) → ⊥) }
{
    let sorts = enumerator_counts(alloc, &module.sorts)?;
    check_equations(alloc, &sorts, layout, &module.equations)?;
    let instance = initial_instance(alloc, &module.initial)?;
    match layout.number(&instance) {
        Some(number) => Ok(number),
        None => unreachable!(),
    }
}

/// Verifies a module whose instances have this layout, which is the one that is kept: whoever made
/// the module of a text has it.
///
/// # Errors
/// As with `verify`.
pub fn verify_laid_out(
    alloc: Global,
    module: Module,
    layout: Layout,
) -> Result<Verified, (Module, VerifyError)>
    requires { layout ≡ parameters (module_contents «module») }
    ensures same { IfOk result (λ verified. verified ≡ module_contents «module») }
    ensures accepted { OnOk result (IsAccepted (module_contents «module»)) }
    ensures handed_back { IfErr result (λ refusal. refusal.0 ≡ «module») }
    ensures refused { IfErr result (λ refusal. IfFault refusal.1
        (λ _. IsAccepted (module_contents «module») → ⊥)) }
{
    match check(alloc, &module, &layout) {
        Ok(initial) => Ok(Verified::new(module, layout, initial)),
        Err(error) => Err((module, error)),
    }
}

/// Verifies a module: it is accepted where the code of each equation keeps the rules by position,
/// states counts that are at least the static ones and at most `MAX_STEPS` and `MAX_TOKENS`, and
/// has a table of abstract states with which each instruction agrees (bytecode verification,
/// Lindholm and Yellin 1996).
///
/// # Errors
/// The module is handed back with the reason. `Refused` names a rule that is broken, and where:
/// equations are checked in order, and of each one first how its loops nest, then names and
/// targets, then the stated counts, and then the instructions that are reached, from the first
/// place to the last. No module that is accepted is refused. `Memory` where memory is refused.
pub fn verify(alloc: Global, module: Module) -> Result<Verified, (Module, VerifyError)>
    // The verified module is the one that was given.
    ensures same { IfOk result (λ verified. verified ≡ module_contents «module») }
    // What is not refused is accepted.
    ensures accepted { OnOk result (IsAccepted (module_contents «module»)) }
    // A refused module is handed back as it was.
    ensures handed_back { IfErr result (λ refusal. refusal.0 ≡ «module») }
    // What is accepted is refused for want of memory alone.
    ensures refused { IfErr result (λ refusal. IfFault refusal.1
        (λ _. IsAccepted (module_contents «module») → ⊥)) }
{
    match layout_of(alloc, &module) {
        Ok(layout) => verify_laid_out(alloc, module, layout),
        Err(error) => Err((module, error.into())),
    }
}
