//! What flows from the instructions on operands.

ghost use Rattle.std.specs.Prelude.{◌≡◌, ◌&&◌, IfErr, OnErr, OnOk, int_lt, pos};
ghost use Rattle.pb_verifier_flow.specs.Flows.{Fails, GoesOn};
ghost use Rattle.pb_verifier_states.specs.NamedRule.{IsNamed};
ghost use Rattle.pb_base.specs.OrMemory.{IfRefused, OnRefused};
ghost use Rattle.pb_bytecode_program.specs.Values.{has_divisor};
ghost use Rattle.pb_bytecode_program.specs.declared.instruction.Op.TheVariants as op;

use crate::interval::{absolute_values, negatives, results};
use pb_base_values::Interval;
use pb_bytecode_program::{AbstractValue, Arithmetic, Comparison, Equality, Junction};
use pb_verifier_states::flow_error::FlowError;
use pb_verifier_states::rule::AcceptanceRule;
use pb_verifier_states::state::AbstractState;
use pb_verifier_states::value::{are_of_one_kind, numbers};

pub(crate) fn pop(state: &mut AbstractState) -> Result<(), AcceptanceRule>
    ensures flows { OnOk result (GoesOn op.Pop state.old state.new) }
    ensures err { OnErr result (Fails op.Pop state.old) }
    ensures rule { IfErr result (IsNamed op.Pop state.old) }
{
    state.pop()?;
    Ok(())
}

/// An operator on two numbers, whose result is within 64 bits (V04).
pub(crate) fn arithmetic(state: &mut AbstractState, operator: Arithmetic) -> Result<(), FlowError>
    ensures flows { OnOk result (GoesOn (op.Arithmetic operator) state.old state.new) }
    ensures refused { OnRefused result (Fails (op.Arithmetic operator) state.old) }
    ensures rule { IfRefused result (IsNamed (op.Arithmetic operator) state.old) }
{
    state.test_operands(2)?;
    let b = state.pop_int()?;
    let a = state.pop_int()?;
    if may_be_no_divisor(operator, b) {
        return Err(FlowError::Refused(AcceptanceRule::Divisor));
    }
    let Some(interval) = results(operator, a, b) else {
        return Err(FlowError::Refused(AcceptanceRule::Overflow));
    };
    state.push(numbers(interval))?;
    Ok(())
}

// Whether the second operand is a divisor that may be below 1 (V03).
fn may_be_no_divisor(operator: Arithmetic, b: Interval) -> bool
    ensures { result ≡ (has_divisor operator && int_lt b.low (pos 1)) }
{
    matches!(operator, Arithmetic::Div | Arithmetic::Mod) && b.low() < 1
}

/// The negative of a number.
pub(crate) fn negate(state: &mut AbstractState) -> Result<(), FlowError>
    ensures flows { OnOk result (GoesOn op.Negate state.old state.new) }
    ensures refused { OnRefused result (Fails op.Negate state.old) }
    ensures rule { IfRefused result (IsNamed op.Negate state.old) }
{
    let a = state.pop_int()?;
    let Some(interval) = negatives(a) else {
        return Err(FlowError::Refused(AcceptanceRule::Overflow));
    };
    state.push(numbers(interval))?;
    Ok(())
}

/// The absolute value of a number.
pub(crate) fn absolute(state: &mut AbstractState) -> Result<(), FlowError>
    ensures flows { OnOk result (GoesOn op.Absolute state.old state.new) }
    ensures refused { OnRefused result (Fails op.Absolute state.old) }
    ensures rule { IfRefused result (IsNamed op.Absolute state.old) }
{
    let a = state.pop_int()?;
    let Some(interval) = absolute_values(a) else {
        return Err(FlowError::Refused(AcceptanceRule::Overflow));
    };
    state.push(numbers(interval))?;
    Ok(())
}

/// Whether two numbers stand in an order.
pub(crate) fn compare(state: &mut AbstractState, order: Comparison) -> Result<(), FlowError>
    ensures flows { OnOk result (GoesOn (op.Compare order) state.old state.new) }
    ensures refused { OnRefused result (Fails (op.Compare order) state.old) }
    ensures rule { IfRefused result (IsNamed (op.Compare order) state.old) }
{
    state.test_operands(2)?;
    state.pop_int()?;
    state.pop_int()?;
    state.push(AbstractValue::Bool)?;
    Ok(())
}

/// Whether two values of one kind are equal, or different.
pub(crate) fn equality(state: &mut AbstractState, wanted: Equality) -> Result<(), FlowError>
    ensures flows { OnOk result (GoesOn (op.Equality wanted) state.old state.new) }
    ensures refused { OnRefused result (Fails (op.Equality wanted) state.old) }
    ensures rule { IfRefused result (IsNamed (op.Equality wanted) state.old) }
{
    let b = state.pop()?;
    let a = state.pop()?;
    if !are_of_one_kind(a, b) {
        return Err(FlowError::Refused(AcceptanceRule::WrongKind));
    }
    state.push(AbstractValue::Bool)?;
    Ok(())
}

/// The negation of a truth value: what is known stays the same.
pub(crate) fn negation(state: &AbstractState) -> Result<(), FlowError>
    ensures flows { OnOk result (GoesOn op.Not state.now state.now) }
    ensures refused { OnRefused result (Fails op.Not state.now) }
    ensures rule { IfRefused result (IsNamed op.Not state.now) }
{
    state.test_bool()?;
    Ok(())
}

/// A conjunction or a disjunction of two truth values.
pub(crate) fn logic(state: &mut AbstractState, connective: Junction) -> Result<(), FlowError>
    ensures flows { OnOk result (GoesOn (op.Logic connective) state.old state.new) }
    ensures refused { OnRefused result (Fails (op.Logic connective) state.old) }
    ensures rule { IfRefused result (IsNamed (op.Logic connective) state.old) }
{
    state.test_operands(2)?;
    state.pop_bool()?;
    state.test_bool()?;
    Ok(())
}
