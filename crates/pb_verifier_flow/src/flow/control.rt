//! What flows from pushes and jumps.

ghost use Rattle.std.specs.Prelude.{◌≡◌, ◌≤ℤ◌, IfOk, List, None, OnOk, Option, Some, slice_get};
ghost use Rattle.std.specs.Prelude.{ℕ};
ghost use Rattle.pb_verifier_flow.specs.Flows.{Fails, FlowsTo, GoesOn};
ghost use Rattle.pb_verifier_states.specs.NamedRule.{IsNamed, named_rule};
ghost use Rattle.pb_sorts.specs.declared.carrier.Carrier.{Carrier as carrier_type};
ghost use Rattle.pb_base.specs.OrMemory.{IfRefused, OnRefused};
ghost use Rattle.pb_bytecode_program.specs.Machine.{Program};
ghost use Rattle.pb_bytecode_program.specs.Transfer.{AbstractState as Known, to_next_place};
ghost use Rattle.pb_bytecode_program.specs.Transfer.{transfer};
ghost use Rattle.pb_bytecode_program.specs.declared.instruction.Op.TheVariants as op;

use crate::edges::Edges;
use pb_base_values::Interval;
use pb_bytecode_program::AbstractValue;
use pb_verifier_states::flow_error::FlowError;
use pb_verifier_states::rule::AcceptanceRule;
use pb_verifier_states::state::AbstractState;
use std::alloc::Global;

/// Pushes an enumerator of one of the sorts, of which `sorts` has the counts of enumerators.
pub(crate) fn push_enum(
    state: &mut AbstractState,
    sorts: &[u8],
    sort: u8,
    index: u8,
) -> Result<(), FlowError>
    ensures flows { OnOk result ((p : Program) (home : Option Known) (q : ℕ)
        → p.sorts ≡ sorts.now → transfer p home q (op.PushEnum sort index) state.old
        ≡ to_next_place q state.new) }
    ensures refused { OnRefused result ((p : Program) (home : Option Known) (q : ℕ)
        → p.sorts ≡ sorts.now → transfer p home q (op.PushEnum sort index) state.old ≡ None) }
    ensures rule { IfRefused result (λ rule. (callees : List (List carrier_type))
        → rule ≡ named_rule sorts.now callees (op.PushEnum sort index) state.old) }
{
    let Some(count) = enumerators(sorts, sort) else {
        return Err(FlowError::Refused(AcceptanceRule::UnknownName));
    };
    if index >= count {
        return Err(FlowError::Refused(AcceptanceRule::UnknownName));
    }
    state.push(AbstractValue::Enum { sort, count })
}

// How many enumerators a sort has; a function of its own for the prover alone.
fn enumerators(sorts: &[u8], sort: u8) -> Option<u8>
    ensures { result ≡ slice_get sorts.now sort }
{
    sorts.get(usize::from(sort)).copied()
}

/// Pushes a slot's value.
pub(crate) fn get(state: &mut AbstractState, slot: u8) -> Result<(), FlowError>
    ensures flows { OnOk result (GoesOn (op.Get slot) state.old state.new) }
    ensures refused { OnRefused result (Fails (op.Get slot) state.old) }
    ensures rule { IfRefused result (IsNamed (op.Get slot) state.old) }
{
    let Some(value) = state.slot(slot) else {
        return Err(FlowError::Refused(AcceptanceRule::UnknownName));
    };
    state.push(value)
}

/// Jumps where a truth value is the condition.
pub(crate) fn jump_if(
    mut state: AbstractState,
    alloc: Global,
    condition: bool,
    target: u16,
) -> Result<Edges, FlowError>
    ensures flows { IfOk result (λ e. FlowsTo (op.JumpIf condition target) state e.next e.jump) }
    ensures refused { OnRefused result (Fails (op.JumpIf condition target) state) }
    ensures rule { IfRefused result (IsNamed (op.JumpIf condition target) state) }
{
    state.pop_bool()?;
    let jump = state.copy(alloc)?;
    Ok(Edges {
        next: Some(state),
        jump: Some((usize::from(target), jump)),
    })
}

/// Goes on where the number on top is one of the range, and else jumps. A way that its interval
/// excludes is not taken.
pub(crate) fn in_range(
    mut state: AbstractState,
    alloc: Global,
    range: Interval,
    target: u16,
) -> Result<Edges, FlowError>
    requires { range.low ≤ℤ range.high }
    ensures flows { IfOk result (λ e. FlowsTo
        (op.InRange range.low range.high target) state e.next e.jump) }
    ensures refused { OnRefused result (Fails (op.InRange range.low range.high target) state) }
    ensures rule { IfRefused result (IsNamed (op.InRange range.low range.high target) state) }
{
    let interval = state.top_int()?;
    let Some(inside) = interval.cut(range) else {
        return Ok(Edges::jump(target, state));
    };
    if interval.is_within(range) {
        state.narrow_top(inside);
        return Ok(Edges::next(state));
    }
    let jump = state.copy(alloc)?;
    state.narrow_top(inside);
    Ok(Edges {
        next: Some(state),
        jump: Some((usize::from(target), jump)),
    })
}

/// Goes on where the number in the slot is one of the range, and else jumps. A way that its
/// interval excludes is not taken.
pub(crate) fn slot_in_range(
    mut state: AbstractState,
    alloc: Global,
    slot: u8,
    range: Interval,
    target: u16,
) -> Result<Edges, FlowError>
    requires { range.low ≤ℤ range.high }
    ensures flows { IfOk result (λ e. FlowsTo
        (op.SlotInRange slot range.low range.high target) state e.next e.jump) }
    ensures refused { OnRefused result
        (Fails (op.SlotInRange slot range.low range.high target) state) }
    ensures rule { IfRefused result
        (IsNamed (op.SlotInRange slot range.low range.high target) state) }
{
    let interval = state.slot_int(slot)?;
    let Some(inside) = interval.cut(range) else {
        return Ok(Edges::jump(target, state));
    };
    if interval.is_within(range) {
        state.narrow_slot(slot, inside);
        return Ok(Edges::next(state));
    }
    let jump = state.copy(alloc)?;
    state.narrow_slot(slot, inside);
    Ok(Edges {
        next: Some(state),
        jump: Some((usize::from(target), jump)),
    })
}
