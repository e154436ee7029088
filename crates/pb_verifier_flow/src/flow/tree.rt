//! What flows from the instructions that write the tree.

ghost use Rattle.std.specs.Prelude.{◌≡◌, IfErr, None, OnErr, OnOk, Some, slice_get};
ghost use Rattle.std.specs.Prelude.{ℕ};
ghost use Rattle.pb_verifier_flow.specs.Flows.{Fails, GoesOn};
ghost use Rattle.pb_verifier_states.specs.NamedRule.{IsNamed, named_at_call};
ghost use Rattle.pb_bytecode_program.specs.Transfer.{abstract_call, to_next_place};
ghost use Rattle.pb_bytecode_program.specs.declared.instruction.Op.TheVariants as op;

use pb_bytecode_program::{Junction, Leaf};
use pb_sorts::{Carrier, Layout};
use pb_verifier_states::rule::AcceptanceRule;
use pb_verifier_states::state::AbstractState;

/// Opens a bracket.
pub(crate) fn open(state: &mut AbstractState, connective: Junction) -> Result<(), AcceptanceRule>
    ensures flows { OnOk result (GoesOn (op.Open connective) state.old state.new) }
    ensures err { OnErr result (Fails (op.Open connective) state.old) }
    ensures rule { IfErr result (IsNamed (op.Open connective) state.old) }
{
    if !state.may_open_bracket() {
        return Err(AcceptanceRule::Brackets);
    }
    state.add_root()?;
    state.open_bracket();
    Ok(())
}

/// Closes a bracket.
pub(crate) fn close(state: &mut AbstractState) -> Result<(), AcceptanceRule>
    ensures flows { OnOk result (GoesOn op.Close state.old state.new) }
    ensures err { OnErr result (Fails op.Close state.old) }
    ensures rule { IfErr result (IsNamed op.Close state.old) }
{
    state.close_bracket()?;
    Ok(())
}

/// Writes a leaf.
pub(crate) fn emit(state: &mut AbstractState, leaf: Leaf) -> Result<(), AcceptanceRule>
    ensures flows { OnOk result (GoesOn (op.Emit leaf) state.old state.new) }
    ensures err { OnErr result (Fails (op.Emit leaf) state.old) }
    ensures rule { IfErr result (IsNamed (op.Emit leaf) state.old) }
{
    state.add_root()?;
    Ok(())
}

/// Writes a call of an equation; `callees` has the carriers of each one's parameters.
pub(crate) fn call(
    state: &mut AbstractState,
    callees: &Layout,
    equation: u8,
) -> Result<(), AcceptanceRule>
    ensures flows { OnOk result ((q : ℕ)
        → abstract_call q state.old (slice_get callees.now equation)
        ≡ to_next_place q state.new) }
    ensures err { OnErr result ((q : ℕ)
        → abstract_call q state.old (slice_get callees.now equation) ≡ None) }
    ensures rule { IfErr result (λ rule. rule
        ≡ named_at_call state.old.operands (slice_get callees.now equation)) }
{
    let place = usize::from(equation);
    if place >= callees.equation_count() {
        return Err(AcceptanceRule::UnknownName);
    }
    call_with(state, callees.carriers(place))
}

// Writes a call of an equation with these parameters.
fn call_with(state: &mut AbstractState, callee: &[Carrier]) -> Result<(), AcceptanceRule>
    ensures flows { OnOk result ((q : ℕ)
        → abstract_call q state.old (Some callee.now) ≡ to_next_place q state.new) }
    ensures err { OnErr result ((q : ℕ) → abstract_call q state.old (Some callee.now) ≡ None) }
    ensures rule { IfErr result (λ rule. rule
        ≡ named_at_call state.old.operands (Some callee.now)) }
{
    state.test_arguments(callee)?;
    state.pop_arguments(callee)?;
    state.add_root()?;
    Ok(())
}
