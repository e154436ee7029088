//! What flows from an instruction.

ghost use Rattle.std.specs.Prelude.{◌≡◌, ◌≤ℤ◌, IfOk, None, OnOk, Option, Some, ℕ};
ghost use Rattle.pb_verifier_flow.specs.Edges.{edges_of};
ghost use Rattle.pb_verifier_flow.specs.Flows.{GoesOnAlone};
ghost use Rattle.pb_verifier_states.specs.NamedRule.{named_rule};
ghost use Rattle.pb_bytecode_program.specs.Monotone.{HasOrderedRange};
ghost use Rattle.pb_base.specs.OrMemory.{IfRefused, OnRefused};
ghost use Rattle.pb_bytecode_program.specs.Counts.{Straight, loop_effect};
ghost use Rattle.pb_bytecode_program.specs.Machine.{Program};
ghost use Rattle.pb_bytecode_program.specs.Transfer.{AbstractState as Known, to_next_place};
ghost use Rattle.pb_bytecode_program.specs.Transfer.{transfer};

mod control;
mod data;
mod tree;

use crate::edges::Edges;
use pb_base_values::Interval;
use pb_bytecode_program::{AbstractValue, Op};
use pb_sorts::Layout;
use pb_verifier_states::flow_error::FlowError;
use pb_verifier_states::state::AbstractState;
use std::alloc::Global;

/// What flows from an instruction other than the start and the end of a loop. `sorts` has the
/// counts of enumerators, `callees` the carriers of each equation's parameters.
///
/// # Errors
/// `Refused` exactly where the instruction breaks a rule, memory aside. It names the first that the
/// instruction breaks as a whole: a missing operand before a wrong kind, kinds before the divisor,
/// the divisor before the result, the kinds of all arguments before their intervals, and these
/// before the root.
pub fn flow(
    mut state: AbstractState,
    alloc: Global,
    sorts: &[u8],
    callees: &Layout,
    op: Op,
) -> Result<Edges, FlowError>
    requires straight { loop_effect op ≡ Straight }
    requires bounds { HasOrderedRange op }
    ensures flows { IfOk result (λ e. (p : Program) (home : Option Known) (q : ℕ)
        → p.sorts ≡ sorts.now → p.callees ≡ callees.now
        → transfer p home q op state ≡ Some (edges_of q e.next e.jump)) }
    ensures refused { OnRefused result ((p : Program) (home : Option Known) (q : ℕ)
        → p.sorts ≡ sorts.now → p.callees ≡ callees.now
        → transfer p home q op state ≡ None) }
    ensures rule { IfRefused result (λ rule. rule
        ≡ named_rule sorts.now callees.now op state) }
{
    match op {
        Op::End => match state.end() {
            Ok(()) => Ok(Edges::none()),
            Err(rule) => Err(FlowError::Refused(rule)),
        },
        Op::Jump { target } => Ok(Edges::jump(target, state)),
        Op::JumpIf { condition, target } => control::jump_if(state, alloc, condition, target),
        Op::InRange { low, high, target } => {
            control::in_range(state, alloc, range_between(low, high), target)
        }
        Op::SlotInRange {
            slot,
            low,
            high,
            target,
        } => control::slot_in_range(state, alloc, slot, range_between(low, high), target),
        _ => {
            go_on(&mut state, sorts, callees, op)?;
            Ok(Edges::next(state))
        }
    }
}

// The numbers from `low` to `high`.
fn range_between(low: i32, high: i32) -> Interval
    requires { low ≤ℤ high }
    ensures range { result ≡ record { low = low; high = high } }
    ensures ordered { result.low ≤ℤ result.high }
{
    Interval::new(i64::from(low), i64::from(high))
}

/// Changes what is known at an instruction, from which control goes on to the next place alone, to
/// what is known there. `sorts` has the counts of enumerators, `callees` the carriers of each
/// equation's parameters.
///
/// # Errors
/// `Refused` exactly where the instruction breaks a rule, memory aside, with the rule that `flow`
/// names. After an error the state is of no more use.
pub fn go_on(
    state: &mut AbstractState,
    sorts: &[u8],
    callees: &Layout,
    op: Op,
) -> Result<(), FlowError>
    requires { GoesOnAlone op }
    ensures flows { OnOk result ((p : Program) (home : Option Known) (q : ℕ)
        → p.sorts ≡ sorts.now → p.callees ≡ callees.now
        → transfer p home q op state.old ≡ to_next_place q state.new) }
    ensures refused { OnRefused result ((p : Program) (home : Option Known) (q : ℕ)
        → p.sorts ≡ sorts.now → p.callees ≡ callees.now
        → transfer p home q op state.old ≡ None) }
    ensures rule { IfRefused result (λ rule. rule
        ≡ named_rule sorts.now callees.now op state.old) }
{
    match op {
        Op::PushInt(z) => state.push(AbstractValue::Int { low: z, high: z }),
        Op::PushBool(_) => state.push(AbstractValue::Bool),
        Op::PushEnum { sort, index } => control::push_enum(state, sorts, sort, index),
        Op::Get { slot } => control::get(state, slot),
        Op::Pop => Ok(data::pop(state)?),
        Op::Arithmetic(operator) => data::arithmetic(state, operator),
        Op::Negate => data::negate(state),
        Op::Absolute => data::absolute(state),
        Op::Compare(order) => data::compare(state, order),
        Op::Equality(wanted) => data::equality(state, wanted),
        Op::Not => data::negation(state),
        Op::Logic(connective) => data::logic(state, connective),
        Op::Open(connective) => Ok(tree::open(state, connective)?),
        Op::Close => Ok(tree::close(state)?),
        Op::Emit(leaf) => Ok(tree::emit(state, leaf)?),
        Op::Call { equation } => Ok(tree::call(state, callees, equation)?),
        _ => unreachable!(),
    }
}
