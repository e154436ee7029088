//! One place of the pass.

ghost use Rattle.std.specs.Prelude.{◌≡◌, None, OnErr, OnOk, Option, Some};
ghost use Rattle.pb_bytecode_program.specs.Monotone.{HasOrderedRange};
ghost use Rattle.pb_base.specs.OrMemory.{OnRefused};
ghost use Rattle.pb_bytecode_program.specs.Counts.{Straight, loop_effect};
ghost use Rattle.pb_bytecode_program.specs.Machine.{Program, carrier_of};
ghost use Rattle.pb_bytecode_program.specs.Transfer.{AbstractState as Known, transfer};
ghost use Rattle.pb_bytecode_program.specs.declared.instruction.Op.TheVariants as op;
ghost use Rattle.pb_verifier.specs.Names.{FlowsInto, FlowsOn};
ghost use Rattle.pb_verifier.specs.declared.visit.Names.{Names as names_type};
ghost use Rattle.pb_verifier_flow.specs.Flows.{GoesOnAlone};
ghost use Rattle.pb_verifier.specs.Pass.{merge_edges as merged_edges, then_table};

use crate::table::{hand_on, is_reached, merge, merge_edges, merge_next};
use pb_bytecode_program::Op;
use pb_sorts::{Carrier, Layout};
use pb_verifier_flow::flow::{flow, go_on};
use pb_verifier_states::{AbstractState, AcceptanceRule, FlowError};

/// What the instructions of a module may name: its sorts, by how many enumerators each has, and its
/// equations, by the carriers of their parameters.
#[derive(Clone, Copy)]
pub(crate) struct Names<'a> {
    pub sorts: &'a [u8],
    pub callees: &'a Layout,
}

/// What is known at an instruction, other than the start and the end of a loop, flows on.
pub(crate) fn visit_fork(
    names: &Names<'_>,
    place: usize,
    instruction: Op,
    known: Option<AbstractState>,
    table: &mut Vec<Option<AbstractState>>,
) -> Result<(), FlowError>
    requires straight { loop_effect instruction ≡ Straight }
    requires bounds { HasOrderedRange instruction }
    ensures ok { OnOk result (FlowsInto names.now place instruction known table.old.items
        (Some table.new.items)) }
    ensures refused { OnRefused result
        (FlowsInto names.now place instruction known table.old.items None) }
{
    let Some(state) = known else {
        return Ok(());
    };
    let alloc = *table.allocator();
    let edges = flow(state, alloc, names.sorts, names.callees, instruction)?;
    merge_edges(table, place, edges)?;
    Ok(())
}

/// What is known at a jump flows to its target.
pub(crate) fn visit_jump(
    place: usize,
    target: u16,
    table: &mut Vec<Option<AbstractState>>,
) -> Result<(), FlowError>
    ensures ok { OnOk result ((names : names_type) → FlowsOn names place (op.Jump target)
        table.old.items (Some table.new.items)) }
    ensures refused { OnRefused result ((names : names_type) → FlowsOn names place (op.Jump target)
        table.old.items None) }
{
    if !is_reached(table, place) {
        return Ok(());
    }
    hand_on(table, place, usize::from(target))?;
    Ok(())
}

/// What is known at a jump where a truth value is the condition flows to the next place and to the
/// target.
pub(crate) fn visit_jump_if(
    place: usize,
    condition: bool,
    target: u16,
    table: &mut Vec<Option<AbstractState>>,
) -> Result<(), FlowError>
    ensures ok { OnOk result ((names : names_type)
        → FlowsOn names place (op.JumpIf condition target) table.old.items
        (Some table.new.items)) }
    ensures refused { OnRefused result ((names : names_type)
        → FlowsOn names place (op.JumpIf condition target) table.old.items None) }
{
    if place >= table.len() {
        return Ok(());
    }
    let alloc = *table.allocator();
    let Some(state) = &mut table[place] else {
        return Ok(());
    };
    state.pop_bool()?;
    let copy = state.copy(alloc)?;
    hand_on(table, place, place + 1)?;
    merge(table, usize::from(target), copy)?;
    Ok(())
}

/// What is known at an instruction, from which control goes on to the next place alone, flows
/// there: the state is changed in place and moved on.
pub(crate) fn visit_alone(
    names: &Names<'_>,
    place: usize,
    instruction: Op,
    table: &mut Vec<Option<AbstractState>>,
) -> Result<(), FlowError>
    requires { GoesOnAlone instruction }
    ensures ok { OnOk result (FlowsOn names.now place instruction table.old.items
        (Some table.new.items)) }
    ensures refused { OnRefused result
        (FlowsOn names.now place instruction table.old.items None) }
{
    if place >= table.len() {
        return Ok(());
    }
    let Some(state) = &mut table[place] else {
        return Ok(());
    };
    go_on(state, names.sorts, names.callees, instruction)?;
    hand_on(table, place, place + 1)?;
    Ok(())
}

/// Joins what flows from the start of a loop into the table. `carrier` is the slot's, if it is a
/// loop slot.
pub(crate) fn visit_loop(
    state: &AbstractState,
    slot: u8,
    carrier: Option<Carrier>,
    place: usize,
    table: &mut Vec<Option<AbstractState>>,
) -> Result<(), FlowError>
    ensures ok { OnOk result ((p : Program) (home : Option Known) → carrier_of p slot ≡ carrier
        → then_table (transfer p home place (op.Loop slot) state.now) (merged_edges table.old.items)
        ≡ Some table.new.items) }
    ensures refused { OnRefused result ((p : Program) (home : Option Known)
        → carrier_of p slot ≡ carrier → then_table (transfer p home place (op.Loop slot) state.now)
        (merged_edges table.old.items) ≡ None) }
{
    let Some(carrier) = carrier else {
        return Err(FlowError::Refused(AcceptanceRule::UnknownName));
    };
    let alloc = *table.allocator();
    let body = state.enter_loop(alloc, slot, carrier)?;
    merge_next(table, place, body)?;
    Ok(())
}

/// Joins what flows from the end of a loop into the table. `home` is what was known at the loop's
/// start.
pub(crate) fn visit_next(
    state: &AbstractState,
    home: Option<AbstractState>,
    place: usize,
    table: &mut Vec<Option<AbstractState>>,
) -> Result<(), AcceptanceRule>
    ensures ok { OnOk result ((p : Program) → then_table (transfer p home place op.Next state.now)
        (merged_edges table.old.items) ≡ Some table.new.items) }
    ensures err { OnErr result ((p : Program)
        → then_table (transfer p home place op.Next state.now) (merged_edges table.old.items)
        ≡ None) }
{
    let Some(known) = home else {
        return Err(AcceptanceRule::LoopStructure);
    };
    let after = state.leave_loop(known)?;
    merge_next(table, place, after)
}
