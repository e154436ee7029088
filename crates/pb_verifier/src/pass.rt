//! The pass over the code of an equation: each place's state flows on to later places, from the
//! first place to the last.

ghost use Rattle.std.specs.Prelude.{◌≡◌, ◌<◌, [], ◌∷◌, IfOk, List, None, OnErr, OnOk, Some, ℕ};
ghost use Rattle.std.specs.Prelude.{replicate, slice_get, slice_set, true, false, vec_len};
ghost use Rattle.pb_base.specs.OrMemory.{OnRefused, raised};
ghost use Rattle.pb_bytecode_program.specs.Accepted.{state_at};
ghost use Rattle.pb_bytecode_program.specs.Counts.{Leaves, loop_effect};
ghost use Rattle.pb_bytecode_program.specs.Machine.{Program, carrier_of};
ghost use Rattle.pb_bytecode_program.specs.declared.instruction.Op.TheVariants as op;
ghost use Rattle.pb_verifier.specs.Pass.{code_passes, homes_after, initial_table, visited};
ghost use Rattle.pb_verifier.specs.Programs.{program_in};
ghost use Rattle.pb_verifier.specs.Names.{program_in_module};
ghost use Rattle.pb_sorts.specs.declared.carrier.Carrier.{Carrier as carrier_type};

use crate::equation_in_module::EquationInModule;
use crate::open_loops::OpenLoops;
use crate::table::take_state;
use crate::visit::{visit_alone, visit_fork, visit_jump, visit_jump_if, visit_loop, visit_next};
use pb_base::OrMemory;
use pb_bytecode::Equation;
use pb_bytecode_program::Op;
use pb_sorts::Carrier;
use pb_verifier_states::{AbstractState, AcceptanceRule, FlowError};
use pb_verifier_structure::PositionFault;
use std::alloc::{AllocError, Global};

/// What is known in the midst of a pass: at the places to come, and at the starts of the loops
/// around.
#[derive(Drop)]
struct PassState {
    table: Vec<Option<AbstractState>>,
    open_loops: OpenLoops,
}

// A table that knows nothing of any place.
fn empty_table(alloc: Global, places: usize) -> Result<Vec<Option<AbstractState>>, AllocError>
    ensures table { IfOk result (λ table. table.items ≡ replicate places None) }
    ensures len { IfOk result (λ table. vec_len table ≡ places) }
{
    let mut table = Vec::with_capacity(alloc, places)?;
    for _place in 0..places {
        table.push_reserved(None);
    }
    Ok(table)
}

fn loop_carrier(equation: &Equation, slot: u8) -> Option<Carrier>
    ensures { (sorts : List ℕ) (callees : List (List carrier_type))
        → result ≡ carrier_of (program_in sorts callees equation.now) slot }
{
    let slot = usize::from(slot);
    if slot < equation.parameters.len() {
        return None;
    }
    equation
        .loops
        .get(slot - equation.parameters.len())
        .copied()
}

impl PassState {
    // At the start the first place alone is known.
    fn opening(alloc: Global, equation: &Equation) -> Result<PassState, AllocError>
        requires { 0 < vec_len equation.now.code }
        ensures table { IfOk result (λ pass. (sorts : List ℕ) (callees : List (List carrier_type))
            → pass.table.items ≡ initial_table (program_in sorts callees equation.now)) }
        ensures open_loops { IfOk result (λ pass. pass.open_loops ≡ []) }
    {
        let mut table = empty_table(alloc, equation.code.len())?;
        table[0] = Some(AbstractState::entry(alloc, &equation.parameters)?);
        Ok(PassState {
            table,
            open_loops: OpenLoops::new(alloc),
        })
    }

    // One place: what is known there flows on.
    fn step(
        &mut self,
        checked: &EquationInModule<'_>,
        place: usize,
        instruction: Op,
    ) -> Result<(), FlowError>
        requires { slice_get checked.now.equation.now.code.items place ≡ Some instruction }
        ensures flows { OnOk result (visited (program_in_module checked.now) place instruction
            (state_at self.old.table.items place) self.old.open_loops
            (slice_set self.old.table.items place None) ≡ Some self.new.table.items) }
        ensures open_loops { OnOk result (self.new.open_loops
            ≡ homes_after (loop_effect instruction)
            (state_at self.old.table.items place) self.old.open_loops) }
        ensures refused { OnRefused result
            (visited (program_in_module checked.now) place instruction
            (state_at self.old.table.items place) self.old.open_loops
            (slice_set self.old.table.items place None) ≡ None) }
    {
        match instruction {
            Op::Loop { slot } => {
                let known = take_state(&mut self.table, place);
                self.start_loop(checked.equation, slot, place, known)
            }
            Op::Next => {
                let known = take_state(&mut self.table, place);
                Ok(self.end_loop(place, known)?)
            }
            Op::Jump { target } => visit_jump(place, target, &mut self.table),
            Op::JumpIf { condition, target } => {
                visit_jump_if(place, condition, target, &mut self.table)
            }
            Op::End | Op::InRange { .. } | Op::SlotInRange { .. } => {
                let known = take_state(&mut self.table, place);
                visit_fork(&checked.names, place, instruction, known, &mut self.table)
            }
            _ => visit_alone(&checked.names, place, instruction, &mut self.table),
        }
    }

    // The start of a loop, of which this is known.
    fn start_loop(
        &mut self,
        equation: &Equation,
        slot: u8,
        place: usize,
        known: Option<AbstractState>,
    ) -> Result<(), FlowError>
        ensures flows { OnOk result ((sorts : List ℕ) (callees : List (List carrier_type))
            → visited (program_in sorts callees equation.now) place
            (op.Loop slot) known self.old.open_loops self.old.table.items
            ≡ Some self.new.table.items) }
        ensures open_loops { OnOk result (self.new.open_loops ≡ known ∷ self.old.open_loops) }
        ensures refused { OnRefused result ((sorts : List ℕ) (callees : List (List carrier_type))
            → visited (program_in sorts callees equation.now) place
            (op.Loop slot) known self.old.open_loops self.old.table.items ≡ None) }
    {
        match known {
            Some(state) => {
                let carrier = loop_carrier(equation, slot);
                visit_loop(&state, slot, carrier, place, &mut self.table)?;
                self.open_loops.enter(Some(state))?;
                Ok(())
            }
            None => {
                self.open_loops.enter(None)?;
                Ok(())
            }
        }
    }

    // The end of a loop, of which this is known.
    fn end_loop(&mut self, place: usize, known: Option<AbstractState>) -> Result<(), AcceptanceRule>
        ensures flows { OnOk result ((p : Program)
            → visited p place op.Next known self.old.open_loops self.old.table.items
            ≡ Some self.new.table.items) }
        ensures open_loops { OnOk result (self.new.open_loops
            ≡ homes_after Leaves known self.old.open_loops) }
        ensures err { OnErr result ((p : Program)
            → visited p place op.Next known self.old.open_loops self.old.table.items ≡ None) }
    {
        let start = self.open_loops.leave();
        match known {
            Some(state) => visit_next(&state, start, place, &mut self.table),
            None => Ok(()),
        }
    }
}

// The refusal of the instruction at a place.
fn at_place(error: FlowError, place: usize) -> OrMemory<PositionFault>
    ensures { raised (λ rule fault. fault ≡ record { rule = rule; place = place }) error result }
{
    error.map(|rule| PositionFault { rule, place })
}

/// Passes over the code of an equation.
///
/// # Errors
/// The rule that fails and the place of its instruction, where the pass refuses the code.
pub(crate) fn pass(
    alloc: Global,
    checked: &EquationInModule<'_>,
) -> Result<(), OrMemory<PositionFault>>
    ensures passes { OnOk result (code_passes (program_in_module checked.now) ≡ true) }
    ensures refused { OnRefused result (code_passes (program_in_module checked.now) ≡ false) }
{
    let mut pass = PassState::opening(alloc, checked.equation)?;
    for (place, instruction) in checked.equation.code.iter().enumerate() {
        match pass.step(checked, place, *instruction) {
            Ok(()) => {}
            Err(error) => return Err(at_place(error, place)),
        }
    }
    Ok(())
}
