//! Abstract states: what is known at a place of code, without running it.

ghost use Rattle.std.specs.Prelude.{◌≡◌, ◌+◌, ◌≤◌, IfOk, [], map, Some};
ghost use Rattle.std.specs.Prelude.{None, true, if◌then◌else◌, length};
ghost use Rattle.pb_bytecode_program.specs.Abstract.{abstraction_of};
ghost use Rattle.pb_verifier_states.specs.Inhabited.{HaveOrderedEnds, LoopsHaveOrderedEnds};
ghost use Rattle.pb_verifier_states.specs.Join.{agree, hulls, join_states, loop_hulls};

mod brackets;
mod loops;
mod operands;
mod slots;

use crate::value::{abstraction, hull};
use pb_bytecode_program::AbstractValue;
use pb_sorts::Carrier;
use std::alloc::{AllocError, Global};
use std::marker::Model;

/// What is known at a place: of the operands above the floor of the innermost loop, of the slots,
/// of the brackets and of the roots (abstract interpretation, Cousot and Cousot 1977). No interval
/// is empty.
#[derive(Drop)]
pub struct AbstractState {
    // The topmost first; there are at most `MAX_OPERANDS` of them and of those below.
    operands: Vec<AbstractValue>,
    operands_below: u8,
    parameters: Vec<AbstractValue>,
    // The slots of the loops around, the innermost first: there are at most `MAX_LOOPS`.
    loops: Vec<(u8, AbstractValue)>,
    brackets: u8,
    brackets_below: u8,
    roots: u8,
}

impl Model for AbstractState {
    ghost use Rattle.std.specs.Prelude.{length, ◌+◌, ◌≤◌};
    ghost use Rattle.pb_verifier_states.specs.Inhabited.{HaveOrderedEnds, LoopsHaveOrderedEnds};
    ghost use Rattle.pb_bytecode_program.specs.Transfer.{AbstractState as Known};
    ghost use Rattle.pb_base.specs.declared.limits.TheConstants.{MAX_OPERANDS};

    ghost Value = { Known };

    ghost view = { λ s. record {
      operands = s.operands.items;
      operands_below = s.operands_below;
      parameters = s.parameters.items;
      loops = s.loops.items;
      brackets = s.brackets;
      brackets_below = s.brackets_below;
      roots = s.roots;
    } };

    ghost invariant = { λ s. (length s.operands.items + s.operands_below ≤ MAX_OPERANDS)
        × HaveOrderedEnds s.operands.items × HaveOrderedEnds s.parameters.items
        × LoopsHaveOrderedEnds s.loops.items };
}

impl AbstractState {
    /// What is known at the first place of code with these parameters.
    pub fn entry(alloc: Global, parameters: &[Carrier]) -> Result<AbstractState, AllocError>
        ensures { IfOk result (λ s. s ≡ record {
          operands = [];
          operands_below = 0;
          parameters = map abstraction_of parameters.now;
          loops = [];
          brackets = 0;
          brackets_below = 0;
          roots = 0;
        }) }
    {
        let parameters = abstractions(alloc, parameters)?;
        Ok(AbstractState {
            operands: Vec::new(alloc),
            operands_below: 0,
            parameters,
            loops: Vec::new(alloc),
            brackets: 0,
            brackets_below: 0,
            roots: 0,
        })
    }

    /// An equal state.
    pub fn copy(&self, alloc: Global) -> Result<AbstractState, AllocError>
        ensures { IfOk result (λ s. s ≡ self.now) }
    {
        Ok(AbstractState {
            operands: Vec::from_slice(alloc, &self.operands)?,
            operands_below: self.operands_below,
            parameters: Vec::from_slice(alloc, &self.parameters)?,
            loops: Vec::from_slice(alloc, &self.loops)?,
            brackets: self.brackets,
            brackets_below: self.brackets_below,
            roots: self.roots,
        })
    }

    /// The least state that covers both, made in place, or `None` where no state does.
    pub fn join(mut self, other: &AbstractState) -> Option<AbstractState>
        ensures { result ≡ join_states self other.now }
    {
        if self.widen(other) { Some(self) } else { None }
    }

    /// Widens the state, in place, to the least one that covers both. Where no state does, some of
    /// it may be widened: the state is of no more use.
    pub fn widen(&mut self, other: &AbstractState) -> bool
        ensures { join_states self.old other.now ≡ (if result then Some self.new else None) }
    {
        if !self.agrees(other) {
            return false;
        }
        if !widen_all(&mut self.operands, &other.operands) {
            return false;
        }
        if !widen_all(&mut self.parameters, &other.parameters) {
            return false;
        }
        widen_loops(&mut self.loops, &other.loops)
    }

    // Whether all but operands and slots is the same.
    fn agrees(&self, other: &AbstractState) -> bool
        ensures { result ≡ agree self.now other.now }
    {
        self.operands_below == other.operands_below
            && self.brackets == other.brackets
            && self.brackets_below == other.brackets_below
            && self.roots == other.roots
    }
}

// What is known of values of the carriers.
fn abstractions(alloc: Global, carriers: &[Carrier]) -> Result<Vec<AbstractValue>, AllocError>
    ensures { IfOk result (λ v. v.items ≡ map abstraction_of carriers.now) }
{
    let mut values = Vec::with_capacity(alloc, carriers.len())?;
    for carrier in carriers {
        values.push(abstraction(*carrier))?;
    }
    Ok(values)
}

// Widens each value, in place, to the least one that covers the other list's value too.
fn widen_all(values: &mut [AbstractValue], others: &[AbstractValue]) -> bool
    ensures hulls { hulls values.old others.now ≡ (if result then Some values.new else None) }
    ensures ordered { HaveOrderedEnds values.old → HaveOrderedEnds others.now
        → HaveOrderedEnds values.new }
{
    if values.len() != others.len() {
        return false;
    }
    for i in 0..values.len() {
        match hull(values[i], others[i]) {
            Some(wider) => values[i] = wider,
            None => return false,
        }
    }
    true
}

// The same of the slots of loops.
fn widen_loops(loops: &mut [(u8, AbstractValue)], others: &[(u8, AbstractValue)]) -> bool
    ensures hulls { loop_hulls loops.old others.now ≡ (if result then Some loops.new else None) }
    ensures ordered { LoopsHaveOrderedEnds loops.old → LoopsHaveOrderedEnds others.now
        → LoopsHaveOrderedEnds loops.new }
{
    if loops.len() != others.len() {
        return false;
    }
    for i in 0..loops.len() {
        let (slot, value) = loops[i];
        let (other_slot, other_value) = others[i];
        if slot != other_slot {
            return false;
        }
        match hull(value, other_value) {
            Some(wider) => loops[i] = (slot, wider),
            None => return false,
        }
    }
    true
}
