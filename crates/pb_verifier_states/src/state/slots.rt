//! Slots of abstract states: of the loops around, else parameters.

ghost use Rattle.std.specs.Prelude.{◌≡◌, IfSome, Some, None, ℤ, ◌≤ℤ◌, IfErr, IfOk, OnErr};
ghost use Rattle.std.specs.Prelude.{slice_get};
ghost use Rattle.pb_verifier_states.specs.Inhabited.{HasOrderedEnds};
ghost use Rattle.pb_verifier_states.specs.NamedRule.{named_at_slot};
ghost use Rattle.pb_bytecode_program.specs.Transfer.{Flow, abstract_slot, among, set_loop};
ghost use Rattle.pb_bytecode_program.specs.Transfer.{set_param, set_slot, with_abstract_slot};
ghost use Rattle.pb_bytecode_program.specs.Transfer.{with_interval};
ghost use Rattle.pb_bytecode_program.specs.declared.domain.AbstractValue.TheVariants as abstract;

use crate::rule::AcceptanceRule;
use crate::state::AbstractState;
use crate::value::numbers;
use pb_base_values::Interval;
use pb_bytecode_program::AbstractValue;

impl AbstractState {
    /// What is known of a slot, if it is one of a loop around or of a parameter.
    pub fn slot(&self, slot: u8) -> Option<AbstractValue>
        ensures value { result ≡ abstract_slot self.now.loops self.now.parameters slot }
        ensures ordered { IfSome result HasOrderedEnds }
    {
        find_slot(&self.loops, &self.parameters, slot)
    }

    /// What is known of the number in a slot.
    pub fn slot_int(&self, slot: u8) -> Result<Interval, AcceptanceRule>
        ensures ok { IfOk result (λ i. abstract_slot self.now.loops self.now.parameters slot
            ≡ Some (abstract.Int i.low i.high)) }
        ensures ordered { IfOk result (λ i. i.low ≤ℤ i.high) }
        ensures err { OnErr result ((go : ℤ → ℤ → Flow)
            → with_abstract_slot (abstract_slot self.now.loops self.now.parameters slot)
            (λ s. with_interval s go) ≡ None) }
        ensures rule { IfErr result (λ rule. rule ≡ named_at_slot self.now slot) }
    {
        match self.slot(slot) {
            Some(AbstractValue::Int { low, high }) => Ok(Interval::new(low, high)),
            Some(_) => Err(AcceptanceRule::WrongKind),
            None => Err(AcceptanceRule::UnknownName),
        }
    }

    /// Whether a loop around has the slot.
    pub fn is_running(&self, slot: u8) -> bool
        ensures { result ≡ among self.now.loops slot }
    {
        is_among(&self.loops, slot)
    }

    /// Narrows what is known of a slot.
    pub fn narrow_slot(&mut self, slot: u8, interval: Interval)
        ensures { self.new ≡ set_slot self.old slot (abstract.Int interval.low interval.high) }
    {
        let value = numbers(interval);
        if is_among(&self.loops, slot) {
            write_loop(&mut self.loops, slot, value);
        } else {
            write_param(&mut self.parameters, slot, value);
        }
    }
}

// What is known of a slot.
fn find_slot(
    loops: &[(u8, AbstractValue)],
    parameters: &[AbstractValue],
    slot: u8,
) -> Option<AbstractValue>
    ensures { result ≡ abstract_slot loops.now parameters.now slot }
{
    for (around, value) in loops {
        if *around == slot {
            return Some(*value);
        }
    }
    find_param(parameters, slot)
}

// What is known of the slot of a parameter; a function of its own for the prover alone.
fn find_param(parameters: &[AbstractValue], slot: u8) -> Option<AbstractValue>
    ensures { result ≡ slice_get parameters.now slot }
{
    parameters.get(usize::from(slot)).copied()
}

// Whether one of the loops has the slot.
fn is_among(loops: &[(u8, AbstractValue)], slot: u8) -> bool
    ensures { result ≡ among loops.now slot }
{
    for (around, _) in loops {
        if *around == slot {
            return true;
        }
    }
    false
}

// Writes the slot of the innermost loop that has it.
fn write_loop(loops: &mut [(u8, AbstractValue)], slot: u8, value: AbstractValue)
    ensures { loops.new ≡ set_loop loops.old slot value }
{
    for i in 0..loops.len() {
        if loops[i].0 == slot {
            loops[i].1 = value;
            return;
        }
    }
}

// Writes the slot of a parameter, if there is one.
fn write_param(parameters: &mut [AbstractValue], slot: u8, value: AbstractValue)
    ensures { parameters.new ≡ set_param parameters.old slot value }
{
    let i = usize::from(slot);
    if i < parameters.len() {
        parameters[i] = value;
    }
}
