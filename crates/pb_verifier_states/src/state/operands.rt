//! Operands of abstract states.

ghost use Rattle.std.specs.Prelude.{◌≡◌, ◌+◌, ◌≤ℤ◌, [], ◌∷◌, List, None, ℤ, IfErr, IfOk, OnErr};
ghost use Rattle.std.specs.Prelude.{OnOk, ℕ};
ghost use Rattle.std.specs.Prelude.{length, true, false, reverse, drop, ◌<◌, ◌≤◌};
ghost use Rattle.pb_verifier_states.specs.Inhabited.{HasOrderedEnds};
ghost use Rattle.pb_verifier_states.specs.Kinds as kinds;
ghost use Rattle.pb_verifier_states.specs.Kinds.{IsPopped};
ghost use Rattle.pb_verifier_states.specs.NamedRule.{named_at_call, named_at_top};
ghost use Rattle.pb_base.specs.OrMemory.{IfRefused, OnRefused};
ghost use Rattle.pb_bytecode_program.specs.Transfer.{Flow, abstract_pop_args, abstract_pop_bool};
ghost use Rattle.pb_bytecode_program.specs.Transfer.{abstract_pop_int, abstract_push, to_next_place};
ghost use Rattle.pb_bytecode_program.specs.declared.domain.AbstractValue.{AbstractValue as domain};
ghost use Rattle.pb_bytecode_program.specs.declared.domain.AbstractValue.TheVariants as abstract;

use crate::flow_error::FlowError;
use crate::rule::AcceptanceRule;
use crate::state::AbstractState;
use crate::value::{is_accepted, is_of_kind, numbers};
use pb_base::MAX_OPERANDS;
use pb_base_values::Interval;
use pb_bytecode_program::AbstractValue;
use pb_sorts::Carrier;

impl AbstractState {
    /// Pushes an operand, or refuses one more than `MAX_OPERANDS` (V10).
    pub fn push(&mut self, value: AbstractValue) -> Result<(), FlowError>
        requires { HasOrderedEnds value }
        ensures pushed { OnOk result (self.new
            ≡ record self.old { operands = value ∷ self.old.operands }) }
        ensures flows { OnOk result ((q : ℕ)
            → abstract_push q self.old self.old.operands value ≡ to_next_place q self.new) }
        ensures room { OnOk result (kinds.has_room self.old ≡ true) }
        ensures full { OnRefused result (kinds.has_room self.old ≡ false) }
        ensures refused { OnRefused result ((q : ℕ)
            → abstract_push q self.old self.old.operands value ≡ None) }
        ensures rule { IfRefused result (λ rule. rule ≡ AcceptanceRule.TooManyOperands) }
    {
        if self.operands.len() + usize::from(self.operands_below) >= MAX_OPERANDS {
            return Err(FlowError::Refused(AcceptanceRule::TooManyOperands));
        }
        self.operands.insert(0, value)?;
        Ok(())
    }

    /// Whether so many operands stand above the floor (V01).
    pub fn test_operands(&self, count: usize) -> Result<(), AcceptanceRule>
        ensures ok { OnOk result (count ≤ length self.now.operands) }
        ensures err { OnErr result (length self.now.operands < count) }
        ensures rule { IfErr result (λ rule. rule ≡ AcceptanceRule.MissingOperand) }
    {
        if self.operands.len() < count {
            return Err(AcceptanceRule::MissingOperand);
        }
        Ok(())
    }

    /// Pops the topmost operand above the floor.
    pub fn pop(&mut self) -> Result<AbstractValue, AcceptanceRule>
        ensures ok { IfOk result (λ v. IsPopped self.old v self.new) }
        ensures ordered { IfOk result HasOrderedEnds }
        ensures err { OnErr result (self.old.operands ≡ []) }
        ensures rule { IfErr result (λ rule. rule ≡ AcceptanceRule.MissingOperand) }
        ensures err_same { OnErr result (self.new ≡ self.old) }
    {
        if self.operands.is_empty() {
            return Err(AcceptanceRule::MissingOperand);
        }
        Ok(self.operands.remove(0))
    }

    /// Pops a number. After a refusal the operand may be gone: the state is of no more use.
    pub fn pop_int(&mut self) -> Result<Interval, AcceptanceRule>
        ensures ok { IfOk result (λ i. IsPopped self.old (abstract.Int i.low i.high) self.new) }
        ensures err { OnErr result ((go : ℤ → ℤ → List domain → Flow)
            → abstract_pop_int self.old.operands go ≡ None) }
        ensures rule { IfErr result (λ rule. rule ≡ named_at_top self.old.operands) }
    {
        match self.pop()? {
            AbstractValue::Int { low, high } => Ok(Interval::new(low, high)),
            _ => Err(AcceptanceRule::WrongKind),
        }
    }

    /// Pops a truth value. After a refusal the operand may be gone: the state is of no more use.
    pub fn pop_bool(&mut self) -> Result<(), AcceptanceRule>
        ensures ok { OnOk result (IsPopped self.old abstract.Bool self.new) }
        ensures err { OnErr result ((go : List domain → Flow)
            → abstract_pop_bool self.old.operands go ≡ None) }
        ensures rule { IfErr result (λ rule. rule ≡ named_at_top self.old.operands) }
    {
        match self.pop()? {
            AbstractValue::Bool => Ok(()),
            _ => Err(AcceptanceRule::WrongKind),
        }
    }

    /// Whether a truth value is on top, which stays.
    pub fn test_bool(&self) -> Result<(), AcceptanceRule>
        ensures ok { OnOk result
            (self.now.operands ≡ abstract.Bool ∷ drop 1 self.now.operands) }
        ensures room { OnOk result (kinds.has_room
            (record self.now { operands = drop 1 self.now.operands }) ≡ true) }
        ensures err { OnErr result ((go : List domain → Flow)
            → abstract_pop_bool self.now.operands go ≡ None) }
        ensures rule { IfErr result (λ rule. rule ≡ named_at_top self.now.operands) }
    {
        match self.operands.first() {
            Some(AbstractValue::Bool) => Ok(()),
            Some(_) => Err(AcceptanceRule::WrongKind),
            None => Err(AcceptanceRule::MissingOperand),
        }
    }

    /// The number on top, which stays.
    pub fn top_int(&self) -> Result<Interval, AcceptanceRule>
        ensures ok { IfOk result (λ i. self.now.operands
            ≡ abstract.Int i.low i.high ∷ drop 1 self.now.operands) }
        ensures ordered { IfOk result (λ i. i.low ≤ℤ i.high) }
        ensures err { OnErr result ((go : ℤ → ℤ → List domain → Flow)
            → abstract_pop_int self.now.operands go ≡ None) }
        ensures rule { IfErr result (λ rule. rule ≡ named_at_top self.now.operands) }
    {
        match self.operands.first() {
            Some(AbstractValue::Int { low, high }) => Ok(Interval::new(*low, *high)),
            Some(_) => Err(AcceptanceRule::WrongKind),
            None => Err(AcceptanceRule::MissingOperand),
        }
    }

    /// Narrows the number on top.
    pub fn narrow_top(&mut self, interval: Interval)
        requires { 0 < length self.old.operands }
        ensures { self.new
            ≡ record self.old {
              operands = abstract.Int interval.low interval.high ∷ drop 1 self.old.operands;
            } }
    {
        self.operands[0] = numbers(interval);
    }

    /// Whether a call finds its arguments, each of its carrier's kind (V02).
    #[tactic(auto, using(crate::proofs::Missing::are_missing, crate::proofs::Missing::wrong_kinds))]
    pub fn test_arguments(&self, carriers: &[Carrier]) -> Result<(), AcceptanceRule>
        ensures there { OnOk result (length carriers.now ≤ length self.now.operands) }
        ensures kinds { OnOk result (kinds.are_of_kinds (reverse carriers.now) self.now.operands
            ≡ true) }
        ensures err { OnErr result ((go : List domain → Flow)
            → abstract_pop_args (reverse carriers.now) self.now.operands go ≡ None) }
        ensures rule { IfErr result (λ rule. rule
            ≡ named_at_call self.now.operands (Some carriers.now)) }
    {
        self.test_operands(carriers.len())?;
        if !are_of_kinds(&self.operands, carriers) {
            return Err(AcceptanceRule::WrongKind);
        }
        Ok(())
    }

    /// Pops the arguments of a call, the last one first: each is one of its carrier (V08). After a
    /// refusal some may be gone: the state is of no more use.
    pub fn pop_arguments(&mut self, carriers: &[Carrier]) -> Result<(), AcceptanceRule>
        requires { length carriers.now ≤ length self.old.operands }
        ensures ok { OnOk result ((go : List domain → Flow)
            → abstract_pop_args (reverse carriers.now) self.old.operands go
            ≡ go self.new.operands) }
        ensures err { OnErr result ((go : List domain → Flow)
            → abstract_pop_args (reverse carriers.now) self.old.operands go ≡ None) }
        ensures rule { IfErr result (λ rule. rule ≡ AcceptanceRule.ArgumentOutside) }
        ensures same { self.new ≡ record self.old { operands = self.new.operands } }
    {
        let mut left = carriers.len();
        while left > 0 {
            left -= 1;
            let value = self.pop()?;
            if !is_accepted(value, carriers[left]) {
                return Err(AcceptanceRule::ArgumentOutside);
            }
        }
        Ok(())
    }
}

// Whether the operands on top are of the carriers' kinds, the topmost of the last one's.
fn are_of_kinds(operands: &[AbstractValue], carriers: &[Carrier]) -> bool
    requires { length carriers.now ≤ length operands.now }
    ensures { result ≡ kinds.are_of_kinds (reverse carriers.now) operands.now }
{
    let count = carriers.len();
    for depth in 0..count {
        if !is_of_kind(operands[depth], carriers[count - 1 - depth]) {
            return false;
        }
    }
    true
}
