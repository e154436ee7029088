//! Loops of abstract states.

ghost use Rattle.std.specs.Prelude.{◌≡◌, Some, None, IfOk, Option, ℕ, OnErr};
ghost use Rattle.pb_base.specs.OrMemory.{OnRefused};
ghost use Rattle.pb_bytecode_program.specs.Transfer.{abstract_loop, abstract_next, to_next_place};

use crate::flow_error::FlowError;
use crate::rule::AcceptanceRule;
use crate::state::AbstractState;
use crate::value::abstraction;
use pb_base::MAX_LOOPS;
use pb_sorts::Carrier;
use std::alloc::Global;

impl AbstractState {
    /// What is known at the first place of a loop's body, the slot being of the carrier.
    #[tactic(auto, using(crate::proofs::Ordered::carrier_inhabited, crate::proofs::Ordered::carrier_ordered))]
    pub fn enter_loop(
        &self,
        alloc: Global,
        slot: u8,
        carrier: Carrier,
    ) -> Result<AbstractState, FlowError>
        ensures ok { IfOk result (λ k. (q : ℕ)
            → abstract_loop q self.now slot (Some carrier) ≡ to_next_place q k) }
        ensures refused { OnRefused result ((q : ℕ)
            → abstract_loop q self.now slot (Some carrier) ≡ None) }
    {
        if self.loops.len() >= MAX_LOOPS {
            return Err(FlowError::Refused(AcceptanceRule::LoopStructure));
        }
        if self.is_running(slot) {
            return Err(FlowError::Refused(AcceptanceRule::UnknownName));
        }
        let mut loops = Vec::with_capacity(alloc, self.loops.len() + 1)?;
        loops.push((slot, abstraction(carrier)))?;
        loops.extend_from_slice(&self.loops)?;
        Ok(AbstractState {
            operands: Vec::new(alloc),
            operands_below: self.operands.len() as u8 + self.operands_below,
            parameters: Vec::from_slice(alloc, &self.parameters)?,
            loops,
            brackets: self.brackets,
            brackets_below: self.brackets,
            roots: self.roots,
        })
    }

    /// What is known after a loop: what was known at its start, `home`, if the body left operands,
    /// brackets and roots as they were (V12).
    pub fn leave_loop(&self, home: AbstractState) -> Result<AbstractState, AcceptanceRule>
        ensures ok { IfOk result (λ k. (q : ℕ)
            → abstract_next q self.now self.now.operands (Some home) ≡ to_next_place q k) }
        ensures err { OnErr result ((q : ℕ) → abstract_next q self.now self.now.operands (Some home)
            ≡ None) }
    {
        let same = self.operands.is_empty()
            && self.brackets == home.brackets
            && self.roots == home.roots;
        if !same {
            return Err(AcceptanceRule::LoopStructure);
        }
        Ok(home)
    }
}
