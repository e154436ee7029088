//! The law of what flows from instructions. The function does nothing: the law stands
//! on its contract.

ghost use Rattle.std.specs.Prelude.{ℕ, Option};
ghost use Rattle.pb_bytecode_program.specs.Accepted.{FlowIsCovered, IsCovered, Table};
ghost use Rattle.pb_bytecode_program.specs.Machine.{Program};
ghost use Rattle.pb_bytecode_program.specs.Transfer.{AbstractState as Known, transfer};
ghost use Rattle.pb_bytecode_program.specs.declared.instruction.Op.{Op};
ghost use Rattle.pb_bytecode_program.specs.Monotone.{HasOrderedRange, IsCoveredAtLoop};

/// The rules are monotone: where a table covers what flows from a state, it covers what flows from
/// each state that is covered by that one.
pub fn rules_are_monotone()
    ensures { (p : Program) (table : Table) (g h : Option Known) (q : ℕ) (i : Op) (k m : Known)
        → HasOrderedRange i → IsCoveredAtLoop g h → IsCovered k m
        → FlowIsCovered table (transfer p h q i m) → FlowIsCovered table (transfer p g q i k) }
{}
