//! The laws of programs, for crates above to call where they need them.

ghost use Rattle.pb_bytecode_program.specs.Accepted.{Accepted, Table};
ghost use Rattle.pb_bytecode_program.specs.Machine.{Program};
ghost use Rattle.pb_bytecode_program.specs.Monotone.{TransferIsMonotone};
ghost use Rattle.pb_bytecode_program.specs.Safety.{IsSafe};

/// Accepted code, run on any arguments of its declared carriers, never faults, and ends within its
/// static counts of steps and tokens, with the tokens of exactly one tree.
pub fn accepted_is_safe()
    ensures { (p : Program) (table : Table) → Accepted p table → IsSafe p }
{}

/// Where an instruction's rule is met, it is met where more is known, and what flows is covered.
pub fn transfer_is_monotone()
    ensures { TransferIsMonotone }
{}
