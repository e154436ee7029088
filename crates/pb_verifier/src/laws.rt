//! The law of the pass. The function does nothing: the law stands on its contract.

ghost use Rattle.std.specs.Prelude.{◌≡◌, ◌≤◌, true, false};
ghost use Rattle.pb_base.specs.declared.limits.TheConstants.{MAX_STEPS, MAX_TOKENS};
ghost use Rattle.pb_bytecode_program.specs.Accepted.{Accepted, Table};
ghost use Rattle.pb_bytecode_program.specs.Counts.{static_steps, static_tokens};
ghost use Rattle.pb_bytecode_program.specs.Machine.{Program};
ghost use Rattle.pb_verifier.specs.Pass.{code_passes};
ghost use Rattle.pb_verifier_structure.specs.Structure.{IsStructured, IsProgramWithinLimits};

/// Code that keeps the rules by position has an accepted table where the pass ends, and none where
/// it refuses.
pub fn pass_decides()
    ensures sound { (p : Program) → IsStructured p → IsProgramWithinLimits p
        → static_steps p ≤ p.stated_steps → p.stated_steps ≤ MAX_STEPS
        → static_tokens p ≤ p.stated_tokens → p.stated_tokens ≤ MAX_TOKENS → code_passes p ≡ true
        → (table : Table) × Accepted p table }
    ensures complete { (p : Program) (table : Table) → IsStructured p → IsProgramWithinLimits p
        → code_passes p ≡ false → Accepted p table → ⊥ }
{}
