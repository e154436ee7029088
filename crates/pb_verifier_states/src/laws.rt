//! The law of the join of abstract states. The function does nothing: the law stands
//! on its contract.

ghost use Rattle.std.specs.Prelude.{◌≡◌, Some, None};
ghost use Rattle.pb_bytecode_program.specs.Accepted.{IsCovered};
ghost use Rattle.pb_bytecode_program.specs.Transfer.{AbstractState as Known};
ghost use Rattle.pb_verifier_states.specs.Join.{join_states};

/// The join of two states is their least upper bound, and only states that nothing covers both of
/// have none.
pub fn join_is_least()
    ensures covers { (k m n : Known) → join_states k m ≡ Some n → IsCovered k k → IsCovered m m
        → IsCovered k n × IsCovered m n }
    ensures least { (k m n u : Known) → join_states k m ≡ Some n → IsCovered k u → IsCovered m u
        → IsCovered n u }
    ensures none { (k m u : Known) → join_states k m ≡ None → IsCovered k u → IsCovered m u → ⊥ }
{}
