//! What follows from the definition of an instance's number, its place in the list of all
//! instances: the laws by which equations over tuples and equations over numbers are one.
ghost use Rattle.std.specs.Prelude.{◌≡◌, ◌<◌, ◌+◌, ◌↔◌, ℕ, suc, List, Some, true, length, Contains};
ghost use Rattle.std.specs.List.{slice_get};
ghost use Rattle.pb_base_values.specs.Carrier as carriers;
ghost use Rattle.pb_sorts.specs.declared.carrier.Carrier.{Carrier};
ghost use Rattle.pb_sorts.specs.Instance.{Instance, instances, is_instance, first_of, size_of};
ghost use Rattle.pb_sorts.specs.Instance.{owns_number, owns_instance, number_of};
ghost use Rattle.pb_sorts.specs.Layout.{carriers_of};

/// The list of all instances has those with a value of each parameter's carrier, and no others.
pub fn instances_are_those_within()
    ensures { (equations : List (List carriers.Carrier)) (i : Instance)
        → (is_instance equations i ≡ true) ↔ Contains (instances equations) i }
{}

/// An instance's number is the first of its equation's plus its values read as digits in mixed
/// radix, the last parameter being the lowest digit. So an instance has one number.
pub fn number_is_mixed_radix()
    ensures formula { (equations : List (List Carrier)) (n : ℕ) (i : Instance)
        → slice_get (instances (carriers_of equations)) n ≡ Some i
        → n ≡ number_of (carriers_of equations) i }
    ensures unique { (equations : List (List Carrier)) (m n : ℕ) (i : Instance)
        → slice_get (instances (carriers_of equations)) m ≡ Some i
        → slice_get (instances (carriers_of equations)) n ≡ Some i → m ≡ n }
{}

/// An equation owns the numbers from its first on, as many as it has instances: these are the
/// numbers of its instances.
pub fn equation_owns_its_numbers()
    ensures { (equations : List (List carriers.Carrier)) (k n : ℕ) (i : Instance)
        → k < length equations → slice_get (instances equations) n ≡ Some i
        → owns_number equations k n ≡ owns_instance equations k i }
{}

/// The numbers of an equation begin where those of the equation before it end, from 0 to the number
/// of all instances.
pub fn equations_follow_one_another()
    ensures first { (equations : List (List carriers.Carrier)) → first_of equations 0 ≡ 0 }
    ensures next { (equations : List (List carriers.Carrier)) (k : ℕ) → k < length equations
        → first_of equations (suc k) ≡ first_of equations k + size_of equations k }
    ensures last { (equations : List (List carriers.Carrier))
        → first_of equations (length equations) ≡ length (instances equations) }
{}
