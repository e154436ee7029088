//! The laws of spellings and of counts of instances. The functions do nothing: a law stands on its
//! contract.
ghost use Rattle.std.specs.Prelude.{◌≡◌, ◌++◌, ℕ, List, map, pos, true, false};
ghost use Rattle.pb_fixpoint.specs.declared.Sign.TheVariants.{Mu, Nu};
ghost use Rattle.pb_fixpoint_trees.specs.Equations.{total};
ghost use Rattle.pb_sorts.specs.Layout.{count_of};
ghost use Rattle.pb_bytecode.specs.Contents.{Contents};
ghost use Rattle.pb_bytecode.specs.Limits.{fits, instance_count};
ghost use Rattle.pb_bytecode.specs.Meaning.{parameters, signature_of};
ghost use Rattle.pb_bytecode.specs.Solved.{EquationsAreSolvedBySign};
ghost use Rattle.pb_bytecode.specs.Examples.{alone, crossed, started_at};
ghost use Rattle.pb_bytecode.specs.Spelling.{spelling};

/// No module's spelling begins another's, and a module has one spelling that no other module has.
pub fn no_spelling_begins_another()
    ensures { (m n : Contents) (after behind : List ℕ) → fits m ≡ true → fits n ≡ true
        → spelling m ++ after ≡ spelling n ++ behind → (m ≡ n) × (after ≡ behind) }
{}

/// The layout of a module's parameters numbers as many instances as the module's equations have,
/// which is what the limit of instances is about.
pub fn instances_are_counted()
    ensures equations { (m : Contents) → count_of (parameters m)
        ≡ total (map signature_of m.equations) }
    ensures limited { (m : Contents) → count_of (parameters m) ≡ instance_count m.equations }
{}

/// In the solution that gives a module its answer, the set that an equation gets is a fixpoint of
/// its operator, the least where its sign is `mu` and the greatest where it is `nu`.
pub fn sets_of_modules_are_extreme_fixpoints()
    ensures { EquationsAreSolvedBySign }
{}

/// The answers of small modules, as the definitions compute them.
pub fn worked_answers()
    ensures greatest_alone { alone Nu ≡ true }
    ensures least_alone { alone Mu ≡ false }
    ensures greatest_dominates { crossed Nu Mu ≡ true }
    ensures least_dominates { crossed Mu Nu ≡ false }
    ensures initial_value { started_at (pos 1) ≡ true }
    ensures other_value { started_at (pos 0) ≡ false }
{}
