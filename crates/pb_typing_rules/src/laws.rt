//! Laws of kinds and intervals. The functions do nothing: each law stands on its function's
//! contract.

ghost use Rattle.std.specs.Prelude.{◌≡◌, ◌≤◌, ◌↔◌, ℕ, Bool, []};
ghost use Rattle.pb_text_tree.specs.Form.{SpecForm};
ghost use Rattle.pb_text_meaning.specs.Syntax.{Formula, Spec, Term};
ghost use Rattle.pb_text_meaning.specs.Value.{Assignment, value};
ghost use Rattle.pb_text_meaning.specs.Fits.{Fits, FormulaFits, SpecFits};
ghost use Rattle.pb_text_meaning.specs.Erase.{erase};
ghost use Rattle.pb_text_meaning.specs.Positive.{ArePositive};
ghost use Rattle.pb_typing_rules.specs.Faults.{faults};
ghost use Rattle.pb_typing_rules.specs.Formula.{IsProper};
ghost use Rattle.pb_typing_rules.specs.WellTyped.{IsWellTyped, IsWellTypedWithin};
ghost use Rattle.pb_sorts.specs.Counting.{instance_limit};
ghost use Rattle.pb_sorts.specs.declared.counting.Counting.TheVariants.{Declared, Reached};
ghost use Rattle.pb_sorts.specs.declared.counting.TheConstants.{MAX_NUMBERS};
ghost use Rattle.pb_typing_rules.specs.Scope.{Scope, IsWithinScope};
ghost use Rattle.pb_typing_rules.specs.Shapes.{IsValueOf};
ghost use Rattle.pb_typing_rules.specs.Term.{IsTyped, shape};

/// Where each variable has a value of its shape, the value of a well-typed term is one of the
/// term's shape, each value on the way lies within 2^62, and no divisor is below 1. So does each
/// term of a well-typed formula.
pub fn values_are_contained()
    ensures term { (spec : Spec) (stands : Bool) (scope : Scope) (a : Assignment) (x : Term)
        → IsWithinScope a scope → IsTyped spec stands scope x
        → IsValueOf (shape spec scope x) (value spec a x) }
    ensures fits { (spec : Spec) (stands : Bool) (scope : Scope) (a : Assignment) (x : Term)
        → IsWithinScope a scope → IsTyped spec stands scope x → Fits spec a x }
    ensures formula_fits { (spec : Spec) (even : Bool) (scope : Scope) (a : Assignment)
        (f : Formula) → IsWithinScope a scope → IsProper spec even scope f → FormulaFits spec a f }
{}

/// A text has no fault exactly where what it says is well typed, with no more instances than the
/// limit.
pub fn no_faults_where_well_typed()
    ensures { (limit : ℕ) (text : SpecForm) → limit ≤ MAX_NUMBERS
        → (faults limit text ≡ []) ↔ IsWellTypedWithin limit (erase text) }
{}

/// What is well typed where each declared instance counts is so where the reached ones count, which
/// is what is meant where no limit is named.
pub fn well_typed_by_what_is_reached()
    ensures fewer { (spec : Spec) → IsWellTypedWithin (instance_limit Declared) spec
        → IsWellTypedWithin (instance_limit Reached) spec }
    ensures all { (spec : Spec) → IsWellTyped spec ↔ IsWellTypedWithin (instance_limit Reached) spec }
{}

/// Each term of a well-typed specification fits, whatever instance is looked at, and each right
/// side is positive.
pub fn well_typed_specifications_fit()
    ensures fits { (spec : Spec) → IsWellTyped spec → SpecFits spec }
    ensures positive { (spec : Spec) → IsWellTyped spec → ArePositive spec.equations }
{}
