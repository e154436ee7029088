//! What is proved of elaboration itself: the typed tree of a text has its values and its truth. The
//! functions do nothing: each law stands on its function's contract.

ghost use Rattle.std.specs.Prelude.{◌≡◌, false, ℕ, ◌+◌, ◌≤◌, length};
ghost use Rattle.std.specs.List.{All};
ghost use Rattle.pb_fixpoint.specs.Solution.{Environment};
ghost use Rattle.pb_text_meaning.specs.Syntax as syntax;
ghost use Rattle.pb_text_meaning.specs.Syntax.{Spec};
ghost use Rattle.pb_text_meaning.specs.Value as text;
ghost use Rattle.pb_text_meaning.specs.Value.{Assignment};
ghost use Rattle.pb_text_meaning.specs.Formula as formulas;
ghost use Rattle.pb_text_meaning.specs.Formula.{Instance};
ghost use Rattle.pb_text_meaning.specs.Fits as fits;
ghost use Rattle.pb_typing_rules.specs.Scope.{Scope};
ghost use Rattle.pb_typing_rules.specs.WellTyped.{IsWellTyped};
ghost use Rattle.pb_typing_tree.specs.Meaning.{Slots, value, truth};
ghost use Rattle.pb_typing_tree.specs.Expansion.{expanded, has_quantifier};
ghost use Rattle.pb_typing_tree.specs.Elaboration.{Slotting, slotted, elaborated, width};
ghost use Rattle.pb_typing_tree.specs.Fits.{Fits, FormulaFits, AreClear, EquationFits};
ghost use Rattle.pb_typing_tree.specs.Plain.{Agree, AreFree, IsPlain};
ghost use Rattle.pb_typing_tree.specs.Equations.{KeepsTruth};

/// Where the slots of the variables in scope hold their values, a typed data term has the value of
/// the term that it comes from, and a typed formula the truth of the formula, under every
/// environment.
pub fn elaboration_keeps_meaning()
    ensures value { (spec : Spec) (c : Slotting) (a : Slots) (g : Assignment) → Agree c a g
        → (x : syntax.Term) → has_quantifier x ≡ false
        → value a (slotted spec c x) ≡ text.value spec g x }
    ensures truth { (spec : Spec) (t : Environment Instance) (f : syntax.Formula) (scope : Scope)
        → IsPlain f → (c : Slotting) (n : ℕ) (a : Slots) (g : Assignment) → AreFree c n
        → Agree c a g → truth spec a t (elaborated spec c scope n f) ≡ formulas.truth spec g t f }
    ensures expanded { (spec : Spec) (t : Environment Instance) (f : syntax.Formula)
        (g : Assignment) → formulas.truth spec g t (expanded f) ≡ formulas.truth spec g t f }
{}

/// In a well-typed specification the typed tree of each equation has the truth of its right side:
/// under every environment, at every instance whose values the first slots hold.
pub fn elaborated_equations_keep_truth()
    ensures { (spec : Spec) → IsWellTyped spec → All (KeepsTruth spec) spec.equations }
{}

/// Where the slots of the variables in scope hold their values, the typed tree of a data term or a
/// formula that fits does too, if the slots of its quantifiers are there and hold 0.
pub fn elaboration_keeps_fits()
    ensures term { (spec : Spec) (c : Slotting) (n : ℕ) (a : Slots) (g : Assignment) → AreFree c n
        → Agree c a g → (x : syntax.Term) → has_quantifier x ≡ false → fits.Fits spec g x
        → Fits n a (slotted spec c x) }
    ensures formula { (spec : Spec) (f : syntax.Formula) (scope : Scope) → IsPlain f
        → (c : Slotting) (n m : ℕ) (a : Slots) (g : Assignment) → AreFree c n → Agree c a g
        → AreClear n a → n + width f ≤ m → fits.FormulaFits spec g f
        → FormulaFits (length spec.equations) m a (elaborated spec c scope n f) }
    ensures expanded { (spec : Spec) (f : syntax.Formula) (g : Assignment)
        → fits.FormulaFits spec g f → fits.FormulaFits spec g (expanded f) }
{}

/// In a well-typed specification the typed tree of each equation fits at each instance.
pub fn elaborated_equations_fit()
    ensures { (spec : Spec) → IsWellTyped spec → All (EquationFits spec) spec.equations }
{}
