//! What is proved of positive normal forms themselves: that they keep the truth of formulas,
//! equations and whole specifications, and where their slots and shapes come from.

ghost use Rattle.std.specs.Prelude.{◌≡◌, ℕ, Bool, true, length, nat_lt};
ghost use Rattle.std.specs.List.{All, range_with_len};
ghost use Rattle.pb_fixpoint.specs.Solution.{Environment, solution};
ghost use Rattle.pb_text_tree.specs.Form.{SpecForm};
ghost use Rattle.pb_text_meaning.specs.Syntax.{Formula as Original, Equation, Spec};
ghost use Rattle.pb_text_meaning.specs.Erase.{erase};
ghost use Rattle.pb_text_meaning.specs.Value.{Assignment};
ghost use Rattle.pb_text_meaning.specs.Formula.{Instance, truth};
ghost use Rattle.pb_text_meaning.specs.Meaning.{answer, equations_of};
ghost use Rattle.pb_text_meaning.specs.Positive.{IsPositive};
ghost use Rattle.pb_typing_rules.specs.Scope.{Scope};
ghost use Rattle.pb_typing_rules.specs.WellTyped.{IsWellTyped};
ghost use Rattle.pb_typing.specs.Typed.{is_faultless};
ghost use Rattle.pb_typing_tree.specs.Elaboration.{elaborated};
ghost use Rattle.pb_typing_tree.specs.Expansion.{expanded};
ghost use Rattle.pb_typing_tree.specs.Plain.{Agree, AreFree, IsPlain};
ghost use Rattle.pb_normal.specs.Answer.{answer_by, equations_by, normal_equations};
ghost use Rattle.pb_normal.specs.Equations.{normal_equation, NormalFormKeepsTruth};
ghost use Rattle.pb_normal.specs.Kept.{KeepsShapes};
ghost use Rattle.pb_normal.specs.Normal as normal;
ghost use Rattle.pb_normal.specs.Normalisation as normalisation;
ghost use Rattle.pb_normal.specs.SignedForm.{signed_form};
ghost use Rattle.pb_normal.specs.SlotOrder.{quantified_slots, IsClosed};
ghost use Rattle.pb_normal.specs.Plain.{signed};

/// The normal form of a positive formula is that of its typed tree.
pub fn normal_forms_are_of_typed_trees()
    ensures { (spec : Spec) (f : Original) (even : Bool) (scope : Scope)
        (c : normalisation.Slotting) (n : ℕ) → IsPositive even f
        → normalisation.normal spec even c scope n f
        ≡ signed_form even (elaborated spec c scope n f) }
{}

/// The normal form of a positive formula without quantifiers in data has the formula's truth, where
/// the slots of the variables in scope hold their values; under an odd number of negations, the
/// opposite one.
pub fn normal_forms_keep_truth()
    ensures { (spec : Spec) (t : Environment Instance) (f : Original) (even : Bool) (scope : Scope)
        → IsPositive even f → IsPlain f
        → (c : normalisation.Slotting) (n : ℕ) (a : normal.Slots) (g : Assignment) → AreFree c n
        → Agree c a g
        → normal.truth spec a t (normalisation.normal spec even c scope n f)
        ≡ signed even (truth spec g t f) }
{}

/// In a well-typed specification, and so in a text that typing accepts, the normal form of each
/// equation has the truth of the equation's right side: under every environment, and at every
/// instance whose values the first slots hold.
pub fn normal_equations_keep_truth()
    ensures well_typed { (spec : Spec) → IsWellTyped spec
        → All (NormalFormKeepsTruth spec) spec.equations }
    ensures accepted { (text : SpecForm) → is_faultless text ≡ true
        → All (NormalFormKeepsTruth (erase text)) (erase text).equations }
{}

/// The normal forms of a well-typed specification have the solution of its equations, and with it
/// the answer; so have those of a text that typing accepts.
pub fn normal_forms_have_the_answer()
    ensures solution { (spec : Spec) → IsWellTyped spec
        → (t : Environment Instance) (i : Instance)
        → solution (equations_by spec spec.equations (normal_equations spec)) t i
        ≡ solution (equations_of spec) t i }
    ensures answer { (spec : Spec) → IsWellTyped spec
        → answer_by spec (normal_equations spec) ≡ answer spec }
    ensures accepted { (text : SpecForm) → is_faultless text ≡ true
        → answer_by (erase text) (normal_equations (erase text)) ≡ answer (erase text) }
{}

/// In a well-typed specification, and so in a text that typing accepts, the value of each argument
/// is one of the shape that its normal form keeps: at every instance whose values the first slots
/// hold, and for all values of quantified slots.
pub fn kept_shapes_contain_values()
    ensures well_typed { (spec : Spec) → IsWellTyped spec → All (KeepsShapes spec) spec.equations }
    ensures accepted { (text : SpecForm) → is_faultless text ≡ true
        → All (KeepsShapes (erase text)) (erase text).equations }
{}

/// The quantifiers of an equation's normal form take the slots behind the parameters, in order and
/// each one's own, and each slot that is read is a parameter's or that of a quantifier around.
pub fn slots_are_in_order()
    ensures order { (spec : Spec) (X : Equation)
        → quantified_slots (normal_equation spec X)
        ≡ range_with_len (length X.parameters) (normalisation.width (expanded X.right)) }
    ensures closed { (spec : Spec) (X : Equation)
        → IsClosed (λ s. nat_lt s (length X.parameters)) (normal_equation spec X) }
{}
