//! The laws of normal forms that a compiler builds on: what bounds their numbers, slots, callees
//! and enumerators. The functions do nothing.

ghost use Rattle.std.specs.Prelude.{◌≡◌, length, true};
ghost use Rattle.pb_text_tree.specs.Form.{SpecForm};
ghost use Rattle.pb_text_meaning.specs.Erase.{erase};
ghost use Rattle.pb_text_meaning.specs.Syntax.{Equation, Spec};
ghost use Rattle.pb_typing_rules.specs.WellTyped.{IsWellTyped};
ghost use Rattle.pb_typing.specs.Typed.{is_faultless};
ghost use Rattle.pb_typing_tree.specs.InitialPlace.{HasInitial};
ghost use Rattle.pb_normal.specs.Bounds.{AreBounded, AreSmall};
ghost use Rattle.pb_normal.specs.Calls.{HaveCalls};
ghost use Rattle.pb_normal.specs.Equations.{normal_equation};
ghost use Rattle.pb_normal.specs.Loops.{equation_loops};
ghost use Rattle.pb_normal.specs.SlotOrder.{numbered_slots, quantifiers};
ghost use Rattle.pb_normal.specs.Structs.{struct_counts, AreFew, HaveDeclaredShapes};

/// In a well-typed specification, and so in a text that typing accepts, no number of an equation's
/// normal form is above 2^62, each slot is a parameter's or that of a quantified variable, and each
/// callee and each enumerator is there.
pub fn normal_forms_keep_bounds()
    ensures well_typed { (spec : Spec) → IsWellTyped spec → AreBounded spec }
    ensures accepted { (text : SpecForm) → is_faultless text ≡ true → AreBounded (erase text) }
{}

/// So numbers fit 64 bits, and slots and callees a byte, where an equation has at most
/// `MAX_LOOP_SLOTS` quantified variables.
pub fn normal_forms_are_small()
    ensures well_typed { (spec : Spec) → IsWellTyped spec → AreSmall spec }
    ensures accepted { (text : SpecForm) → is_faultless text ≡ true → AreSmall (erase text) }
{}

/// The quantifiers of an equation's normal form take the slots behind the parameters, each with the
/// shape of its variable.
pub fn quantifiers_take_loops()
    ensures { (spec : Spec) (X : Equation)
        → quantifiers (normal_equation spec X)
        ≡ numbered_slots (length X.parameters) (equation_loops spec X) }
{}

/// In a well-typed specification there are at most `MAX_STRUCTS` structs, each of 1 to
/// `MAX_ENUMERATORS` enumerators.
pub fn structs_are_few()
    ensures well_typed { (spec : Spec) → IsWellTyped spec → AreFew (struct_counts spec.sorts) }
    ensures accepted { (text : SpecForm) → is_faultless text ≡ true
        → AreFew (struct_counts (erase text).sorts) }
{}

/// In a well-typed specification the parameters and quantified variables of equations are of
/// declared sorts with values.
pub fn shapes_are_declared()
    ensures well_typed { (spec : Spec) → IsWellTyped spec → HaveDeclaredShapes spec }
    ensures accepted { (text : SpecForm) → is_faultless text ≡ true
        → HaveDeclaredShapes (erase text) }
{}

/// In a well-typed specification each call of a normal form is of an equation that is there, with
/// an argument for each of its parameters, of the parameter's kind.
pub fn calls_are_full()
    ensures well_typed { (spec : Spec) → IsWellTyped spec → HaveCalls spec }
    ensures accepted { (text : SpecForm) → is_faultless text ≡ true → HaveCalls (erase text) }
{}

/// In a well-typed specification the initial instance is of an equation that is there, and its
/// values are in the carriers of the equation's parameters.
pub fn initial_instances_are_there()
    ensures well_typed { (spec : Spec) → IsWellTyped spec → HasInitial spec }
    ensures accepted { (text : SpecForm) → is_faultless text ≡ true → HasInitial (erase text) }
{}
