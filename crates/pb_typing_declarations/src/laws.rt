//! Laws about the definitions: the lists of faults, with places, and the relations without places
//! agree.

ghost use Rattle.std.specs.Prelude.{◌≡◌, ◌≢◌, ◌≤◌, ◌↔◌, ℕ, [], List, true};
ghost use Rattle.pb_text_tree.specs.Form.{SpecForm, VariableForm};
ghost use Rattle.pb_text_meaning.specs.Syntax.{Name, Spec};
ghost use Rattle.pb_text_meaning.specs.Sorts.{carrier_of};
ghost use Rattle.pb_text_meaning.specs.Erase.{erase, erased_variables};
ghost use Rattle.pb_typing_declarations.specs.Shapes.{Unknown, end_of, shape_carrier, sort_shape};
ghost use Rattle.pb_typing_declarations.specs.Declarations.{declaration_faults, variables_faults};
ghost use Rattle.pb_typing_declarations.specs.WellDeclared.{AreVariables, HaveEnds, IsDeclared};
ghost use Rattle.pb_typing_declarations.specs.WellDeclared.{IsDeclaredWithin};
ghost use Rattle.pb_sorts.specs.declared.counting.TheConstants.{MAX_NUMBERS};
ghost use Rattle.pb_typing_declarations.specs.WellDeclared.{has_shape};

/// A text's declarations have no fault exactly where what it says is declared as it must be, with
/// no more instances than the limit.
pub fn no_faults_where_declared()
    ensures { (limit : ℕ) (text : SpecForm) → limit ≤ MAX_NUMBERS
        → (declaration_faults limit text ≡ []) ↔ IsDeclaredWithin limit (erase text) }
{}

/// Where declarations are as they must be, the chain of each declared sort has an end.
pub fn declared_sorts_have_ends()
    ensures { (S : Spec) → IsDeclared S → HaveEnds S }
{}

/// Where each declared sort has an end, one list of variables has no fault exactly where its names
/// are apart and each sort has values. A sort without an end fails where it is declared.
pub fn no_faults_where_variables()
    ensures { (S : Spec) (xs : List VariableForm) → HaveEnds S
        → (variables_faults S xs ≡ []) ↔ AreVariables S (erased_variables xs) }
{}

/// A sort's carrier is that of its shape, and a sort that has values has a shape that is known.
pub fn shapes_have_carriers()
    ensures carrier { (S : Spec) (s : Name) → shape_carrier (sort_shape S s) ≡ carrier_of S s }
    ensures known { (S : Spec) (s : Name) → has_shape (end_of S s) ≡ true
        → sort_shape S s ≢ Unknown }
{}
