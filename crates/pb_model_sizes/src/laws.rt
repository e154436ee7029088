//! A law about the definitions: the equations that are counted are those of the text of a property.

ghost use Rattle.std.specs.Prelude.{◌≡◌, []};
ghost use Rattle.pb_text_meaning.specs.Erase as texts;
ghost use Rattle.pb_model_translation.specs.Translation.{total_count};
ghost use Rattle.pb_protocol_tree.specs.Form.{FormulaForm, ProtocolForm};
ghost use Rattle.pb_protocol_meaning.specs.Erase.{erase, erased_formula};
ghost use Rattle.pb_protocol_typing.specs.Faults.{data_form};
ghost use Rattle.pb_protocol_unfolding.specs.Unfolding.{unfolded_formula};
ghost use Rattle.pb_model_sizes.specs.Equations.{total_equations};

/// A formula has as many equations as the translation of the formula that it is unfolded to.
pub fn equations_are_those_of_translations()
    ensures { (text : ProtocolForm) (f : FormulaForm)
        → total_equations (texts.erase (data_form text)) f
        ≡ total_count (unfolded_formula (erase text) [] (erased_formula f)) }
{}
