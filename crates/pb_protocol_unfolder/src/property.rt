//! Properties without quantifiers over formulas.

ghost use Rattle.std.specs.Prelude.{◌≡◌, [], map, IfOk};
ghost use Rattle.pb_base.specs.OrMemory.{IfRefused};
ghost use Rattle.pb_model_tree.specs.Form as flat_form;
ghost use Rattle.pb_protocol_tree.specs.Form.{property_form};
ghost use Rattle.pb_protocol_folding.specs.Places.{AreAmong, places_of};
ghost use Rattle.pb_protocol_unfolder_steps.specs.Unfolder.{form_in};
ghost use Rattle.pb_protocol_unfolder.specs.Faults.{IsFaultOfProperties, IsFaultOfProperty};
ghost use Rattle.pb_protocol_unfolder.specs.Parts.{IsFaultBy};
ghost use Rattle.pb_protocol_unfolder.specs.Places.{HavePlaces, places_in};
ghost use Rattle.pb_protocol_unfolder.specs.Unfolded.{flat_name, left_property, property_name};
ghost use Rattle.pb_protocol_unfolder.specs.Unfolded.{property_said};

use crate::fault::UnfoldingError;
use crate::formula::unfold_formula;
use crate::formulas::Formulas;
use crate::room::Room;
use crate::value_scope::ValueScope;
use pb_model_tree as flat;
use pb_protocol_tree::Property;
use pb_protocol_unfolder_terms::TermScope;
use pb_text_tree::copy_name;

/// A property whose formula has no quantifiers, folded.
fn unfold_property(
    formulas: &Formulas<'_>,
    property: &Property,
) -> Result<flat::Property, UnfoldingError>
    ensures property { IfOk result (λ p. property_said p
        ≡ left_property formulas.now property.now) }
    ensures name { IfOk result (λ p. flat_name p ≡ property_name property.now) }
    ensures places { IfOk result
        (λ p. AreAmong (places_of p.formula) (places_in property.now.formula)) }
    ensures refused { IfRefused result
        (IsFaultBy (IsFaultOfProperty (form_in formulas.now)
        (property_form property.now))) }
{
    let name = copy_name(formulas.alloc(), &property.name)?;
    let mut room = Room::whole();
    let scope = ValueScope {
        names: TermScope::Empty,
    };
    let formula = unfold_formula(formulas, &scope, &mut room, &property.formula)?;
    Ok(flat::Property { name, formula })
}

/// Properties whose formulas have no quantifiers, folded.
pub(crate) fn unfold_properties(
    formulas: &Formulas<'_>,
    properties: &[Property],
) -> Result<Vec<flat::Property>, UnfoldingError>
    ensures properties { IfOk result (λ v. map property_said v.items
        ≡ map (left_property formulas.now) properties.now) }
    ensures names { IfOk result
        (λ v. map flat_name v.items ≡ map property_name properties.now) }
    ensures places { IfOk result (λ v. HavePlaces (map property_form properties.now)
        (map flat_form.property_form v.items)) }
    ensures refused { IfRefused result
        (IsFaultBy (IsFaultOfProperties (form_in formulas.now)
        (map property_form properties.now))) }
{
    let mut unfolded = Vec::new(formulas.alloc());
    for property in properties {
        unfolded.push(unfold_property(formulas, property)?)?;
    }
    Ok(unfolded)
}
