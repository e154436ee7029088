//! Faults of the text of a property, told at the property's name in the model.
ghost use Rattle.std.specs.Prelude.{◌≡◌, ◌<◌, length};
ghost use Rattle.pb_base.specs.OrMemory.{raised};
ghost use Rattle.pb_model_tree.specs.Form.{model_form};
ghost use Rattle.pb_command_models.specs.Models.{IsNamePlace, fault_of_property};

use pb_base::OrMemory;
use pb_command_faults::{PropertyExcess, PropertyFault, SolveFault};
use pb_model_typing::TypedModel;
use pb_text_tree::Place;

/// The place of the name of a property.
pub(crate) fn name_place(model: &TypedModel, property: usize) -> Place
    requires { property < length model.now.model.properties.items }
    ensures { IsNamePlace (model_form model.now.model) property result }
{
    model.model.properties[property].name.place
}

fn fault_of_property(fault: SolveFault, place: Place) -> SolveFault
    ensures { result ≡ fault_of_property place fault }
{
    let excess = match fault {
        SolveFault::Limit(excess) => PropertyExcess::Code(excess.limit),
        SolveFault::TooManyVertices => PropertyExcess::Game,
        other => return other,
    };
    SolveFault::Property(PropertyFault { excess, place })
}

/// An error of the text of the property whose name stands at a place: where the text is too large,
/// the property is.
pub(crate) fn error_of_property(error: OrMemory<SolveFault>, place: Place) -> OrMemory<SolveFault>
    ensures { raised (λ fault above. above ≡ fault_of_property place fault) error result }
{
    match error {
        OrMemory::Refused(fault) => OrMemory::Refused(fault_of_property(fault, place)),
        OrMemory::Memory => OrMemory::Memory,
    }
}
