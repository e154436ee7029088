//! By which of its steps a protocol goes where the model goes that is solved in its place: by that
//! of the name, and the values, that are told. Definitions, in `specs/`, and laws.

ghost use Rattle.std.specs.Prelude.{Some, [], ◌∷◌, codes};
ghost use Rattle.pb_text_meaning.specs.Syntax.{Term};
ghost use Rattle.pb_protocol_meaning.specs.Syntax.{StepSet};
ghost use Rattle.pb_protocol_meaning.specs.Examples as example;
ghost use Rattle.pb_protocol_laws.specs.NamedSteps.{EachFlatStepIsAnInstance, IsInstanceStep};
ghost use Rattle.pb_protocol_laws.specs.NamedSteps.{FlatStepsAreInstances, InstancesAreApart};
ghost use Rattle.pb_protocol_laws.specs.NamedSteps.{PackedModelsGoByNames, PlainModelsGoByNames};
ghost use Rattle.pb_protocol_laws.specs.NamedSteps.{UnfoldedModelsGoByNames};

use pb_protocol_packing::packed_models_have_the_answer;
use pb_protocol_unfolding::plain_models_keep_their_meaning;

/// Where a plain protocol's own model goes by a step, the protocol goes by the step of that name;
/// where the unfolded one does, by the step and the values of the instance that has the name, or by
/// the step that stays whole; and so it is where the variables of either are packed.
pub fn models_go_by_names()
    ensures plain { PlainModelsGoByNames }
    ensures unfolded { UnfoldedModelsGoByNames }
    ensures packed { PackedModelsGoByNames }
{
    plain_models_keep_their_meaning();
    packed_models_have_the_answer();
}

/// The flat model of a protocol has a step for each instance whose guard isn't folded to `false`,
/// by its name and in their order; no two instances have one name.
pub fn flat_steps_are_instances()
    ensures names { FlatStepsAreInstances }
    ensures each { EachFlatStepIsAnInstance }
    ensures apart { InstancesAreApart }
{}

/// Of two caches, the step that is named `grant'c1'c2` is `grant(c1, c2)`, and not `grant(c2, c1)`.
pub fn worked_instance()
    ensures { IsInstanceStep example.caches (codes "grant'c1'c2")
        (StepSet.With (codes "grant")
        (Some (Term.Named example.c1) ∷ Some (Term.Named example.c2) ∷ [])) }
{}
