//! What is known of the names in evidence. The function does nothing: a law stands on its contract.
ghost use Rattle.pb_text_tree.specs.Form.{SpecForm};
ghost use Rattle.pb_text_meaning.specs.Erase.{erase};
ghost use Rattle.pb_typing_rules.specs.WellTyped.{IsWellTyped};
ghost use Rattle.pb_bytecode.specs.Contents.{Contents};
ghost use Rattle.pb_bytecode.specs.Meaning.{parameters};
ghost use Rattle.pb_assembler_modules.specs.Module.{IsCompiledModule};
ghost use Rattle.pb_game_of_trees.specs.Explored.{ModuleHasTrees};
ghost use Rattle.pb_evidence.specs.Evidence.{graph_of};
ghost use Rattle.pb_evidence.specs.declared.Evidence.{Evidence};
ghost use Rattle.pb_report.specs.ModuleEvidence.{IsModuleEvidence};
ghost use Rattle.pb_evidence_places.specs.CallPlaces.{AreCalled};

use pb_normal::laws::normal_forms_are_of_typed_trees;

/// Let a module be that of a well-typed text. In whatever evidence for its answer, each instance
/// that another one rests on is named by a call that the other's right side makes in the text.
pub fn named_instances_are_called()
    ensures { (text : SpecForm) (m : Contents) (e : Evidence) → IsWellTyped (erase text)
        → IsCompiledModule (erase text) m → ModuleHasTrees m → IsModuleEvidence m e
        → AreCalled text (parameters m) (graph_of e) }
{
    normal_forms_are_of_typed_trees();
}
