//! From a model to one with fewer state variables, and why it satisfies what the model does:
//! definitions, in `specs/`, laws, and the limit of a group.
#![tactic(auto)]

mod limits;

ghost use Rattle.std.specs.Prelude.{◌≡◌, true, false, List, [], ◌∷◌, map, length, pos, codes, Some};
ghost use Rattle.pb_base_values.specs.Carrier.{Tuple};
ghost use Rattle.pb_model_meaning.specs.Syntax.{StepSet, Formula};
ghost use Rattle.pb_model_meaning.specs.Steps.{initial_state, is_state, state_count, successors};
ghost use Rattle.pb_model_meaning.specs.Satisfaction.{satisfies};
ghost use Rattle.pb_text_meaning.specs.Syntax.{Term};
ghost use Rattle.pb_model_meaning.specs.Examples.{n, k, trying};
ghost use Rattle.pb_protocol_packing.specs.Packing.{packed_formula, tests_of, variable_of};
ghost use Rattle.pb_protocol_packing.specs.Packing.{with_groups};
ghost use Rattle.pb_protocol_packing.specs.Said.{said};
ghost use Rattle.pb_protocol_packing.specs.Unpacked.{unpacked};
ghost use Rattle.pb_protocol_packing.specs.Sizes.{group_sizes};
ghost use Rattle.pb_protocol_packing.specs.Groups.{groups_of, packed, said_formula};
ghost use Rattle.pb_protocol_packing.specs.Packable.{IsPackable};
ghost use Rattle.pb_protocol_packing.specs.Laws.{PackedModelsSatisfyTheSame, PropertiesStay};
ghost use Rattle.pb_protocol_packing.specs.Laws.{PackedTranslationsHaveTheAnswer};
ghost use Rattle.pb_protocol_packing.specs.Laws.{HaveFewVariables, PackedNamesAreApart};
ghost use Rattle.pb_protocol_packing.specs.Laws.{FewStatesMakeSmallGroups, FixpointsKeepTheirNames};
ghost use Rattle.pb_protocol_packing.specs.Laws.{StatesStandForStates};
ghost use Rattle.pb_protocol_packing.specs.Examples as example;

pub use limits::MAX_GROUP_VALUES;

/// A machine of three variables as one variable, as the definitions compute it.
pub fn worked_examples()
    ensures initial { initial_state example.packed_machine ≡ pos 4 ∷ [] }
    ensures states { state_count example.packed_machine ≡ state_count example.machine }
    ensures go { successors example.packed_machine (StepSet.Only (codes "go")) (pos 6 ∷ [])
        ≡ (pos 10 ∷ []) ∷ [] }
    ensures leaves { successors example.packed_machine (StepSet.Only (codes "up")) (pos 11 ∷ [])
        ≡ (pos 24 ∷ []) ∷ [] }
    ensures back { successors example.packed_machine (StepSet.Only (codes "back")) (pos 11 ∷ [])
        ≡ (pos 12 ∷ []) ∷ (pos 13 ∷ []) ∷ (pos 14 ∷ []) ∷ [] }
    ensures values { unpacked example.groups (pos 11 ∷ []) ≡ pos 1 ∷ pos 0 ∷ pos 4 ∷ [] }
    ensures test { said (with_groups example.groups []) example.is_trying
        ≡ example.packed_is_trying }
    ensures number { said (with_groups example.groups []) (Term.Named n) ≡ example.packed_n }
    ensures unseen { tests_of (Some (Term.Named k)) example.member_p ≡ example.tested_p ∷ [] }
    ensures seen { tests_of (Some (Term.Named trying)) example.member_p ≡ [] }
    ensures packed_formula { satisfies example.packed_machine
        (packed_formula example.groups example.went) ≡ true }
    ensures formula { satisfies example.machine example.went ≡ true }
{}

/// The machine has what a model has to have to be packed.
pub fn worked_machine()
    ensures { IsPackable example.machine }
{}

/// A model whose variables are put together in groups satisfies the packed formula exactly where
/// the model satisfies the formula.
pub fn packed_models_satisfy_the_same()
    ensures { PackedModelsSatisfyTheSame }
{}

/// Nine flags in eight groups: the first two become one variable. Two variables with 2^16 values
/// each are in two groups, the second with all that stand behind.
pub fn worked_groups()
    ensures count { length (groups_of example.ring) ≡ 8 }
    ensures first { map variable_of (groups_of example.ring) ≡ example.ring_variables }
    ensures packed { satisfies (packed example.ring) (said_formula example.ring example.one_moves)
        ≡ true }
    ensures model { satisfies example.ring example.one_moves ≡ true }
    ensures wide { group_sizes example.wide ≡ 1 ∷ 8 ∷ [] }
{}

/// The packed model has at most eight variables, none of which that several became has a fixpoint's
/// name; it satisfies a property where the model does, and so the answer of the property's
/// translation is; and its states stand for states of the model.
pub fn packed_models_have_the_answer()
    ensures names { PackedNamesAreApart }
    ensures fixpoints { FixpointsKeepTheirNames }
    ensures few { HaveFewVariables }
    ensures properties { PropertiesStay }
    ensures translation { PackedTranslationsHaveTheAnswer }
    ensures states { StatesStandForStates }
{}

/// Groups of a model with at most 2^62 states, and one at least, have no more values than a group
/// may have.
pub fn few_states_make_small_groups()
    ensures { FewStatesMakeSmallGroups }
{}
