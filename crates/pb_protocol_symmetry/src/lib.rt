//! Permutations of the elements of a sort under which a protocol is the same (Ip and Dill 1996):
//! which terms, steps and formulas have kinds, and that their meaning is permuted with the
//! elements. No code is here: each function's contract is a law.
#![tactic(auto)]

ghost use Rattle.std.specs.Prelude.{◌≡◌, false, [], ◌∷◌, pos, Some, None};
ghost use Rattle.pb_protocol_meaning.specs.Steps.{data_of, next_state};
ghost use Rattle.pb_protocol_meaning.specs.Examples as protocol;
ghost use Rattle.pb_protocol_symmetry.specs.Examples as example;
ghost use Rattle.pb_protocol_symmetry.specs.Permutation.{Plain};
ghost use Rattle.pb_protocol_symmetry.specs.Test.{kind_in};
ghost use Rattle.pb_protocol_symmetry.specs.Satisfaction.{IsSymmetric, FormulaHasKinds};
ghost use Rattle.pb_protocol_symmetry.specs.Laws.{TermsAreCarried};
ghost use Rattle.pb_protocol_symmetry.specs.Test.{TestedTermsHaveKinds};
ghost use Rattle.pb_protocol_symmetry.specs.ProtocolTest.{signatures_in, is_symmetric};
ghost use Rattle.pb_protocol_symmetry.specs.ProtocolTest.{TestedStepsHaveKinds};
ghost use Rattle.pb_protocol_symmetry.specs.ProtocolTest.{TestedFormulasHaveKinds};
ghost use Rattle.pb_protocol_symmetry.specs.ProtocolTest.{TestedProtocolsAreSymmetric};
ghost use Rattle.pb_protocol_symmetry.specs.States.{FunctionsAreCarried};
ghost use Rattle.pb_protocol_symmetry.specs.Steps.{PermutedStepsAreSteps};
ghost use Rattle.pb_protocol_symmetry.specs.Satisfaction.{PermutedStatesAreStates, SuccessorsArePermuted};
ghost use Rattle.pb_protocol_symmetry.specs.Satisfaction.{SatisfactionIsPermuted};
ghost use Rattle.pb_protocol_symmetry.specs.Satisfaction.{PermutationsAreUndone, RangesArePermuted};

/// The value of a term of a kind is permuted with what its names are.
pub fn terms_are_carried()
    ensures { TermsAreCarried }
{}

/// The values of a protocol's variables and definitions are permuted where its state is.
pub fn functions_are_carried()
    ensures { FunctionsAreCarried }
{}

/// A permuted step is a step.
pub fn permuted_steps_are_steps()
    ensures { PermutedStepsAreSteps }
{}

/// A permuted state is a state.
pub fn permuted_states_are_states()
    ensures { PermutedStatesAreStates }
{}

/// The permutation back undoes a permutation of states, within the ranges and outside.
pub fn permutations_are_undone()
    ensures { PermutationsAreUndone }
{}

/// A permuted state is within the ranges exactly where the state is.
pub fn ranges_are_permuted()
    ensures { RangesArePermuted }
{}

/// A permuted state satisfies a formula exactly where the state does.
pub fn satisfaction_is_permuted()
    ensures { SatisfactionIsPermuted }
{}

/// A set of steps leads from a permuted state where it leads from the state, permuted.
pub fn successors_are_permuted()
    ensures { SuccessorsArePermuted }
{}

/// A term that passes the test has the kind.
pub fn tested_terms_have_kinds()
    ensures { TestedTermsHaveKinds }
{}

/// A step that passes the test has the kinds.
pub fn tested_steps_have_kinds()
    ensures { TestedStepsHaveKinds }
{}

/// A formula that passes the test has the kinds.
pub fn tested_formulas_have_kinds()
    ensures { TestedFormulasHaveKinds }
{}

/// A protocol that passes the test is symmetric.
pub fn tested_protocols_are_symmetric()
    ensures { TestedProtocolsAreSymmetric }
{}

/// The caches of pb_protocol_meaning may be permuted, and what they satisfy; not where one of them
/// is named, unless it stays, and not where they are ordered. Nodes that vote may be permuted where
/// each node's vote is published, and not where the last node becomes the leader: it is node 3 also
/// where nodes 1 and 3 are exchanged.
pub fn worked_examples()
    ensures symmetric { IsSymmetric protocol.caches example.cache_sort example.both_caches
        example.signatures }
    ensures one_writer { FormulaHasKinds protocol.caches example.cache_sort example.both_caches
        example.signatures [] protocol.one_writer }
    ensures reads_share { FormulaHasKinds protocol.caches example.cache_sort example.both_caches
        example.signatures [] protocol.reads_share }
    ensures named { kind_in (data_of protocol.caches) example.cache_sort example.both_caches
        example.signatures.at_states [] example.owns_c1 ≡ None }
    ensures fixed { kind_in (data_of protocol.caches) example.cache_sort (pos 1 ∷ [])
        example.signatures.at_states [] example.owns_c1 ≡ Some Plain }
    ensures ordered { kind_in (data_of protocol.caches) example.cache_sort example.both_caches
        example.signatures.at_states [] example.owner_below ≡ None }
    ensures each_node { IsSymmetric (example.ballot example.all_seen) example.node_sort
        example.three_nodes (signatures_in (example.ballot example.all_seen) example.node_sort
        example.three_nodes) }
    ensures last_node { is_symmetric (example.ballot example.all_lead) example.node_sort
        example.three_nodes ≡ false }
    ensures third { next_state (example.ballot example.all_lead) example.first_leads
        (example.step_by example.all_lead) []
        ≡ pos 1 ∷ pos 1 ∷ pos 0 ∷ pos 0 ∷ pos 0 ∷ pos 0 ∷ pos 3 ∷ [] }
    ensures third_again { next_state (example.ballot example.all_lead) example.third_leads
        (example.step_by example.all_lead) []
        ≡ pos 0 ∷ pos 1 ∷ pos 1 ∷ pos 0 ∷ pos 0 ∷ pos 0 ∷ pos 3 ∷ [] }
    ensures counted { kind_in (data_of (example.ballot example.all_seen)) example.node_sort
        example.three_nodes (signatures_in (example.ballot example.all_seen) example.node_sort
        example.three_nodes).at_states [] protocol.votes_counted ≡ Some Plain }
{}
