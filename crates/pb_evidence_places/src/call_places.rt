//! The places in a text of the calls by which instances of evidence name others.
ghost use Rattle.std.specs.Prelude.{◌≡◌, ◌<◌, ◌++◌, ℕ, List, IfOk, OnOk, length, map};
ghost use Rattle.std.specs.Prelude.{slice_index};
ghost use Rattle.pb_game.specs.Adjacency.{row};
ghost use Rattle.pb_text_tree.specs.Form.{spec_form};
ghost use Rattle.pb_text_meaning.specs.Erase.{erase};
ghost use Rattle.pb_sorts.specs.Layout.{carriers_of, count_of};
ghost use Rattle.pb_fixpoint_trees.specs.Tree.{Tree};
ghost use Rattle.pb_bytecode.specs.Meaning.{AreTrees, parameters};
ghost use Rattle.pb_assembler_modules.specs.Module.{IsCompiledModule};
ghost use Rattle.pb_typing_calls.specs.View.{layout_of, said_by};
ghost use Rattle.pb_report.specs.CallPlaces.{AreCallPlaces};
ghost use Rattle.pb_report.specs.ModuleEvidence.{IsExplanation};
ghost use Rattle.pb_evidence_places.specs.CallPlaces.{place_of_call, told_place};

use pb_evidence::Evidence;
use pb_report::Explanation;
use pb_sorts::Layout;
use pb_text_tree::Place;
use pb_typing::Typed;
use pb_typing_calls::CallPlaces;
use pb_verifier::Verified;
use std::alloc::{AllocError, Global};

/// The places of a text's calls, the instances going by the numbers of a layout of the same
/// carriers.
#[derive(Drop)]
struct NumberedCalls<'a> {
    calls: CallPlaces<'a>,
    layout: &'a Layout,
    pub ghost same: { carriers_of layout.now ≡ carriers_of (layout_of calls) },
}

impl NumberedCalls<'_> {
    /// The place of the first call by which an instance names another, where there is one.
    fn place(&self, alloc: Global, caller: u64, called: u64) -> Result<Option<Place>, AllocError>
        requires caller { caller < count_of self.now.layout.now }
        requires called { called < count_of self.now.layout.now }
        ensures { IfOk result (λ place. place
            ≡ place_of_call (said_by self.now.calls) self.now.layout.now caller called) }
    {
        let caller = self.layout.instance(caller);
        let called = self.layout.instance(called);
        self.calls.place(alloc, &caller, &called)
    }

    /// Puts behind others the places at which an instance names these.
    fn push_places(
        &self,
        alloc: Global,
        caller: u64,
        called: &[u64],
        places: &mut Vec<Option<Place>>,
    ) -> Result<(), AllocError>
        requires caller { caller < count_of self.now.layout.now }
        requires called { (k : ℕ) → k < length called.now
            → slice_index called.now k < count_of self.now.layout.now }
        ensures { OnOk result (places.new.items ≡ places.old.items
            ++ map (place_of_call (said_by self.now.calls) self.now.layout.now caller) called.now) }
    {
        for k in 0..called.len() {
            places.push(self.place(alloc, caller, called[k])?)?;
        }
        Ok(())
    }

    /// The places at which the instances of evidence name others, for the names in their order.
    fn of_evidence(
        &self,
        alloc: Global,
        evidence: &Evidence,
    ) -> Result<Vec<Option<Place>>, AllocError>
        requires callers { (k : ℕ) → k < length evidence.now.instances.items
            → slice_index evidence.now.instances.items k < count_of self.now.layout.now }
        requires called { (k : ℕ) → k < length evidence.now.instances.items → (called : List ℕ)
            → called ≡ row evidence.now.places.items evidence.now.dependencies.items k
            → (j : ℕ) → j < length called
            → slice_index called j < count_of self.now.layout.now }
        ensures { IfOk result (λ places. AreCallPlaces
            (place_of_call (said_by self.now.calls) self.now.layout.now)
            evidence.now places.items) }
    {
        let mut places = Vec::with_capacity(alloc, evidence.dependencies.len())?;
        for k in 0..evidence.instances.len() {
            let caller = evidence.instances[k];
            self.push_places(alloc, caller, evidence.dependencies(k), &mut places)?;
        }
        Ok(places)
    }
}

/// The places of the calls by which the instances of evidence name others, for the names in their
/// order, where places are told; else none.
///
/// # Errors
/// Memory was refused.
pub fn call_places_of(
    alloc: Global,
    typed: &Typed,
    verified: &Verified,
    explanation: &Explanation,
    are_told: bool,
) -> Result<Vec<Option<Place>>, AllocError>
    requires compiled { IsCompiledModule (erase (spec_form typed.now.spec)) verified.now }
    requires trees { (trees : ℕ → Tree) × AreTrees verified.now trees }
    requires explanation { IsExplanation verified.now explanation.now }
    ensures { IfOk result (λ places. AreCallPlaces
        (told_place are_told (spec_form typed.now.spec) (parameters verified.now))
        explanation.now.evidence places.items) }
{
    if !are_told {
        return Ok(Vec::new(alloc));
    }
    let numbered = NumberedCalls {
        calls: CallPlaces::new(typed),
        layout: verified.layout(),
    };
    numbered.of_evidence(alloc, &explanation.evidence)
}
