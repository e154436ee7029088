//! What the joint invariant says of each one. The function does nothing: the law stands on its
//! contract.

ghost use Rattle.pb_model_invariants.specs.Laws.{JointInvariantsHold};

/// A model that satisfies the joint invariant satisfies each of the invariants.
pub fn joint_invariants_hold()
    ensures { JointInvariantsHold }
{}
