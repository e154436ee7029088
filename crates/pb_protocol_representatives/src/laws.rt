//! Sequences of exchanges as symmetries: what makes them ones of a module.

ghost use Rattle.pb_protocol_representatives.specs.Laws.{NeighboursAreSymmetries};
ghost use Rattle.pb_protocol_representatives.specs.Laws.{SequencesAreSymmetries};

/// A sequence of symmetries is one.
pub fn sequences_are_symmetries()
    ensures { SequencesAreSymmetries }
{
    pb_fixpoint_symmetry::symmetries_compose::<u64>();
}

/// Where each exchange of two elements is a symmetry, that of neighbours is one.
pub fn neighbours_are_symmetries()
    ensures { NeighboursAreSymmetries }
{}
