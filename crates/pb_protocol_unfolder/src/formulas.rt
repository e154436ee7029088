//! What the formulas of a protocol are unfolded by, beside what its terms are.

ghost use Rattle.std.specs.Prelude.{◌≡◌};
ghost use Rattle.pb_protocol_unfolder.specs.Left.{AreLeft};

use pb_protocol_unfolder_steps::{Instance, Unfolder};
use std::alloc::Global;
use std::marker::Model;

/// What formulas are unfolded by: the protocol, and the steps with their values that are left.
/// Contracts see the protocol.
#[derive(Drop)]
pub(crate) struct Formulas<'a> {
    unfolder: &'a Unfolder<'a, 'a>,
    left: &'a [Instance<'a>],
}

impl<'a> Model for Formulas<'a> {
    ghost use Rattle.pb_protocol_tree.specs.declared.protocol.Protocol.{Protocol};
    ghost use Rattle.pb_protocol_tree.specs.contracts.protocol.Protocol.{the_row};
    ghost use Rattle.pb_protocol_unfolder.specs.Left.{AreLeft};

    ghost Value = { Protocol };

    ghost coded = { the_row.coded };

    ghost view = { λ formulas. formulas.unfolder.now };

    ghost invariant = { λ formulas. AreLeft formulas.unfolder.now formulas.left.now };
}

impl<'a> Formulas<'a> {
    /// What unfolds formulas where these are the steps with their values that are left.
    pub(crate) fn new(unfolder: &'a Unfolder<'a, 'a>, left: &'a [Instance<'a>]) -> Formulas<'a>
        requires { AreLeft unfolder.now left.now }
        ensures { result ≡ unfolder.now }
    {
        Formulas { unfolder, left }
    }

    /// Where memory comes from.
    pub(crate) fn alloc(&self) -> Global {
        self.unfolder.alloc()
    }

    /// What unfolds terms.
    pub(crate) fn unfolder(&self) -> &'a Unfolder<'a, 'a>
        ensures { result.now ≡ self.now }
    {
        self.unfolder
    }

    /// The steps with their values that are left.
    pub(crate) fn left(&self) -> &'a [Instance<'a>]
        ensures { AreLeft self.now result.now }
    {
        self.left
    }
}
