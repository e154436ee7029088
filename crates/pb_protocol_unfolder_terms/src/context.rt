//! What terms are unfolded by: the sorts, state variables and definitions of a protocol.

ghost use Rattle.pb_protocol_unfolder_terms.specs.Counts.{AreCounts};

use crate::sorts::{Sorts, Variable};
use pb_protocol_folding::Folding;
use pb_text_tree::{Name, Range, SortDeclaration, Term};
use std::alloc::Global;
use std::collections::HashMap;

/// A state variable with its indices, of which a plain one has none.
#[derive(Drop)]
pub(crate) struct StateVariable<'a> {
    pub name: &'a Name,
    pub indices: Vec<Variable<'a>>,
    pub sort: &'a str,
}

/// A definition with its parameters.
#[derive(Drop)]
pub(crate) struct Definition<'a> {
    pub name: &'a str,
    pub parameters: Vec<Variable<'a>>,
    pub term: &'a Term,
}

/// What terms are unfolded by: the sorts, state variables and definitions of a protocol.
#[derive(Drop)]
pub struct Context<'a> {
    pub(crate) alloc: Global,
    pub(crate) declarations: &'a [SortDeclaration],
    pub(crate) ranges: &'a [Range],
    pub(crate) variables: Vec<StateVariable<'a>>,
    pub(crate) definitions: Vec<Definition<'a>>,
    /// How many definitions there are up to the last of each name.
    pub(crate) counts: HashMap<&'a str, usize>,
    ghost counted: { AreCounts counts definitions.items },
}

impl Context<'_> {
    ghost use Rattle.std.specs.Prelude.{◌≡◌};
    ghost use Rattle.pb_protocol_unfolder_terms.specs.Contexts.{spec_in};
    ghost use Rattle.pb_protocol_unfolder_terms.specs.View as view;

    /// What terms are folded with.
    pub(crate) fn folding(&self) -> Folding<'_>
        ensures { result.sorts.now ≡ self.now.declarations.now }
    {
        Folding {
            alloc: self.alloc,
            sorts: self.declarations,
        }
    }

    /// What names of sorts mean.
    pub(crate) fn sorts(&self) -> Sorts<'_>
        ensures { view.spec_of result ≡ spec_in self.now }
    {
        Sorts {
            declarations: self.declarations,
            ranges: self.ranges,
        }
    }
}
