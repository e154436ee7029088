//! State variables and definitions as terms name them.

ghost use Rattle.std.specs.Prelude.{◌≡◌, ◌++◌, [], map, reverse};
ghost use Rattle.pb_protocol_symmetry.specs.Test.{call_kind, bare_kind, signature_in};
ghost use Rattle.pb_protocol_scalar_sets.specs.View.{known_said, known_kind, signature_behind};
ghost use Rattle.pb_protocol_scalar_sets.specs.View.{signature_said, variable_said};

use crate::kind::Kind;
use crate::variable::Variable;

/// A state variable or a definition: its indices or parameters, and the kind of its values; one
/// without a kind may not be named.
#[derive(Drop)]
pub(crate) struct Signature<'a> {
    pub name: &'a str,
    pub parameters: Vec<Variable<'a>>,
    pub kind: Option<Kind>,
}

impl Signature<'_> {
    /// The kind where no parameters are given.
    pub fn bare_kind(&self) -> Option<Kind>
        ensures { known_kind result ≡ bare_kind (map variable_said self.now.parameters.items)
            (known_kind self.now.kind) }
    {
        if self.parameters.is_empty() {
            self.kind
        } else {
            None
        }
    }
}

/// The state variables and the definitions that may be named, each in order. Where there is no
/// state, no state variables are.
#[derive(Clone, Copy)]
pub(crate) struct Known<'a> {
    pub state: &'a [Signature<'a>],
    pub definitions: &'a [Signature<'a>],
}

/// The first of a name.
fn first_called<'a>(signatures: &'a [Signature<'a>], name: &str) -> Option<&'a Signature<'a>>
    ensures { signature_behind result
        ≡ signature_in (map signature_said signatures.now) name.now }
{
    for signature in signatures {
        if signature.name == name {
            return Some(signature);
        }
    }
    None
}

/// The last of a name.
fn last_called<'a>(signatures: &'a [Signature<'a>], name: &str) -> Option<&'a Signature<'a>>
    ensures { signature_behind result
        ≡ signature_in (reverse (map signature_said signatures.now)) name.now }
{
    let mut found = None;
    for signature in signatures {
        if signature.name == name {
            found = Some(signature);
        }
    }
    found
}

impl<'a> Known<'a> {
    /// What may be named where there is no state.
    pub fn at_start(definitions: &'a [Signature<'a>]) -> Known<'a>
        ensures { known_said result ≡ reverse (map signature_said definitions.now) ++ [] }
    {
        Known {
            state: &[],
            definitions,
        }
    }

    /// What has this name: the last definition, else a state variable.
    pub fn called(&self, name: &str) -> Option<&'a Signature<'a>>
        ensures { signature_behind result ≡ signature_in (known_said self.now) name.now }
    {
        match last_called(self.definitions, name) {
            Some(signature) => Some(signature),
            None => first_called(self.state, name),
        }
    }
}
