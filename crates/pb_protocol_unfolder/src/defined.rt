//! Definitions that stand for values in sets of steps.

ghost use Rattle.std.specs.Prelude.{◌≡◌, ◌&&◌, string_bytes};
ghost use Rattle.pb_text_tree.specs.Form.{variable_forms};
ghost use Rattle.pb_text_meaning.specs.Syntax.{same_name};
ghost use Rattle.pb_protocol_folding.specs.View.{term_of};
ghost use Rattle.pb_protocol_unfolder.specs.Defined.{IsNameIn, definitions_said, stands_for};
ghost use Rattle.pb_protocol_unfolder.specs.Defined.{term_defined};
ghost use Rattle.pb_protocol_unfolder.specs.Plain.{has_no_variables};

use crate::plain_test::declares_none;
use pb_protocol_tree::Definition;
use pb_text_tree::{Name, Term, Variables};

/// What a name stands for that no variable has: the term of the last definition of that name
/// without parameters, and where that is a name again what it stands for by those before it.
pub(crate) enum Resolved<'a> {
    /// A definition's term that is no name.
    Term(&'a Term),
    /// A name that no definition has.
    Name(&'a Name),
}

/// The name that a term is. A chain and arithmetic without links are their operands.
fn name_in(term: &Term) -> Option<&Name>
    ensures { IsNameIn result (term_of term.now) }
{
    match term {
        Term::Name(name) => Some(name),
        Term::Chain { first, links, .. } => {
            if links.is_empty() {
                return name_in(first);
            }
            None
        }
        Term::Arithmetic { first, links } => {
            if links.is_empty() {
                return name_in(first);
            }
            None
        }
        _ => None,
    }
}

/// Whether a definition has this name, and no parameters.
fn is_meant(declared: &str, parameters: &[Variables], name: &str) -> bool
    ensures { result ≡ (same_name declared.now name.now
        && has_no_variables (variable_forms parameters.now)) }
{
    declared == name && declares_none(parameters)
}

/// What a name stands for by these definitions.
pub(crate) fn resolve<'a>(definitions: &'a [Definition], name: &'a Name) -> Resolved<'a>
    ensures { term_defined result ≡ stands_for (definitions_said definitions.now)
        (string_bytes name.now.text) }
{
    let mut found = name;
    for place in (0..definitions.len()).rev() {
        let definition = &definitions[place];
        let declared = definition.name.text.as_str();
        if is_meant(declared, &definition.parameters, found.text.as_str()) {
            match name_in(&definition.term) {
                Some(other) => found = other,
                None => return Resolved::Term(&definition.term),
            }
        }
    }
    Resolved::Name(found)
}
