//! What names mean by the definitions and state variables of a protocol.

ghost use Rattle.std.specs.Prelude.{◌≡◌, ◌<◌, ◌≤◌, ◌&&◌, true, length, map, take, IfOk, IfSome};
ghost use Rattle.std.specs.Prelude.{Contains, Some, string_bytes};
ghost use Rattle.std.specs.List.{slice_get};
ghost use Rattle.pb_text_meaning.specs.Syntax as syntax;
ghost use Rattle.pb_protocol_unfolding.specs.PutIn as spec;
ghost use Rattle.pb_protocol_unfolder_terms.specs.Contexts.{definition_of, definition_term, forms_in};
ghost use Rattle.pb_protocol_unfolder_terms.specs.Contexts.{meant_term, terms_count};
ghost use Rattle.pb_protocol_unfolder_terms.specs.Contexts.{state_variable_of, variable_term};
ghost use Rattle.pb_protocol_unfolder_terms.specs.Counts.{AreCounts, count_of};
ghost use Rattle.pb_protocol_unfolder_terms.specs.declared.context.Definition as declared_definition;
ghost use Rattle.pb_protocol_unfolder_terms.specs.Tells.{IsNamed};
ghost use Rattle.pb_protocol_unfolder_terms.specs.View.{variable_of};

use crate::context::{Context, Definition, StateVariable};
use crate::sorts::Variable;
use std::alloc::{AllocError, Global};
use std::collections::HashMap;

/// Whether a declaration is meant by a name with so many arguments.
fn is_meant(declared: &str, variables: &[Variable<'_>], name: &str, count: usize) -> bool
    ensures named { result ≡ true → declared.now ≡ name.now }
    ensures meant { (ts : syntax.Terms) → terms_count ts ≡ count
        → result ≡ (syntax.same_name declared.now name.now
        && spec.are_as_many (map variable_of variables.now) ts) }
{
    declared == name && variables.len() == count
}

/// The place of the last definition of a name with so many parameters, among the first so many.
pub(crate) fn definition_at(
    definitions: &[Definition<'_>],
    limit: usize,
    name: &str,
    count: usize,
) -> Option<usize>
    requires { limit ≤ length definitions.now }
    ensures within { IfSome result (λ k. k < limit) }
    ensures named { IfSome result (λ k. (d : declared_definition.Definition)
        → slice_get definitions.now k ≡ Some d → d.name.now ≡ name.now) }
    ensures meant { (sorts : syntax.Spec) (base : spec.Forms) (ts : syntax.Terms)
        → terms_count ts ≡ count
        → spec.with_definitions sorts base (take limit (map definition_of definitions.now))
        name.now ts
        ≡ definition_term sorts base (map definition_of definitions.now) result name.now ts }
{
    for place in (0..limit).rev() {
        let definition = &definitions[place];
        if is_meant(definition.name, &definition.parameters, name, count) {
            return Some(place);
        }
    }
    None
}

/// The first state variable of a name with so many indices.
pub(crate) fn variable_at<'a>(
    variables: &'a [StateVariable<'a>],
    name: &str,
    count: usize,
) -> Option<&'a StateVariable<'a>>
    ensures named { IfSome result (λ y. Contains variables.now y.now
        × (string_bytes y.now.name.now.text ≡ name.now)) }
    ensures meant { (sorts : syntax.Spec) (ts : syntax.Terms) → terms_count ts ≡ count
        → spec.reads sorts (map state_variable_of variables.now) name.now ts
        ≡ variable_term sorts result ts }
{
    for variable in variables {
        if is_meant(variable.name.text.as_str(), &variable.indices, name, count) {
            return Some(variable);
        }
    }
    None
}

/// How many definitions there are up to the last of each name, so that a name is looked up in a
/// time that doesn't grow with the definitions.
pub(crate) fn definition_counts<'a>(
    alloc: Global,
    definitions: &[Definition<'a>],
) -> Result<HashMap<&'a str, usize>, AllocError>
    ensures { IfOk result (λ counts. AreCounts counts definitions.now) }
{
    let mut counts = HashMap::new(alloc);
    for place in 0..definitions.len() {
        counts.insert(definitions[place].name, place + 1)?;
    }
    Ok(counts)
}

/// What a name with arguments means.
#[derive(Clone, Copy)]
pub(crate) enum Meant<'a> {
    /// Neither a definition nor a state variable.
    Neither,
    /// A definition, with so many before it.
    Definition(&'a Definition<'a>, usize),
    Variable(&'a StateVariable<'a>),
}

impl<'a> Context<'a> {
    /// How many definitions there are up to the last of a name.
    fn definition_count(&self, name: &str) -> usize
        ensures { result ≡ count_of self.now.counts name.now }
    {
        self.counts.get(name).copied().unwrap_or(0)
    }

    /// What a name with so many arguments means by so many of the definitions.
    pub(crate) fn meant(&'a self, definitions: usize, name: &str, count: usize) -> Meant<'a>
        ensures named { IsNamed self.now definitions name.now result }
        ensures meant { (ts : syntax.Terms) → terms_count ts ≡ count
            → forms_in self.now definitions name.now ts ≡ meant_term self.now result ts }
    {
        let among = definitions.min(self.definitions.len());
        let limit = among.min(self.definition_count(name));
        match definition_at(&self.definitions, limit, name, count) {
            Some(place) => Meant::Definition(&self.definitions[place], place),
            None => match variable_at(&self.variables, name, count) {
                Some(variable) => Meant::Variable(variable),
                None => Meant::Neither,
            },
        }
    }
}
