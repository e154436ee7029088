//! What a name stands for in the data of a protocol.

ghost use Rattle.std.specs.Prelude.{◌≡◌, Some};
ghost use Rattle.std.specs.Option.{option_map};
ghost use Rattle.pb_text_tree.specs.Form.{named};
ghost use Rattle.pb_protocol_typing.specs.Scopes.{meaning_fault, meaning_kind, name_meaning};
ghost use Rattle.pb_protocol_typing.specs.Scopes.{unknown_fault, unless_state};
ghost use Rattle.pb_protocol_typing.specs.View.{binders, scope_of, signature_behind};

use crate::around::{Around, is_fixpoint, sort_around};
use crate::kind::{Kind, sort_kind};
use crate::signature::Signature;
use pb_text_tree::Name;
use pb_typing_declarations::{Declarations, TypingFault, TypingRule};
use std::collections::HashMap;

/// Which of the state variables and definitions may be named.
#[derive(Clone, Copy)]
pub(crate) enum Naming {
    All,
    /// The definitions that don't read the state, at the start.
    AtStart,
}

/// What a text declares, the state variables and definitions, of which some may be named, and what
/// stands around.
#[derive(Clone, Copy)]
pub(crate) struct Scope<'a, 'd> {
    pub declarations: &'a Declarations<'d>,
    pub signatures: &'a HashMap<&'d str, Signature>,
    pub naming: Naming,
    pub around: &'a Around<'a>,
}

/// A state variable or definition, unless it reads the state.
pub(crate) fn unless_state(signature: Option<&Signature>) -> Option<&Signature>
    ensures { signature_behind result ≡ unless_state (signature_behind signature.entry) }
{
    match signature {
        Some(signature) if !signature.reads_state => Some(signature),
        _ => None,
    }
}

impl<'a> Scope<'a, '_> {
    /// The state variable or definition of a name, if it may be named.
    pub fn signature(&self, name: &str) -> Option<&'a Signature>
        ensures { signature_behind result ≡ (scope_of self.now).signatures name.now }
    {
        let signature = self.signatures.get(name);
        match self.naming {
            Naming::All => signature,
            Naming::AtStart => unless_state(signature),
        }
    }
}

/// What a bare name stands for.
#[derive(Clone, Copy)]
pub(crate) enum NameMeaning {
    Value(Kind),
    /// An array without its indices, or a definition without its arguments.
    WithoutArguments,
    Nothing,
}

/// A bare name: a variable around, else a state variable or definition, else an enumerator.
pub(crate) fn name_meaning(scope: &Scope<'_, '_>, name: &str) -> NameMeaning
    ensures { result ≡ name_meaning (scope_of scope.now) name.now }
{
    if let Some(sort) = sort_around(scope.around, name) {
        return NameMeaning::Value(sort_kind(scope.declarations, &sort.text));
    }
    if let Some(signature) = scope.signature(name) {
        if signature.parameters.is_empty() {
            return NameMeaning::Value(signature.kind);
        }
        return NameMeaning::WithoutArguments;
    }
    match scope.declarations.enumerator(name) {
        Some(enumerator) => NameMeaning::Value(Kind::Struct(enumerator.sort)),
        None => NameMeaning::Nothing,
    }
}

/// The kind of what a name stands for.
pub(crate) fn meaning_kind(meaning: NameMeaning) -> Kind
    ensures { result ≡ meaning_kind meaning }
{
    match meaning {
        NameMeaning::Value(kind) => kind,
        NameMeaning::WithoutArguments | NameMeaning::Nothing => Kind::Unknown,
    }
}

/// What is wrong with a name that stands for nothing.
pub(crate) fn unknown_fault(around: &Around<'_>, name: &Name) -> TypingFault
    ensures { Some result ≡ unknown_fault (binders around.now) (named name.now) }
{
    let rule = if is_fixpoint(around, &name.text) {
        TypingRule::PredicateInData
    } else {
        TypingRule::UnknownName
    };
    TypingFault {
        rule,
        place: name.place,
    }
}

/// What is wrong with a bare name in data.
pub(crate) fn name_fault(scope: &Scope<'_, '_>, name: &Name) -> Option<TypingFault>
    ensures { result ≡ meaning_fault (binders scope.now.around.now)
        (name_meaning (scope_of scope.now) (named name.now).text) (named name.now) }
{
    match name_meaning(scope, &name.text) {
        NameMeaning::Value(_) => None,
        NameMeaning::WithoutArguments => Some(TypingFault {
            rule: TypingRule::WrongCount,
            place: name.place,
        }),
        NameMeaning::Nothing => Some(unknown_fault(scope.around, name)),
    }
}
