//! The values that are named in sets of steps.

ghost use Rattle.std.specs.Prelude.{◌≡◌, [], Some, IfOk, string_bytes};
ghost use Rattle.pb_base.specs.OrMemory.{IfRefused};
ghost use Rattle.pb_text_meaning.specs.Syntax as syntax;
ghost use Rattle.pb_text_meaning.specs.Value.{value};
ghost use Rattle.pb_protocol_folding.specs.Folding as folding;
ghost use Rattle.pb_protocol_folding.specs.View.{term_of};
ghost use Rattle.pb_protocol_meaning.specs.Steps.{data_of};
ghost use Rattle.pb_protocol_unfolder_terms.specs.Values.{written_term};
ghost use Rattle.pb_protocol_unfolder_steps.specs.Unfolder.{protocol_in, scope_within};
ghost use Rattle.pb_protocol_unfolder.specs.Defined.{stands_for};
ghost use Rattle.pb_protocol_unfolder.specs.Faults.{HasNoValue, meant};
ghost use Rattle.pb_protocol_unfolder.specs.Parts.{IsAt, IsFaultIn};
ghost use Rattle.pb_protocol_unfolder.specs.Values.{value_of_named};

use crate::bound::bound_value;
use crate::defined::{Resolved, resolve};
use crate::fault::{UnfoldingError, UnfoldingRule, refused};
use crate::value_scope::ValueScope;
use pb_protocol_folding::written_value;
use pb_protocol_unfolder_steps::Unfolder;
use pb_protocol_unfolder_terms::Written;
use pb_text_tree::{Name, Place, Term, copy_name};

/// The value of a term that is written as one; another is refused at the place.
fn plain_value(
    unfolder: &Unfolder<'_, '_>,
    place: Place,
    term: &Term,
) -> Result<i32, UnfoldingError>
    ensures value { IfOk result (λ v. folding.written_value (data_of (protocol_in unfolder.now))
        (term_of term.now) ≡ Some v) }
    ensures refused { IfRefused result (IsFaultIn (IsAt place
        (HasNoValue (protocol_in unfolder.now) (term_of term.now)))) }
{
    written_value(&unfolder.protocol().sorts, term).ok_or(refused(UnfoldingRule::Value, place))
}

/// The value of a value as it is written; one that isn't a number of 32 bits is refused at the
/// place.
pub(crate) fn value_of_written(
    unfolder: &Unfolder<'_, '_>,
    place: Place,
    written: Written<'_>,
) -> Result<i32, UnfoldingError>
    ensures value { IfOk result
        (λ v. v ≡ value (data_of (protocol_in unfolder.now)) [] (written_term written.entry)) }
    ensures refused { IfRefused result (IsFaultIn (IsAt place
        (HasNoValue (protocol_in unfolder.now) (written_term written.entry)))) }
{
    let term = written.term(unfolder.alloc(), place)?;
    plain_value(unfolder, place, &term)
}

/// The value of a name that no quantifier's variable and no definition has: that of an enumerator.
fn value_of_name(
    unfolder: &Unfolder<'_, '_>,
    place: Place,
    name: &Name,
) -> Result<i32, UnfoldingError>
    ensures value { IfOk result (λ v. folding.written_value (data_of (protocol_in unfolder.now))
        (syntax.Term.Named (string_bytes name.now.text)) ≡ Some v) }
    ensures refused { IfRefused result (IsFaultIn (IsAt place (HasNoValue
        (protocol_in unfolder.now) (syntax.Term.Named (string_bytes name.now.text))))) }
{
    let copy = copy_name(unfolder.alloc(), name)?;
    plain_value(unfolder, place, &Term::Name(copy))
}

/// The value of a name that no quantifier's variable has: that of a definition's term, or of an
/// enumerator.
fn defined_value(
    unfolder: &Unfolder<'_, '_>,
    place: Place,
    name: &Name,
) -> Result<i32, UnfoldingError>
    ensures value { IfOk result (λ v. folding.written_value (data_of (protocol_in unfolder.now))
        (stands_for (protocol_in unfolder.now).definitions (string_bytes name.now.text))
        ≡ Some v) }
    ensures refused { IfRefused result (IsFaultIn (IsAt place (HasNoValue
        (protocol_in unfolder.now) (stands_for (protocol_in unfolder.now).definitions
        (string_bytes name.now.text))))) }
{
    match resolve(&unfolder.protocol().definitions, name) {
        Resolved::Term(term) => plain_value(unfolder, place, term),
        Resolved::Name(name) => value_of_name(unfolder, place, name),
    }
}

/// The value of a term in a set of steps: a name of a quantifier's variable, of a definition
/// without state or of an enumerator, a number or a truth value. Another term is refused at the
/// place.
pub(crate) fn value_in_set(
    unfolder: &Unfolder<'_, '_>,
    scope: &ValueScope<'_>,
    place: Place,
    term: &Term,
) -> Result<i32, UnfoldingError>
    ensures value { IfOk result
        (λ v. v ≡ value_of_named unfolder.now scope.now.names (term_of term.now)) }
    ensures refused { IfRefused result (IsFaultIn (IsAt place (HasNoValue (protocol_in unfolder.now)
        (meant (protocol_in unfolder.now) (scope_within unfolder.now scope.now.names)
        (term_of term.now))))) }
{
    match term {
        Term::Name(name) => match bound_value(&scope.names, name.text.as_str()) {
            Some(written) => value_of_written(unfolder, place, written),
            None => defined_value(unfolder, place, name),
        },
        Term::Chain { first, links, .. } => {
            if links.is_empty() {
                return value_in_set(unfolder, scope, place, first);
            }
            plain_value(unfolder, place, term)
        }
        Term::Arithmetic { first, links } => {
            if links.is_empty() {
                return value_in_set(unfolder, scope, place, first);
            }
            plain_value(unfolder, place, term)
        }
        Term::Constant { .. }
        | Term::Number { .. }
        | Term::Not { .. }
        | Term::Negative { .. }
        | Term::Comparison { .. }
        | Term::Application { .. }
        | Term::Quantified { .. } => plain_value(unfolder, place, term),
    }
}
