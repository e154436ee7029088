//! Arguments that are unfolded, and functions of data of them.

ghost use Rattle.std.specs.Prelude.{◌≡◌, ℕ, suc, IfOk, string_bytes};
ghost use Rattle.pb_text_meaning.specs.Functions.{named_function};
ghost use Rattle.pb_text_meaning.specs.Syntax as syntax;
ghost use Rattle.pb_protocol_folding.specs.Folding.{is_if};
ghost use Rattle.pb_protocol_folding.specs.View.{spec_of};
ghost use Rattle.pb_protocol_unfolder_terms.specs.Puts.{AreArguments, truth_behind, with_last};
ghost use Rattle.pb_protocol_unfolder_terms.specs.Unfolding.{IsUnfolded};

use crate::form::Form;
use crate::unfolded::Unfolded;
use pb_protocol_folding::{Folding, application_term};
use pb_text_meaning::NamedFunction;
use pb_text_tree::{Argument, Name, Place, copy_name};
use std::alloc::{AllocError, Global};

/// Arguments of a function of data, unfolded and folded.
#[derive(Drop)]
pub(crate) struct UnfoldedArguments {
    pub arguments: Vec<Argument>,
    /// How many more operators there may be behind them.
    pub room: u32,
}

/// No arguments.
pub(crate) fn no_arguments(alloc: Global, room: u32) -> UnfoldedArguments
    ensures { (spec : syntax.Spec) (truth : _) →
        AreArguments spec truth room syntax.NoTerms result }
{
    UnfoldedArguments {
        arguments: Vec::new(alloc),
        room,
    }
}

/// Arguments with one more behind them, the place being that of its first token.
pub(crate) fn with_argument(
    folding: &Folding<'_>,
    place: Place,
    before: UnfoldedArguments,
    last: Unfolded,
) -> Result<UnfoldedArguments, AllocError>
    ensures { (xs : syntax.Terms) (x : syntax.Term) (n : ℕ) (truth : _) →
        AreArguments (spec_of folding.now.sorts.now) truth n xs before
        → IsUnfolded (spec_of folding.now.sorts.now) (truth_behind truth xs) before.room x last
        → IfOk result (AreArguments (spec_of folding.now.sorts.now) truth n (with_last xs x)) }
{
    let UnfoldedArguments { mut arguments, .. } = before;
    let Unfolded { term, room, .. } = last;
    arguments.push(Argument { place, term })?;
    Ok(UnfoldedArguments { arguments, room })
}

/// Whether a function chooses one of its arguments.
pub(crate) fn is_choice(function: &str) -> bool
    ensures { result ≡ is_if (named_function function.now) }
{
    match NamedFunction::named(function) {
        Some(NamedFunction::If) => true,
        _ => false,
    }
}

/// A function of data of unfolded arguments.
pub(crate) fn function_term(
    folding: &Folding<'_>,
    function: &Name,
    arguments: UnfoldedArguments,
) -> Result<Unfolded, AllocError>
    ensures { (xs : syntax.Terms) (n : ℕ) (truth : _) →
        AreArguments (spec_of folding.now.sorts.now)
        (is_if (named_function (string_bytes function.now.text))) n xs arguments
        → IfOk result (IsUnfolded (spec_of folding.now.sorts.now) truth (suc n)
        (syntax.Term.Apply (string_bytes function.now.text) xs)) }
{
    let room = arguments.room;
    let function = copy_name(folding.alloc, function)?;
    let term = application_term(folding, function, arguments.arguments)?;
    Ok(Unfolded {
        term,
        form: Form::Other,
        room,
    })
}
