//! How counting is an application, so that data terms are those of texts.
//!
//! `count i: S . p` is `exists` applied to `exists i: S . p`. The word is reserved in texts and in
//! models, so that no name that is read is `exists`, and each application of it counts.

ghost use Rattle.std.specs.Prelude.{◌≡◌, IfOk, string_bytes};
ghost use Rattle.pb_text_tree.specs.Form.{term_form, variable_forms};
ghost use Rattle.pb_text_counting.specs.Counting as spec;

use pb_text_tree::{Argument, Name, Place, Quantifier, Term, Variables};
use std::alloc::{AllocError, Global};

/// Whether an application of this name counts.
pub fn is_counting(function: &str) -> bool
    ensures { result ≡ spec.is_counting function.now }
{
    function == "exists"
}

/// The reserved word at a place.
fn counting_name(alloc: Global, place: Place) -> Result<Name, AllocError>
    ensures place { IfOk result (λ n. n.place ≡ place) }
    ensures text { IfOk result (λ n. string_bytes n.text ≡ spec.counting) }
{
    let text = "exists".to_owned(alloc)?;
    Ok(Name { place, text })
}

/// `count`, which stands at the place, with its variables and its body.
///
/// # Errors
/// Memory was refused.
pub fn counted(
    alloc: Global,
    place: Place,
    variables: Vec<Variables>,
    body: Term,
) -> Result<Term, AllocError>
    ensures { IfOk result (λ t. term_form t
        ≡ spec.counted place (variable_forms variables.items) (term_form body)) }
{
    let body = Box::new(alloc, body)?;
    let term = Term::Quantified {
        place,
        quantifier: Quantifier::Exists,
        variables,
        body,
    };
    let arguments = vec![in alloc; Argument { place, term }]?;
    let Ok(function) = counting_name(alloc, place) else {
        drop(arguments);
        return Err(AllocError);
    };
    Ok(Term::Application {
        function,
        arguments,
    })
}
