//! The calls of a typed formula, in the order of the text.

ghost use Rattle.std.specs.Prelude.{◌≡◌, ◌++◌, ◌==◌, IfOk, OnOk, length};
ghost use Rattle.std.specs.List.{list_any};
ghost use Rattle.pb_typing_tree.specs.Calls.{call_places};
ghost use Rattle.pb_typing_tree.specs.View.{formula_view};
ghost use Rattle.pb_typing_calls.specs.Calls.{same_place};
ghost use Rattle.pb_typing_calls.specs.Made.{is_test};

use pb_text_tree::Place;
use pb_typing_tree::Formula;
use std::alloc::{AllocError, Global};

/// The places of a formula's calls, in the order in which they are written.
pub(crate) fn places_of_calls(alloc: Global, formula: &Formula) -> Result<Vec<Place>, AllocError>
    ensures { IfOk result (λ places. places.items ≡ call_places formula.now) }
{
    let mut places = Vec::new(alloc);
    push_calls(formula, &mut places)?;
    Ok(places)
}

/// Puts the places of a formula's calls behind others.
fn push_calls(formula: &Formula, places: &mut Vec<Place>) -> Result<(), AllocError>
    ensures { OnOk result (places.new.items ≡ places.old.items ++ call_places formula.now) }
{
    match formula {
        Formula::Test(_) => Ok(()),
        Formula::Negation(operand) => push_calls(operand, places),
        Formula::Chain { first, links, .. } => {
            push_calls(first, places)?;
            for link in links.iter() {
                push_calls(link, places)?;
            }
            Ok(())
        }
        Formula::Quantified { body, .. } => push_calls(body, places),
        Formula::Call { place, .. } => {
            places.push(*place)?;
            Ok(())
        }
    }
}

/// Whether a formula is a data term alone, maybe negated.
pub(crate) fn is_test(formula: &Formula) -> bool
    ensures { result ≡ is_test (formula_view formula.now) }
{
    match formula {
        Formula::Test(_) => true,
        Formula::Negation(operand) => is_test(operand),
        Formula::Chain { first, links, .. } => links.is_empty() && is_test(first),
        Formula::Quantified { carriers, body, .. } => carriers.is_empty() && is_test(body),
        Formula::Call { .. } => false,
    }
}

/// Whether two places are the same.
pub(crate) fn same_place(left: Place, right: Place) -> bool
    ensures { result ≡ same_place left right }
{
    left.line == right.line && left.column == right.column
}

pub(crate) fn has_call_at(formula: &Formula, place: Place) -> bool
    ensures { result ≡ list_any (λ p. same_place p place) (call_places formula.now) }
{
    match formula {
        Formula::Test(_) => false,
        Formula::Negation(operand) => has_call_at(operand, place),
        Formula::Chain { first, links, .. } => {
            if has_call_at(first, place) {
                return true;
            }
            for link in links.iter() {
                if has_call_at(link, place) {
                    return true;
                }
            }
            false
        }
        Formula::Quantified { body, .. } => has_call_at(body, place),
        Formula::Call { place: own, .. } => same_place(*own, place),
    }
}

/// Whether a formula calls nothing.
pub(crate) fn has_no_call(formula: &Formula) -> bool
    ensures { result ≡ (length (call_places formula.now) == 0) }
{
    match formula {
        Formula::Test(_) => true,
        Formula::Negation(operand) => has_no_call(operand),
        Formula::Chain { first, links, .. } => {
            if !has_no_call(first) {
                return false;
            }
            for link in links.iter() {
                if !has_no_call(link) {
                    return false;
                }
            }
            true
        }
        Formula::Quantified { body, .. } => has_no_call(body),
        Formula::Call { .. } => false,
    }
}
