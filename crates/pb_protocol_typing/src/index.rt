//! Indices that are plainly the same: terms that are written out, and an operator of two of them.

ghost use Rattle.std.specs.Prelude.{◌≡◌};
ghost use Rattle.pb_text_tree.specs.Form.{argument_forms, term_form};
ghost use Rattle.pb_protocol_typing.specs.Indices.{are_same, computed_term, index_term};
ghost use Rattle.pb_protocol_typing.specs.Indices.{is_same_term, same_operator};
ghost use Rattle.pb_protocol_typing.specs.View.{index_of, written_of};

use crate::written::{Written, as_written, is_same};
use pb_text_tree::{Argument, Arithmetic, Term};

/// An index term, as far as it is looked at.
#[derive(Clone, Copy)]
pub(crate) enum IndexTerm<'a> {
    Plain(Written<'a>),
    Computed(Arithmetic, Written<'a>, Written<'a>),
}

/// An operator of two written terms. Where the left one isn't written out, nothing is said of it.
fn computed_term<'a>(operator: Arithmetic, left: Written<'a>, right: Written<'a>) -> IndexTerm<'a>
    ensures { index_of result ≡ computed_term operator (written_of left.entry)
        (written_of right.entry) }
{
    match left {
        Written::Other => IndexTerm::Plain(Written::Other),
        _ => IndexTerm::Computed(operator, left, right),
    }
}

/// What an index term is as it is written. A chain without links is its operand.
fn index_term<'a>(term: &'a Term) -> IndexTerm<'a>
    ensures { index_of result ≡ index_term (term_form term.now) }
{
    match term {
        Term::Chain { first, links, .. } => match links.first() {
            Some(_) => IndexTerm::Plain(Written::Other),
            None => index_term(first),
        },
        Term::Arithmetic { first, links } => match links.first() {
            Some(link) => {
                if links.len() > 1 {
                    return IndexTerm::Plain(Written::Other);
                }
                computed_term(link.operator, as_written(first), as_written(&link.operand))
            }
            None => index_term(first),
        },
        _ => IndexTerm::Plain(as_written(term)),
    }
}

fn same_operator(left: Arithmetic, right: Arithmetic) -> bool
    ensures { result ≡ same_operator left right }
{
    match (left, right) {
        (Arithmetic::Plus, Arithmetic::Plus) => true,
        (Arithmetic::Minus, Arithmetic::Minus) => true,
        (Arithmetic::Times, Arithmetic::Times) => true,
        (Arithmetic::Div, Arithmetic::Div) => true,
        (Arithmetic::Mod, Arithmetic::Mod) => true,
        _ => false,
    }
}

fn is_same_term(left: IndexTerm<'_>, right: IndexTerm<'_>) -> bool
    ensures { result ≡ is_same_term (index_of left.entry) (index_of right.entry) }
{
    match (left, right) {
        (IndexTerm::Plain(one), IndexTerm::Plain(other)) => is_same(one, other),
        (IndexTerm::Computed(o, v, w), IndexTerm::Computed(p, x, y)) => {
            same_operator(o, p) && is_same(v, x) && is_same(w, y)
        }
        _ => false,
    }
}

/// Whether two indices are plainly the same.
pub(crate) fn are_same(left: &[Argument], right: &[Argument]) -> bool
    ensures { result ≡ are_same (argument_forms left.now) (argument_forms right.now) }
{
    if left.len() != right.len() {
        return false;
    }
    for (index, argument) in left.iter().enumerate() {
        if !is_same_term(index_term(&argument.term), index_term(&right[index].term)) {
            return false;
        }
    }
    true
}
