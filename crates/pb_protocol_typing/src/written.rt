//! Terms that are written out: truth values, numbers, and names that stand alone.

ghost use Rattle.std.specs.Prelude.{◌≡◌};
ghost use Rattle.std.specs.Option.{option_map};
ghost use Rattle.pb_text_tree.specs.Form.{term_form};
ghost use Rattle.pb_protocol_typing.specs.Written.{is_same, negated, written};
ghost use Rattle.pb_protocol_typing.specs.View.{written_of};

use pb_text_tree::{Name, Term};

/// A term that is written out.
#[derive(Clone, Copy)]
pub(crate) enum Written<'a> {
    Boolean(bool),
    /// A number, and whether a minus stands in front of it.
    Number(bool, u64),
    Alone(&'a Name),
    Other,
}

/// A number with a minus in front of it. A chain without links is its operand.
fn negated<'a>(term: &'a Term) -> Written<'a>
    ensures { written_of result ≡ negated (term_form term.now) }
{
    match term {
        Term::Number { value, .. } => Written::Number(true, *value),
        Term::Chain { first, links, .. } => match links.first() {
            Some(_) => Written::Other,
            None => negated(first),
        },
        Term::Arithmetic { first, links } => match links.first() {
            Some(_) => Written::Other,
            None => negated(first),
        },
        _ => Written::Other,
    }
}

/// What a term is as it is written.
pub(crate) fn as_written<'a>(term: &'a Term) -> Written<'a>
    ensures { written_of result ≡ written (term_form term.now) }
{
    match term {
        Term::Constant { value, .. } => Written::Boolean(*value),
        Term::Number { value, .. } => Written::Number(false, *value),
        Term::Negative { operand, .. } => negated(operand),
        Term::Name(name) => Written::Alone(name),
        Term::Chain { first, links, .. } => match links.first() {
            Some(_) => Written::Other,
            None => as_written(first),
        },
        Term::Arithmetic { first, links } => match links.first() {
            Some(_) => Written::Other,
            None => as_written(first),
        },
        _ => Written::Other,
    }
}

/// Whether two terms are plainly the same.
pub(crate) fn is_same(left: Written<'_>, right: Written<'_>) -> bool
    ensures { result ≡ is_same (written_of left.entry) (written_of right.entry) }
{
    match (left, right) {
        (Written::Boolean(one), Written::Boolean(other)) => one == other,
        (Written::Number(one, size), Written::Number(other, other_size)) => {
            one == other && size == other_size
        }
        (Written::Alone(one), Written::Alone(other)) => one.text.as_str() == other.text.as_str(),
        _ => false,
    }
}
