//! How an unfolded term is written, if it is a name or a written value.

ghost use Rattle.std.specs.Prelude.{◌≡◌};
ghost use Rattle.pb_text_meaning.specs.Syntax.{Term};
ghost use Rattle.pb_protocol_unfolding.specs.Written.{same_written};
ghost use Rattle.pb_protocol_unfolder_terms.specs.Values.{written_term};
ghost use Rattle.pb_protocol_unfolder_terms.specs.Forms.{HasForm, written_form};

use crate::written::Written;

/// How an unfolded term is written, before it is folded.
#[derive(Clone, Copy, PartialEq, Eq)]
pub enum Form {
    Truth(bool),
    Number(u64),
    /// `-` and a number.
    Negative(u64),
    /// A name, which the folded term has too.
    Name,
    /// Anything else.
    Other,
}

/// How a written value is written, as a term.
pub(crate) fn form_of(value: Written<'_>) -> Form
    ensures { result ≡ written_form value.entry }
{
    match value {
        Written::Truth(value) => Form::Truth(value),
        Written::Number(value) => Form::Number(value),
        Written::Negative(value) => Form::Negative(value),
        Written::Enumerator(_) => Form::Name,
    }
}

/// Whether an unfolded term of this form is written as the value; `name` is its name, if it is one.
pub(crate) fn is_same(form: Form, name: &str, value: Written<'_>) -> bool
    ensures { (t : Term) → HasForm form name.now t
        → result ≡ same_written t (written_term value.entry) }
{
    match (form, value) {
        (Form::Truth(left), Written::Truth(right)) => left == right,
        (Form::Number(left), Written::Number(right)) => left == right,
        (Form::Negative(left), Written::Negative(right)) => left == right,
        (Form::Name, Written::Enumerator(right)) => name == right.text.as_str(),
        _ => false,
    }
}
