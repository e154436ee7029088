//! How the values of a sort are written.

ghost use Rattle.std.specs.Prelude.{◌≡◌, suc, ℤ};
ghost use Rattle.pb_text_meaning.specs.Sorts.{declared};
ghost use Rattle.pb_model_words.specs.Words.{value_text, value_within};
ghost use Rattle.pb_model_words.specs.View.{declarations, sort_said, written};

use pb_text_tree::{Enumerator, Sort, SortDeclaration};

/// How the values of a sort are written: as `false` and `true`, by the names of enumerators, or in
/// decimal.
#[derive(Clone, Copy)]
pub(crate) enum Writing<'a> {
    Truth,
    Enumerators(&'a [Enumerator]),
    Decimal,
}

/// What the sort of a name is declared to be, if it is declared.
fn declared<'a>(sorts: &'a [SortDeclaration], name: &str) -> Option<&'a Sort>
    ensures { sort_said result ≡ declared (declarations sorts.now) name.now }
{
    for sort in sorts {
        if sort.name.text.as_str() == name {
            return Some(&sort.sort);
        }
    }
    None
}

/// How the values of a sort are written, through at most this many aliases.
fn writing_within<'a>(sorts: &'a [SortDeclaration], name: &str, aliases: usize) -> Writing<'a>
    ensures { (v : ℤ) → written result v
        ≡ value_within (suc aliases) (declarations sorts.now) name.now v }
{
    if name == "Bool" {
        return Writing::Truth;
    }
    match declared(sorts, name) {
        None => Writing::Decimal,
        Some(Sort::Struct(enumerators)) => Writing::Enumerators(enumerators),
        Some(Sort::Alias(_)) if aliases == 0 => Writing::Decimal,
        Some(Sort::Alias(target)) => { writing_within(sorts, target.text.as_str(), aliases - 1) }
    }
}

/// How the values of a sort are written.
pub(crate) fn writing_of<'a>(sorts: &'a [SortDeclaration], name: &str) -> Writing<'a>
    ensures { (v : ℤ) → written result v ≡ value_text (declarations sorts.now) name.now v }
{
    writing_within(sorts, name, sorts.len())
}
