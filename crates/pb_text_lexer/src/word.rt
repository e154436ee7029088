//! Words of a text: reserved words and names.

ghost use Rattle.std.specs.Prelude.{◌≡◌};
ghost use Rattle.pb_text_lexer.specs.Bytes as spec;

use crate::bytes::name_len;
use crate::kind::{Kind, same_kind};
use pb_base::is_letter;

/// The reserved words.
const WORDS: [(&str, Kind); 24] = [
    ("sort", Kind::Sort),
    ("struct", Kind::Struct),
    ("pbes", Kind::Pbes),
    ("mu", Kind::Mu),
    ("nu", Kind::Nu),
    ("init", Kind::Init),
    ("val", Kind::Val),
    ("true", Kind::True),
    ("false", Kind::False),
    ("forall", Kind::Forall),
    ("exists", Kind::Exists),
    ("div", Kind::Div),
    ("mod", Kind::Mod),
    ("cons", Kind::Reserved),
    ("map", Kind::Reserved),
    ("var", Kind::Reserved),
    ("eqn", Kind::Reserved),
    ("glob", Kind::Reserved),
    ("lambda", Kind::Reserved),
    ("whr", Kind::Reserved),
    ("end", Kind::Reserved),
    ("in", Kind::Reserved),
    ("act", Kind::Reserved),
    ("proc", Kind::Reserved),
];

/// How many letters a reserved word has at least, and at most.
const SHORTEST: usize = 2;

const LONGEST: usize = 6;

/// The kind that a table gives a word, or that of a name.
pub(crate) fn kind_among(table: &[(&str, Kind)], word: &[u8]) -> Kind
    ensures { result ≡ spec.kind_among (spec.entries table.now) word.now }
{
    for (text, kind) in table {
        if text.as_bytes() == word {
            return *kind;
        }
    }
    Kind::Name
}

/// The kind of a word: that of a reserved word, or that of a name.
pub fn word_kind(word: &[u8]) -> Kind
    ensures { result ≡ spec.word_kind word.now }
{
    if word.len() < SHORTEST {
        return Kind::Name;
    }
    if word.len() > LONGEST {
        return Kind::Name;
    }
    kind_among(&WORDS, word)
}

/// Whether a word is a name, and no reserved word.
pub fn is_name(word: &[u8]) -> bool
    ensures { result ≡ spec.is_name word.now }
{
    match word {
        [] => false,
        [first, rest @ ..] => is_letter(*first)
            && name_len(rest) == rest.len()
            && same_kind(word_kind(word), Kind::Name),
    }
}
