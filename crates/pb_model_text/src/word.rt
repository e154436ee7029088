//! The words for formulas of the usual patterns. A word is a name by its bytes, and a word by where
//! it stands alone, so that steps, properties and variables may be called as it is.

ghost use Rattle.std.specs.Prelude.{◌≡◌, is_some};
ghost use Rattle.pb_model_text.specs.Words as words;

/// A word that stands before an operand.
#[derive(Clone, Copy, PartialEq, Eq)]
pub enum Prefix {
    /// `always`
    Always,
    /// `possibly`
    Possibly,
    /// `inevitably`
    Inevitably,
}

/// A word with which an operand begins.
#[derive(Clone, Copy, PartialEq, Eq)]
pub enum Leading {
    /// `no_deadlock`, which is an operand itself.
    NoDeadlock,
    /// `fair`, behind which sets of steps stand in brackets, and `inevitably` with its operand.
    Fair,
    /// A word that stands before one.
    Before(Prefix),
}

/// A word that stands between two operands.
#[derive(Clone, Copy, PartialEq, Eq)]
pub enum Infix {
    /// `until`
    Until,
    /// `leads_to`
    LeadsTo,
}

/// The word of these bytes with which an operand begins.
pub fn leading_word(text: &[u8]) -> Option<Leading>
    ensures { result ≡ words.leading_of text.now }
{
    if text == b"always".as_slice() {
        return Some(Leading::Before(Prefix::Always));
    }
    if text == b"possibly".as_slice() {
        return Some(Leading::Before(Prefix::Possibly));
    }
    if text == b"inevitably".as_slice() {
        return Some(Leading::Before(Prefix::Inevitably));
    }
    if text == b"no_deadlock".as_slice() {
        return Some(Leading::NoDeadlock);
    }
    if text == b"fair".as_slice() {
        return Some(Leading::Fair);
    }
    None
}

/// The word of these bytes that stands between two operands.
pub fn infix_word(text: &[u8]) -> Option<Infix>
    ensures { result ≡ words.infix_of text.now }
{
    if text == b"until".as_slice() {
        return Some(Infix::Until);
    }
    if text == b"leads_to".as_slice() {
        return Some(Infix::LeadsTo);
    }
    None
}

/// Whether the bytes are the word that stands behind the sets of `fair`.
pub fn is_fairly(text: &[u8]) -> bool
    ensures { result ≡ is_some (words.fairly_of text.now) }
{
    text == b"inevitably".as_slice()
}

/// Whether the bytes are a word.
pub fn is_word(text: &[u8]) -> bool
    ensures { result ≡ words.is_word text.now }
{
    leading_word(text).is_some() || infix_word(text).is_some()
}
