//! A line that tells of an error.
ghost use Rattle.std.specs.Prelude.{◌≡◌, ◌+◌, ◌<◌, ◌≤◌, ◌++◌, length, codes, decimal};

use arrayvec::ArrayString;
use itoa::Buffer;
use std::marker::Model;

/// A line of at most 64 bytes. It takes no memory, so that whatever is wrong can be told. Contracts
/// see its bytes.
#[derive(Drop)]
pub struct Line {
    text: ArrayString<64>,
}

impl Model for Line {
    ghost use Rattle.std.specs.Prelude.{ℕ, List};

    ghost Value = { List ℕ };

    ghost view = { λ line. line.text.bytes };
}

impl Line {
    /// A line that begins with the number of a rule, as `P02`.
    pub(crate) fn of(number: &str) -> Line
        requires { length number.now ≤ 64 }
        ensures { result ≡ number.now }
    {
        let mut text = ArrayString::new();
        text.push_str(number);
        Line { text }
    }

    /// The line with a word and a number behind it, as ` column 22`.
    pub(crate) fn and(self, word: &str, number: usize) -> Line
        requires { length self + length word.now + 20 ≤ 64 }
        ensures text { result ≡ self ++ (word.now ++ decimal number) }
        ensures short { length result ≤ length self + length word.now + 20 }
    {
        let mut text = self.text;
        text.push_str(word);
        text.push_str(Buffer::new().format(number));
        Line { text }
    }

    /// The line with its line feed.
    pub(crate) fn end(self) -> Line
        requires { length self < 64 }
        ensures { result ≡ self ++ codes "\n" }
    {
        let mut text = self.text;
        text.push_str("\n");
        Line { text }
    }

    /// Its text.
    pub fn as_str(&self) -> &str
        ensures { result.now ≡ self.now }
    {
        self.text.as_str()
    }
}
