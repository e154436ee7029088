//! Digits and the numbers that they write.

ghost use Rattle.std.specs.Prelude.{◌≡◌, ◌≤◌};
ghost use Rattle.std.specs.Str.Parse.{AllDigits};
ghost use Rattle.pb_text_lexer.specs.Bytes as spec;

use crate::bytes::digits_len;

/// The number that the digits write, if it is no larger than this.
pub fn value_within(digits: &[u8], largest: u64) -> Option<u64>
    requires digits { AllDigits 10 digits.now }
    requires room { 9 ≤ largest }
    requires small { largest ≤ spec.largest_number }
    ensures { result ≡ spec.value_within largest digits.now }
{
    let mut value: u64 = 0;
    for digit in digits {
        let digit = u64::from(*digit - b'0');
        if value > (largest - digit) / 10 {
            return None;
        }
        value = value * 10 + digit;
    }
    Some(value)
}

/// The number that a word writes, if it is digits, one or more, and the number is no larger than
/// this.
pub fn whole_within(word: &[u8], largest: u64) -> Option<u64>
    requires room { 9 ≤ largest }
    requires small { largest ≤ spec.largest_number }
    ensures { result ≡ spec.whole_within largest word.now }
{
    if word.is_empty() || digits_len(word) != word.len() {
        return None;
    }
    value_within(word, largest)
}
