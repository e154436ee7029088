//! Bytes of a text: white space, and how far names, lines and digits reach.

ghost use Rattle.std.specs.Prelude.{◌≡◌, ◌≤◌, length};
ghost use Rattle.pb_text_lexer.specs.Bytes as spec;

use pb_base::is_name_byte;

/// Whether a byte is white space.
#[inline(always)]
pub fn is_blank(b: u8) -> bool
    ensures { result ≡ spec.is_blank b }
{
    b == b' ' || b == b'\t' || b == b'\n' || b == b'\r'
}

/// How many bytes of white space stand at the front.
#[inline(always)]
pub(crate) fn blanks_len(bytes: &[u8]) -> usize
    ensures value { result ≡ length (spec.blanks bytes.now) }
    ensures fits { result ≤ length bytes.now }
{
    bytes.iter().take_while(|b| is_blank(**b)).count()
}

/// How many bytes at the front a name may have.
#[inline(always)]
pub fn name_len(bytes: &[u8]) -> usize
    ensures value { result ≡ length (spec.name_bytes bytes.now) }
    ensures fits { result ≤ length bytes.now }
{
    bytes.iter().take_while(|b| is_name_byte(**b)).count()
}

/// How many bytes stand on the line.
#[inline(always)]
pub fn line_len(bytes: &[u8]) -> usize
    ensures value { result ≡ length (spec.line bytes.now) }
    ensures fits { result ≤ length bytes.now }
{
    bytes.iter().take_while(|b| **b != b'\n').count()
}

/// How many digits stand at the front.
#[inline(always)]
pub fn digits_len(bytes: &[u8]) -> usize
    ensures value { result ≡ length (spec.digits bytes.now) }
    ensures fits { result ≤ length bytes.now }
{
    bytes.iter().take_while(|b| b.is_ascii_digit()).count()
}
