//! The bytes that names are made of, in texts and in modules.

ghost use Rattle.std.specs.Prelude.{◌≡◌};
ghost use Rattle.pb_base.specs.Names as spec;

/// Whether a name may begin with a byte: a letter of ASCII or `_`.
#[inline(always)]
pub fn is_letter(byte: u8) -> bool
    ensures { result ≡ spec.is_letter byte }
{
    byte.is_ascii_alphabetic() || byte == b'_'
}

/// Whether a name may go on with a byte: a letter, `_`, a digit or `'`.
#[inline(always)]
pub fn is_name_byte(byte: u8) -> bool
    ensures { result ≡ spec.is_name_byte byte }
{
    is_letter(byte) || byte.is_ascii_digit() || byte == b'\''
}
