//! Numbers of any size, by their decimal digits: the states of a model may be more than a machine
//! word counts.

ghost use Rattle.std.specs.Prelude.{◌≡◌, ◌+◌, ◌*◌, ◌<◌, ◌≤◌, ◌++◌, ℕ, IfOk, OnOk, decimal};
ghost use Rattle.std.specs.Prelude.{flat_map, reverse, string_bytes};
ghost use Rattle.pb_model_sizes.specs.Digits.{AreDigits, low_digits, number_of_digits};

use std::alloc::{AllocError, Global};

/// How many values a sort has at most.
pub const MAX_FACTOR: u64 = 4_294_967_296;

/// A whole number, by its decimal digits, the least first, without zeros in front of it.
#[derive(Drop)]
pub(crate) struct Number {
    pub digits: Vec<u8>,
    pub ghost canonical: { digits.items ≡ low_digits (number_of_digits digits.items) },
}

/// Puts the digits of a number behind others.
fn push_digits(digits: &mut Vec<u8>, number: u64) -> Result<(), AllocError>
    ensures { OnOk result (digits.new.items ≡ digits.old.items ++ low_digits number) }
{
    let mut rest = number;
    'rest: while rest > 0 {
        digits.push((rest % 10) as u8)?;
        rest /= 10;
    }
    Ok(())
}

/// The digits of the product of a number and a factor.
fn product(alloc: Global, digits: &[u8], factor: u64) -> Result<Vec<u8>, AllocError>
    requires canonical { AreDigits digits.now }
    requires some { 0 < factor }
    requires few { factor ≤ MAX_FACTOR }
    ensures { IfOk result
        (λ product. product.items ≡ low_digits (factor * number_of_digits digits.now)) }
{
    let mut product = Vec::new(alloc);
    let mut carry: u64 = 0;
    for digit in digits {
        let sum = u64::from(*digit) * factor + carry;
        product.push((sum % 10) as u8)?;
        carry = sum / 10;
    }
    push_digits(&mut product, carry)?;
    Ok(product)
}

/// Writes digits, the last of them first.
fn push_reversed(lines: &mut String, digits: &[u8]) -> Result<(), AllocError>
    ensures { OnOk result (string_bytes lines.new
        ≡ string_bytes lines.old ++ flat_map decimal (reverse digits.now)) }
{
    for index in (0..digits.len()).rev() {
        let digit = digits[index];
        write!(lines, "{digit}")?;
    }
    Ok(())
}

impl Number {
    ghost use Rattle.pb_model_sizes.specs.Numbers.{number_in};
    ghost use Rattle.pb_model_sizes.specs.Digits.{numeral};

    /// The number 1.
    pub fn one(alloc: Global) -> Result<Number, AllocError>
        ensures { IfOk result (λ n. number_in n ≡ 1) }
    {
        let mut digits = Vec::new(alloc);
        push_digits(&mut digits, 1)?;
        Ok(Number { digits })
    }

    /// The product with a number of values.
    pub fn times(&self, alloc: Global, factor: u64) -> Result<Number, AllocError>
        requires { factor ≤ MAX_FACTOR }
        ensures { IfOk result (λ n. number_in n ≡ factor * number_in self.now) }
    {
        if factor == 0 {
            let digits = Vec::new(alloc);
            return Ok(Number { digits });
        }
        let digits = product(alloc, &self.digits, factor)?;
        Ok(Number { digits })
    }

    /// Writes it in decimal.
    pub fn push(&self, lines: &mut String) -> Result<(), AllocError>
        ensures { OnOk result (string_bytes lines.new
            ≡ string_bytes lines.old ++ numeral (number_in self.now)) }
    {
        if self.digits.is_empty() {
            return lines.push_str("0");
        }
        push_reversed(lines, &self.digits)
    }
}
