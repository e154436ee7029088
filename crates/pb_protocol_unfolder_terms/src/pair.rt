//! Values that are held while more is unfolded. What is generic in them releases them in one place,
//! whatever they are.

ghost use Rattle.std.specs.Prelude.{◌≡◌, Ok, Err, MatchResult};

/// A value and another, if that was found.
///
/// # Errors
/// It wasn't: that error.
pub fn paired<T: Drop, U, E>(value: T, other: Result<U, E>) -> Result<(T, U), E>
    ensures { MatchResult result (λ pair. (pair.0 ≡ value) × (other ≡ Ok pair.1))
        (λ error. other ≡ Err error) }
{
    match other {
        Ok(other) => Ok((value, other)),
        Err(error) => Err(error),
    }
}
