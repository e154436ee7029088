//! A value, and a result that is computed while the value is owned. Where a caller leaves by `?`
//! with a tree in scope, its check covers the release of that tree once more at each such place;
//! by `both` the tree is released in one place, which is checked once.

ghost use Rattle.std.specs.Prelude.{◌≡◌, Ok, Err, MatchResult};

/// Both values, if there is a second one. The first is dropped where there is an error.
pub fn both<A: Drop, B, E>(first: A, second: Result<B, E>) -> Result<(A, B), E>
    ensures { MatchResult result (λ pair. (pair.0 ≡ first) × (second ≡ Ok pair.1))
        (λ error. second ≡ Err error) }
{
    match second {
        Ok(second) => Ok((first, second)),
        Err(error) => Err(error),
    }
}
