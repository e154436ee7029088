//! Which formulas have no equation of their own where they are quantified.
//!
//! Copies of a formula that is written out are permuted among themselves, which equations can't be:
//! so this is what a symmetric protocol's formula has to be for its equations to be symmetric.
#![tactic(auto)]

mod alone;

pub use alone::is_quantified_alone;
