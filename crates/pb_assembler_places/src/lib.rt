//! Why the limits of operands, brackets and loops are the right ones: what is counted on a right
//! side is the most that a place of its code is reached with. Nothing is computed here; the law
//! speaks of the compile scheme alone. `specs/Reached.antt` says with what a place is reached.
#![tactic(auto)]

mod places;

pub use places::places_hold_what_is_counted;
