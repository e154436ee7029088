//! Which sorts of a protocol are scalar sets: Ip and Dill 1996.
//!
//! A sort is one where the protocol is the same when elements of it are permuted, and a property of
//! it may be checked with fewer states where its formula is the same too. Both are tested on the
//! syntax, by the kinds of terms (`pb_protocol_symmetry`): nothing is declared for it.
#![tactic(auto)]

mod carrier;
mod declaration;
mod enumerator;
mod formula;
mod kind;
mod line;
mod mention;
mod movable;
mod protocol;
mod scalar_set;
mod scope;
mod signature;
mod step;
mod term;
mod variable;

pub use carrier::{Carrier, carrier_of};
pub use line::push_symmetry;
pub use movable::{MAX_MOVED, movable_elements};
pub use protocol::{formula_has_kinds, is_symmetric};
pub use scalar_set::ScalarSet;
pub use variable::{Variable, variables_of};
