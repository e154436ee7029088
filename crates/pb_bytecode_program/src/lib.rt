//! Programs of the modules: instructions, carriers and abstract values as plain data; what a run of
//! a program is (the tagged machine of `specs/Machine.antt`); which programs are accepted
//! (`specs/Accepted.antt`, a type system by abstract states, after the tables of bytecode
//! verification in Lindholm and Yellin, The Java Virtual Machine Specification, 1996); and the
//! theorem that accepted programs are safe. It stands below the codec, the verifier and the
//! machine, so that these agree on one definition each.
#![tactic(auto)]

pub mod domain;
pub mod instruction;
pub mod laws;
pub mod version;

pub use domain::AbstractValue;
pub use instruction::{Arithmetic, Comparison, Equality, Leaf, Op};
pub use laws::{accepted_is_safe, transfer_is_monotone};
pub use pb_fixpoint_trees::Junction;
pub use version::Version;
