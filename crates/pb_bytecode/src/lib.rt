//! Modules: equation systems in compiled form, as plain data, and their one spelling in bytes.
//! `decode` reads exactly what `encode` writes; `specs/Spelling.antt` says what is written,
//! `specs/Limits.antt` which modules have a spelling, and `specs/Reading.antt` which fault is met
//! first. Whether a module's code is accepted is a verifier's matter.
#![tactic(auto)]

pub mod decode;
pub mod encode;
pub mod equation;
pub mod fault;
pub mod format;
pub mod initial;
mod instances;
pub mod laws;
pub mod limit;
pub mod list;
pub mod module;
pub mod name;
mod reading;
pub mod sort;

pub use equation::Equation;
pub use fault::{ModuleError, ModuleFault, ModuleRule};
pub use initial::Initial;
pub use limit::Limit;
pub use module::Module;
pub use name::{Name, is_name};
pub use pb_bytecode_program::{Arithmetic, Comparison, Equality, Junction, Leaf, Op, Version};
pub use sort::Sort;
