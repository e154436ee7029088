//! The answer to a module by representatives: of instances that symmetries carry to one another,
//! one is explored in place of all, and the solution of its trees has the module's answer (Emerson
//! and Sistla 1996; Ip and Dill 1996).
#![tactic(auto)]

mod answer;
mod rows;

pub use answer::answer_represented;
