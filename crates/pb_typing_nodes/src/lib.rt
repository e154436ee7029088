//! Kinds and intervals of the single nodes of data: names in scope, operations, functions and lists
//! of variables, each with its typed tree, or a rule that fails and where. Nothing here looks below
//! a node: `pb_typing_terms` does.
#![tactic(auto)]

pub mod apply;
pub mod context;
pub mod function;
pub mod name;
pub mod operands;
pub mod operation;
pub mod operator;
pub mod scope;
pub mod shape;
pub mod variables;
