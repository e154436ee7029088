//! The rules: what each number that the program prints means.
#![tactic(auto)]

mod numbered;
mod rule;
mod words;

pub use rule::Rule;
