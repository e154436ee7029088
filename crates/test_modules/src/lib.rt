//! Tests of what no command of the program shows of modules and of their exploration: ranges, the
//! numbers of instances in a layout, the trees of instances, and the module that comes back where it
//! is refused; then, on one small module, steps of the reference, words that two seats step on, and
//! one worker alone with and without memory; on a larger one, rounds of workers. The expected values
//! were worked out by hand, and the helpers keep the conditions of what they call. Bytes, codes and
//! listings are tested by `tests/rows/` (`modules.toml`, `code.toml`), and generated modules by
//! `tests/fuzzing_modules.py`.
#![tactic(auto)]

#[cfg(test)]
mod alone;
#[cfg(test)]
mod many;
#[cfg(test)]
mod modules;
#[cfg(test)]
mod numbers;
#[cfg(test)]
mod steps;
#[cfg(test)]
mod tests;
#[cfg(test)]
mod trees;
