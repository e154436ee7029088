//! Tests of the whole program, with readers and writers that fail and workers that are watched, and
//! texts that the plain solver answers, too. What it writes of an input is tested by `tests/rows/`,
//! and of generated systems and modules by `tests/fuzzing_systems.py` and `fuzzing_modules.py`.
#![tactic(auto)]

#[cfg(test)]
mod budget;
#[cfg(test)]
mod failing;
#[cfg(test)]
mod shelf;
#[cfg(test)]
mod tests;
