//! Tests of what no command of the program shows of texts: texts at the limits of nesting and of
//! operators, printed on a small stack; normal forms, which were written by hand from the compile
//! scheme; and the compiler on one text. What the program says of a text is tested by `tests/rows/`
//! (`reading.toml`, `nesting.toml`, `typing.toml`, `listings.toml`, `limits.toml`), how it prints
//! one by `models.toml` there, and what it reads is compared with a recogniser of the grammar by
//! `tests/recognising_texts.py`.
#![tactic(auto)]

#[cfg(test)]
mod compiled;
#[cfg(test)]
mod modules;
#[cfg(test)]
mod normal;
#[cfg(test)]
mod printed_depth;
