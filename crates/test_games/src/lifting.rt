//! Worked games: the words and solutions that lifting gives, overlapping workers, and games whose
//! ranks are too many.

mod attempts;
mod overlap;
mod tests;
