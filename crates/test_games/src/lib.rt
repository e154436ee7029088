//! Tests of the game crates together: worked games, flaws and faults, generated games against a
//! solver of the tests' own, games of a size or a shape that a recursion or a round could be slow
//! on; lifting, alone and by workers that overlap; evidence.
#![tactic(auto)]

#[cfg(test)]
mod deep_recursion;
#[cfg(test)]
mod evidence;
#[cfg(test)]
mod games;
#[cfg(test)]
mod generated;
#[cfg(test)]
mod lifting;
#[cfg(test)]
mod measures;
#[cfg(test)]
mod ranges;
#[cfg(test)]
mod search;
#[cfg(test)]
mod tests;
#[cfg(test)]
mod winners;
