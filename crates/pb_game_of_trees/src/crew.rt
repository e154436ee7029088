//! Who builds a game.

use std::alloc::Global;

/// Threads and memory, and how many workers share what is to be done.
#[derive(Drop)]
pub struct Crew<'a, R> {
    pub rt: &'a R,
    pub alloc: Global,
    pub workers: u32,
}
