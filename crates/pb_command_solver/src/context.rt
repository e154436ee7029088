//! What calls work with.
use std::alloc::Global;

/// What a call works with: threads, memory, and a gate that sees each attempt of a worker to take
/// an instance, and to lift a vertex, and, where it is a `Progress`, each part of the work.
#[derive(Drop)]
pub struct Context<'a, R, G> {
    pub rt: &'a R,
    pub alloc: Global,
    pub gate: &'a G,
}
