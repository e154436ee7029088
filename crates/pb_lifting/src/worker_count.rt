//! A number of workers: there is always one.
ghost use Rattle.std.specs.Prelude.{◌<◌};

/// How many workers there are.
#[derive(Clone, Copy)]
pub(crate) struct WorkerCount {
    pub number: u32,
    pub ghost some: { 0 < number },
}
