//! How many workers there may be.
ghost use Rattle.std.specs.Prelude.{◌<◌, ◌≤◌};
ghost use Rattle.pb_command_solver.specs.declared.workers.TheConstants.{MAX_WORKERS};

/// How many workers there may be.
pub const MAX_WORKERS: u32 = 16;

/// So many workers explore a module, build its game, check its solution and, where the solver is
/// lifting, lift it.
#[derive(Clone, Copy, PartialEq, Eq)]
pub struct Workers {
    pub count: u32,
    pub ghost some: { 0 < count },
    pub ghost few: { count ≤ MAX_WORKERS },
}
