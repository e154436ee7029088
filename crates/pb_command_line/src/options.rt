//! The options of the commands, one struct for those that take the same.
ghost use Rattle.std.specs.Prelude.{◌<◌, ◌≤◌};

use pb_game::Solver;

/// The number of workers, and whether progress is printed.
#[derive(Clone, Copy, PartialEq, Eq)]
pub struct Exploring {
    pub workers: u32,
    pub progress: bool,
    pub ghost some: { 0 < workers },
    pub ghost few: { workers ≤ 16 },
}

/// The number of workers, the solver of the game, and whether progress is printed.
#[derive(Clone, Copy, PartialEq, Eq)]
pub struct Solving {
    pub workers: u32,
    pub progress: bool,
    pub solver: Solver,
    pub ghost some: { 0 < workers },
    pub ghost few: { workers ≤ 16 },
}

/// The number of workers, whether the positions of calls are printed, and whether progress is.
#[derive(Clone, Copy, PartialEq, Eq)]
pub struct Explaining {
    pub workers: u32,
    pub progress: bool,
    pub places: bool,
    pub ghost some: { 0 < workers },
    pub ghost few: { workers ≤ 16 },
}

/// The property that is named, if one is, and the files: of the commands that translate a property
/// and that size a model.
#[derive(Drop)]
pub struct Translating {
    pub property: Option<String>,
    pub files: Vec<String>,
}

/// How a model is checked, and which of its properties: all where none is named; whether the exit
/// status reports the verdicts, whether lines of counts are written, whether one is explored of
/// states that differ by a permutation of like elements, and which files are checked.
#[derive(Drop)]
pub struct Checking {
    pub solving: Solving,
    pub properties: Vec<String>,
    pub status: bool,
    pub counts: bool,
    pub symmetry: bool,
    pub files: Vec<String>,
}

/// The number of workers, the property, or all where none is named, whether lines of instances are
/// printed, the files, and whether progress is printed.
#[derive(Drop)]
pub struct Showing {
    pub workers: u32,
    pub progress: bool,
    pub property: Option<String>,
    pub lines: bool,
    pub files: Vec<String>,
    pub ghost some: { 0 < workers },
    pub ghost few: { workers ≤ 16 },
}
