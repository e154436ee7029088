//! Requests.
ghost use Rattle.std.specs.Prelude.{◌≡◌, map, string_bytes};

use crate::options::{Checking, Explaining, Exploring, Showing, Solving, Translating};
use crate::page::Page;
use pb_sorts::Counting;

/// What the program is asked.
#[derive(Drop)]
pub enum Request {
    /// A page of the program itself; no input is read.
    Page(Page),
    /// Which properties of the model that the input is hold.
    Check(Checking),
    /// What another command makes of the input.
    Input(Task),
}

impl Request {
    ghost use Rattle.pb_command_line.specs.Words.{named_files, request_files, shows_progress};

    /// Whether progress is to be printed.
    pub fn shows_progress(&self) -> bool
        ensures { result ≡ shows_progress self.now }
    {
        match self {
            Request::Page(_) => false,
            Request::Check(options) => options.solving.progress,
            Request::Input(task) => task.shows_progress(),
        }
    }

    // The files that the words name.
    fn names(&self) -> &[String]
        ensures { map string_bytes result.now ≡ named_files self.now }
    {
        match self {
            Request::Check(options) => options.files.as_slice(),
            Request::Input(Task::Translate(options)) => options.files.as_slice(),
            Request::Input(Task::Why(options)) => options.files.as_slice(),
            Request::Input(Task::Size(options)) => options.files.as_slice(),
            _ => &[],
        }
    }

    /// The files that are read, by their names: none where standard input is.
    pub fn files(&self) -> &[String]
        ensures { map string_bytes result.now ≡ request_files self.now }
    {
        match self.names() {
            [name] if name.as_str() == "-" => &[],
            names => names,
        }
    }
}

/// What is asked of an input but for verdicts: a command, with the options that it takes; where the
/// input is a text or a module, also which of its instances count against the limit.
#[derive(Drop)]
pub enum Task {
    Solve(Solving, Counting),
    Game(Exploring, Counting),
    Solution(Solving, Counting),
    Certificate(Solving, Counting),
    Explain(Explaining, Counting),
    Compile(Counting),
    Verify(Counting),
    List(Counting),
    SolveCode(Solving, Counting),
    Translate(Translating),
    Why(Showing),
    Size(Translating),
}

impl Task {
    ghost use Rattle.pb_command_line.specs.Words.{task_shows_progress};

    // Whether progress is to be printed.
    fn shows_progress(&self) -> bool
        ensures { result ≡ task_shows_progress self.now }
    {
        match self {
            Task::Solve(options, _) => options.progress,
            Task::Game(options, _) => options.progress,
            Task::Solution(options, _) => options.progress,
            Task::Certificate(options, _) => options.progress,
            Task::Explain(options, _) => options.progress,
            Task::SolveCode(options, _) => options.progress,
            Task::Why(options) => options.progress,
            Task::Compile(_) | Task::Verify(_) | Task::List(_) => false,
            Task::Translate(_) | Task::Size(_) => false,
        }
    }
}
