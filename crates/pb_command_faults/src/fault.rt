//! Faults that stand at no place of the input.
ghost use Rattle.std.specs.Prelude.{◌≡◌};
ghost use Rattle.pb_command_faults.specs.Lines.{line_of};

/// A fault of the whole run.
#[derive(Clone, Copy, Debug, PartialEq, Eq)]
pub enum ProgramFault {
    /// U01: the words of the command line ask for nothing that the program does.
    U01,
    /// U02: the input is longer than its limit.
    U02,
    /// E01: reading failed.
    E01,
    /// E02: writing failed.
    E02,
    /// M01: a request for memory was refused.
    M01,
}

impl ProgramFault {
    /// The line of this fault: its number and a line feed.
    pub fn line(self) -> &'static str
        ensures { result.now ≡ line_of self }
    {
        match self {
            ProgramFault::U01 => "U01\n",
            ProgramFault::U02 => "U02\n",
            ProgramFault::E01 => "E01\n",
            ProgramFault::E02 => "E02\n",
            ProgramFault::M01 => "M01\n",
        }
    }
}
