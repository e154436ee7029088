//! How a run of the program ended.
ghost use Rattle.std.specs.Prelude.{◌≡◌};

/// How a run ended; `u8::from` gives the exit status that tells it.
#[derive(Clone, Copy, PartialEq, Eq)]
pub enum Status {
    /// 0: the report was written.
    Answered,
    /// 1: the input is refused, or a property that was checked.
    Refused,
    /// 2: the words of the command line ask for nothing that the program does.
    Usage,
    /// 3: a request for memory was refused.
    OutOfMemory,
    /// 4: reading or writing failed.
    Failed,
    /// 5: a property that was checked is false.
    False,
    /// 6: none is false, and of one the ranges decide.
    Unknown,
}

impl From<Status> for u8 {
    ghost use Rattle.pb_command_line.specs.Status.{code_of};

    ghost from_gives = { λ status code. code ≡ code_of status };

    fn from(status: Status) -> u8 {
        match status {
            Status::Answered => 0,
            Status::Refused => 1,
            Status::Usage => 2,
            Status::OutOfMemory => 3,
            Status::Failed => 4,
            Status::False => 5,
            Status::Unknown => 6,
        }
    }
}

impl Status {
    ghost use Rattle.pb_command_line.specs.Status.{weight_of, worse};

    // How much it matters beside others.
    fn weight(self) -> u8
        ensures { result ≡ weight_of self }
    {
        match self {
            Status::Answered => 0,
            Status::Unknown => 1,
            Status::False => 2,
            Status::Refused => 3,
            Status::Usage => 4,
            Status::OutOfMemory => 5,
            Status::Failed => 6,
        }
    }

    /// The status of a run of two parts, which end with these: that which matters more.
    pub fn or_worse(self, other: Status) -> Status
        ensures { result ≡ worse self other }
    {
        if other.weight() <= self.weight() {
            self
        } else {
            other
        }
    }
}
