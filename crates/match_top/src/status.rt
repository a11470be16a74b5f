//! How a call of the program may end.
ghost use Rattle.std.specs.Prelude.{◌≡◌};
ghost use Rattle.match_top.specs.Status.{code};

/// Why a command is refused.
#[derive(Clone, Copy, Debug, PartialEq, Eq)]
pub enum Cause {
    /// The words are no command.
    NoCommand,
    /// The pattern file is refused.
    BadPatterns,
    /// The GIMPLE file is refused.
    BadFunctions,
    /// A file isn't there, or a read failed.
    NoFile,
    /// A run met an operation without a value.
    Undefined,
    /// A run didn't return within its fuel.
    OutOfFuel,
    /// There is no function of that name, or the values don't suit it.
    NoRun,
}

/// How a call ends.
#[derive(Clone, Copy, Debug, PartialEq, Eq)]
pub enum Status {
    /// The work is done.
    Done,
    /// The command is refused.
    Refused(Cause),
    /// A write failed.
    WriteFailed,
    /// A budget was spent and a further step exists.
    Exhausted,
    /// Memory ran out.
    NoMemory,
}

impl Status {
    /// The number with which the program ends.
    pub fn code(self) -> u8
        ensures { result ≡ code self }
    {
        match self {
            Status::Done => 0,
            Status::Refused(Cause::NoCommand) => 2,
            Status::Refused(Cause::BadPatterns) => 3,
            Status::Refused(Cause::BadFunctions) => 4,
            Status::Refused(Cause::NoFile) => 5,
            Status::WriteFailed => 6,
            Status::Exhausted => 7,
            Status::NoMemory => 8,
            Status::Refused(Cause::Undefined) => 9,
            Status::Refused(Cause::OutOfFuel) => 10,
            Status::Refused(Cause::NoRun) => 11,
        }
    }
}
