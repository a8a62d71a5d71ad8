//! Exit statuses of the program.

ghost use Rattle.std.specs.Prelude.{◌≡◌};

/// Why the program ended.
#[derive(Clone, Copy, Debug, PartialEq, Eq)]
pub enum Status {
    /// All was decoded, or the verdict is yes.
    Done = 0,
    /// The verdict is no.
    No = 1,
    /// The stream ends inside a message, or the verdict is unfinished.
    Unfinished = 2,
    /// The stream or the capture was refused.
    Refused = 3,
    /// Memory was refused.
    Memory = 4,
    /// A file, a socket or the terminal failed.
    Device = 5,
    /// The command line is none that the program knows.
    Usage = 64,
}

impl Status {
    ghost use Rattle.bgp_tool.specs.Status.{code_of};

    /// The number that the system is told.
    pub fn code(self) -> u8
        ensures { result ≡ code_of self }
    {
        self as u8
    }
}
