//! How the program ends, and the status that says so.

ghost use Rattle.std.specs.Prelude.{◌≡◌};
ghost use Rattle.mapdb_program.specs.Statuses.{ending_status};

/// How a run of the program ended.
#[derive(Clone, Copy, Debug, PartialEq, Eq)]
pub enum Ending {
    /// All was done.
    Done,
    /// A line of the script is at fault, a run in threads gave no report, but not since memory ran
    /// out, or the input is too long, or no snapshot that a copy can hold.
    Faulty,
    /// The words were refused, also since one is no UTF-8, or they call for help or the version.
    Refused,
    /// The reader or the writer failed.
    StreamFailed,
    /// Memory ran out.
    OutOfMemory,
}

impl Ending {
    /// The status of the process: 0 to 4, in the order in which the endings stand.
    pub fn status(self) -> u8
        ensures { result ≡ ending_status self }
    {
        match self {
            Ending::Done => 0,
            Ending::Faulty => 1,
            Ending::Refused => 2,
            Ending::StreamFailed => 3,
            Ending::OutOfMemory => 4,
        }
    }
}
