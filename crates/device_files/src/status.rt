ghost use Rattle.std.specs.Prelude.{◌≡◌};
ghost use Rattle.device_files.specs.Statuses.{number_of};

/// How a run ends.
#[derive(Clone, Copy, Debug, PartialEq, Eq)]
pub enum Status {
    /// All was answered and written; a script that was answered was read to its end.
    Done,
    /// The device or the graph is refused.
    Refused,
    /// The words have none of the forms.
    Usage,
    /// The sum is above the budget.
    AboveBudget,
    /// A read failed, of the file or of the script.
    ReadFailed,
    /// A write failed.
    WriteFailed,
    /// Memory ran out.
    NoMemory,
    /// The script had as many bytes as may be, and was cut if it had more.
    CutShort,
}

impl Status {
    /// Returns the number that a process ends with.
    pub fn number(self) -> u8
        ensures { result ≡ number_of self }
    {
        match self {
            Status::Done => 0,
            Status::Refused => 1,
            Status::Usage => 2,
            Status::AboveBudget => 3,
            Status::ReadFailed => 4,
            Status::WriteFailed => 5,
            Status::NoMemory => 6,
            Status::CutShort => 7,
        }
    }
}
