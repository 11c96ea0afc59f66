ghost use Rattle.std.specs.Prelude.{◌≡◌};
ghost use Rattle.component_lang.specs.Faults.{fault_row};
ghost use Rattle.component_lang.specs.declared.fault.LangError.TheVariants.{Memory};

use std::alloc::{AllocError, AllocFailed};

/// The fault of a design. The first fault of the first line with one is reported; `NoTop` comes last.
#[derive(Clone, Copy, Debug, PartialEq, Eq)]
pub enum LangFault {
    /// The first word is not allowed here, or too few or too many words follow it.
    Line,
    /// A word must be a name, 1 to 64 name bytes without a dot, and is not.
    Name,
    /// A gate, type, block, port, wire or part has this name already, or the type already has a cost.
    Twice,
    /// The kind is no gate and is not closed above, an argument is no wire of the block, or the top is no block.
    Unknown,
    /// A type has no port or more than 6, or a part has more or fewer arguments than its kind takes.
    Ports,
    /// A row is not a character 0 or 1 for each port of the type.
    Row,
    /// The text ends without a top.
    NoTop,
    /// A line that is not blank follows the top.
    AfterTop,
    /// A cost is not a number from 1 to 1000, in decimal digits without a leading zero.
    Cost,
}

impl LangFault {
    /// Returns the number of the fault, 1 to 9.
    pub fn number(self) -> u32
        ensures { result ≡ (fault_row self).0 }
    {
        self.row().0
    }

    /// Returns the name of the fault, as it is printed.
    pub fn name(self) -> &'static str
        ensures { result.now ≡ (fault_row self).1 }
    {
        self.row().1
    }

    fn row(self) -> (u32, &'static str)
        ensures number { result.0 ≡ (fault_row self).0 }
        ensures name { result.1.now ≡ (fault_row self).1 }
    {
        match self {
            LangFault::Line => (1, "line"),
            LangFault::Name => (2, "name"),
            LangFault::Twice => (3, "twice"),
            LangFault::Unknown => (4, "unknown"),
            LangFault::Ports => (5, "ports"),
            LangFault::Row => (6, "row"),
            LangFault::NoTop => (7, "no top"),
            LangFault::AfterTop => (8, "after top"),
            LangFault::Cost => (9, "cost"),
        }
    }
}

/// Why a text gives no design.
#[derive(Clone, Copy, Debug, PartialEq, Eq)]
pub enum LangError {
    /// The text has a fault in this line, counted from 1; `NoTop` is of line 0.
    Bad { line: u32, what: LangFault },
    /// Memory ran out.
    Memory,
}

impl From<AllocError> for LangError {
    ghost from_gives = { λ _ e. e ≡ Memory };

    fn from(_: AllocError) -> Self {
        LangError::Memory
    }
}

impl<T: Drop> From<AllocFailed<T>> for LangError {
    ghost from_gives = { λ _ e. e ≡ Memory };

    fn from(_: AllocFailed<T>) -> Self {
        LangError::Memory
    }
}
