ghost use Rattle.std.specs.Prelude.{◌≡◌};
ghost use Rattle.bench_reader.specs.Faults.{fault_row};
ghost use Rattle.bench_reader.specs.declared.fault.BenchError.TheVariants.{Memory};

use std::alloc::{AllocError, AllocFailed};

/// The fault of a netlist. If lines have one of the first five, the first such line is reported, with its first fault. Else
/// it is the first line with `DrivenTwice`, else the first with `Undriven`, else `TooMany`.
#[derive(Clone, Copy, Debug, PartialEq, Eq)]
pub enum BenchFault {
    /// The line has none of the forms.
    Line,
    /// A signal has a byte that no name has, or more than 64 bytes.
    Name,
    /// The kind of a gate is not known.
    Kind,
    /// The kind does not take this number of inputs.
    Inputs,
    /// The kind keeps its value from one time to the next: `DFF`.
    Sequential,
    /// A line above drives the signal already. `INPUT` may repeat an `INPUT`.
    DrivenTwice,
    /// No line drives a signal that is used.
    Undriven,
    /// There are more than 4,096 parts or more than 16,384 wires.
    TooMany,
}

impl BenchFault {
    /// Returns the number of the fault, 1 to 8.
    pub fn number(self) -> u32
        ensures { result ≡ (fault_row self).0 }
    {
        self.row().0
    }

    /// Returns the name of the fault, as it is printed.
    pub fn name(self) -> &'static str
        ensures { result.now ≡ (fault_row self).1 }
    {
        self.row().1
    }

    fn row(self) -> (u32, &'static str)
        ensures number { result.0 ≡ (fault_row self).0 }
        ensures name { result.1.now ≡ (fault_row self).1 }
    {
        match self {
            BenchFault::Line => (1, "line"),
            BenchFault::Name => (2, "name"),
            BenchFault::Kind => (3, "kind"),
            BenchFault::Inputs => (4, "inputs"),
            BenchFault::Sequential => (5, "sequential"),
            BenchFault::DrivenTwice => (6, "driven twice"),
            BenchFault::Undriven => (7, "undriven"),
            BenchFault::TooMany => (8, "too many"),
        }
    }
}

/// Why a text gives no device.
#[derive(Clone, Copy, Debug, PartialEq, Eq)]
pub enum BenchError {
    /// The text has a fault in this line, counted from 1; `TooMany` is of line 0.
    Bad { line: u32, what: BenchFault },
    /// Memory ran out.
    Memory,
}

impl From<AllocError> for BenchError {
    ghost from_gives = { λ _ e. e ≡ Memory };

    fn from(_: AllocError) -> Self {
        BenchError::Memory
    }
}

impl<T: Drop> From<AllocFailed<T>> for BenchError {
    ghost from_gives = { λ _ e. e ≡ Memory };

    fn from(_: AllocFailed<T>) -> Self {
        BenchError::Memory
    }
}
