ghost use Rattle.std.specs.Prelude.{◌≡◌};
ghost use Rattle.component_lang.specs.inner.LineFaults.{error_in};
ghost use Rattle.component_lang.specs.declared.line_error.LineError.TheVariants.{Memory};

use crate::fault::{LangError, LangFault};
use std::alloc::{AllocError, AllocFailed};

/// The error of a line.
#[derive(Clone, Copy, Debug, PartialEq, Eq)]
pub enum LineError {
    /// The line has this fault.
    Fault(LangFault),
    /// Memory ran out.
    Memory,
}

impl LineError {
    /// Returns the error of the text in which the line has this number.
    pub fn in_line(self, line: u32) -> LangError
        ensures { result ≡ error_in line self }
    {
        match self {
            LineError::Fault(what) => LangError::Bad { line, what },
            LineError::Memory => LangError::Memory,
        }
    }
}

impl From<AllocError> for LineError {
    ghost from_gives = { λ _ e. e ≡ Memory };

    fn from(_: AllocError) -> Self {
        LineError::Memory
    }
}

impl<T: Drop> From<AllocFailed<T>> for LineError {
    ghost from_gives = { λ _ e. e ≡ Memory };

    fn from(_: AllocFailed<T>) -> Self {
        LineError::Memory
    }
}
