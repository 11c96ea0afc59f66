use std::alloc::AllocError;

/// Why a text gives no graph.
#[derive(Clone, Copy, Debug, PartialEq, Eq)]
pub enum NnfError {
    /// The first line that is not blank is no header, or there is none.
    Header,
    /// The first line with a fault has none of the forms.
    Line { line: u32 },
    /// That line has a child that is no earlier node.
    Child { line: u32 },
    /// That line has a variable that is out of range.
    Variable { line: u32 },
    /// The header has another number of nodes, or else of edges.
    Counts { said: u64, found: u64 },
    /// Nodes times variables are above 2,147,483,648.
    TooLarge { bits: u64 },
    /// Children of an And node share a variable: the first such node, and its least such variable.
    Shared { node: u32, var: u32 },
    /// Memory ran out.
    Memory,
}

impl From<AllocError> for NnfError {
    ghost use Rattle.std.specs.Prelude.{◌≡◌};
    ghost use Rattle.nnf_text.specs.declared.error.NnfError.TheVariants.{Memory};

    ghost from_gives = { λ _ e. e ≡ Memory };

    fn from(_: AllocError) -> Self {
        NnfError::Memory
    }
}
