//! What is listed of a case, and what comes next of it.
ghost use Rattle.std.specs.Prelude.{◌≡◌};
ghost use Rattle.engines.specs.Answers.{is_found};

/// The two listings of a case.
#[derive(Clone, Copy, Debug)]
pub enum Listed {
    /// Its diagnoses, in order.
    Diagnoses,
    /// Its states by rising cost.
    Levels,
}

/// What comes next of a listing.
#[derive(Clone, Copy, Debug)]
pub enum NextState {
    /// A state, and its cost if the listing shows costs.
    Found(Option<u32>),
    /// There are states, but no listed one is later.
    End,
    /// No state agrees with the case.
    Inconsistent,
}

impl NextState {
    /// Whether it is a state.
    pub fn is_found(self) -> bool
        ensures { result ≡ is_found self }
    {
        match self {
            NextState::Found(_) => true,
            NextState::End | NextState::Inconsistent => false,
        }
    }
}
