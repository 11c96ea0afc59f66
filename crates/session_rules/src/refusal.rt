ghost use Rattle.std.specs.Prelude.{◌≡◌};
ghost use Rattle.session_rules.specs.Refusals.{refusal_row};

/// Why a request is refused. Nothing changes then.
#[derive(Clone, Copy, Debug, PartialEq, Eq)]
pub enum Refusal {
    /// No session of this name is open.
    NoSession,
    /// The session is open already.
    OpenAlready,
    /// As many sessions are open as are allowed.
    Full,
    /// No wire has this name.
    NoWire,
    /// No part has a given name.
    NoPart,
    /// States are not listed by rising cost here.
    NoLevels,
    /// The graph of the diagnoses is not written here.
    NoLeast,
    /// No graph is written here.
    NoGraph,
}

impl Refusal {
    // Returns the number of the refusal, and its text.
    fn row(self) -> (u32, &'static str)
        ensures number { result.0 ≡ (refusal_row self).0 }
        ensures text { result.1.now ≡ (refusal_row self).1 }
    {
        match self {
            Refusal::NoSession => (6, "no session"),
            Refusal::OpenAlready => (7, "open already"),
            Refusal::Full => (8, "full"),
            Refusal::NoWire => (9, "no wire"),
            Refusal::NoPart => (10, "no part"),
            Refusal::NoLevels => (11, "no levels"),
            Refusal::NoLeast => (12, "no least"),
            Refusal::NoGraph => (13, "no graph"),
        }
    }

    /// Returns the number of the refusal, 6 to 13. Lower ones are those of lines.
    pub fn number(self) -> u32
        ensures { result ≡ (refusal_row self).0 }
    {
        self.row().0
    }

    /// Returns the text of the refusal.
    pub fn text(self) -> &'static str
        ensures { result.now ≡ (refusal_row self).1 }
    {
        self.row().1
    }
}
