ghost use Rattle.std.specs.Prelude.{◌≡◌};
ghost use Rattle.script_lang.specs.Refusals.{refusal_of, refusal_row};

/// Why a line is refused. If several hold, the length counts first, then the first of these.
#[derive(Clone, Copy, Debug, PartialEq, Eq)]
pub enum LineRefusal {
    /// The first word is no command.
    UnknownCommand,
    /// The number of words is wrong, or a pair has no equals sign.
    BadWords,
    /// A session, a wire or a part is not spelled as a name.
    BadName,
    /// A value is not one of those allowed.
    BadValue,
    /// The line has more bytes than [`LINE_LIMIT`](crate::LINE_LIMIT).
    TooLong,
}

impl LineRefusal {
    // Returns the number of the refusal, and its text.
    fn row(self) -> (u8, &'static str)
        ensures number { result.0 ≡ (refusal_row self).0 }
        ensures text { result.1.now ≡ (refusal_row self).1 }
    {
        match self {
            LineRefusal::UnknownCommand => (1, "unknown command"),
            LineRefusal::BadWords => (2, "bad words"),
            LineRefusal::BadName => (3, "bad name"),
            LineRefusal::BadValue => (4, "bad value"),
            LineRefusal::TooLong => (5, "line too long"),
        }
    }

    /// Returns the number of the refusal, 1 to 5.
    pub fn number(self) -> u8
        ensures { result ≡ (refusal_row self).0 }
    {
        self.row().0
    }

    /// Returns the refusal of a number, or the last for any other number.
    pub fn numbered(number: u8) -> LineRefusal
        ensures { result ≡ refusal_of number }
    {
        match number {
            1 => LineRefusal::UnknownCommand,
            2 => LineRefusal::BadWords,
            3 => LineRefusal::BadName,
            4 => LineRefusal::BadValue,
            _ => LineRefusal::TooLong,
        }
    }

    /// Returns the text of the refusal.
    pub fn text(self) -> &'static str
        ensures { result.now ≡ (refusal_row self).1 }
    {
        self.row().1
    }
}
