ghost use Rattle.std.specs.Prelude.{◌≡◌, ◌==◌, drop, slice_index_or};
ghost use Rattle.text_rules.specs.Names.{same_name};
ghost use Rattle.text_rules.specs.Tokens.{words};
ghost use Rattle.script_lang.specs.Script.{Note, asked, asked_line, commands, line_of, meaning, read_as, IsNumbered};
ghost use Rattle.script_lang.specs.inner.Found.{asked_by};
ghost use Rattle.script_lang.specs.Script as script;

use crate::cutting::split_word;
use crate::limits::LINE_LIMIT;
use crate::operands::{count_in, name_in, names_in, session_in, value_in};
use crate::refusal::LineRefusal;

/// A line of a script. Its names are well formed but not looked up: there may be no such session, wire or part.
#[derive(Clone, Copy, Debug)]
pub enum Line<'a> {
    /// A blank line or a comment.
    Blank,
    /// `open S`: begins a session of this name.
    Start {
        session: &'a [u8],
    },
    /// `close S`: ends the session.
    Stop {
        session: &'a [u8],
    },
    /// `see S WIRE=1` or `see S WIRE=0`: the wire is seen to be 1 or 0.
    See {
        session: &'a [u8],
        name: &'a [u8],
        bit: bool,
    },
    /// `unsee S WIRE`: nothing is known of the wire any more.
    Unsee {
        session: &'a [u8],
        name: &'a [u8],
    },
    /// `hold S PART=ok` or `hold S PART=bad`: the part is held to be ok or faulty.
    Hold {
        session: &'a [u8],
        name: &'a [u8],
        ok: bool,
    },
    /// `unhold S PART`: nothing is known of the part any more.
    Unhold {
        session: &'a [u8],
        name: &'a [u8],
    },
    /// `min S`: the least cost, with the first diagnosis.
    Min {
        session: &'a [u8],
    },
    /// `next S`: the next diagnosis.
    Next {
        session: &'a [u8],
    },
    /// `list S COUNT`: the next diagnoses, at most COUNT, from 1 to a million.
    List {
        session: &'a [u8],
        count: u32,
    },
    /// `after S PART PART ..`: any number of names, or none. `names` is the text after the session; [`each_name`](crate::each_name) walks
    /// it.
    After {
        session: &'a [u8],
        names: &'a [u8],
    },
    /// `probe S WIRE`: the least cost if the wire is 0, and if it is 1.
    Probe {
        session: &'a [u8],
        name: &'a [u8],
    },
    /// `probes S`: the same for each wire that is not seen.
    Probes {
        session: &'a [u8],
    },
    /// `blame S`: for each part, whether it is faulty in all diagnoses, in some, or in none.
    Blame {
        session: &'a [u8],
    },
    /// `dnnf S`: the graph of the states that agree with the case.
    Dnnf {
        session: &'a [u8],
    },
    /// `level S`: the next state by rising cost.
    Level {
        session: &'a [u8],
    },
    /// `levels S COUNT`: the next states by rising cost, at most COUNT, from 1 to a million.
    Levels {
        session: &'a [u8],
        count: u32,
    },
    /// `leastnnf S`: the graph of the diagnoses.
    LeastNnf {
        session: &'a [u8],
    },
    /// A refused line, with the number of its [`LineRefusal`].
    Refused(u8),
}

/// What a note is about.
#[derive(Clone, Copy, Debug, PartialEq, Eq)]
pub enum Noted {
    /// A wire, seen to be 1 or 0.
    Wire,
    /// A part, held to be ok or faulty.
    Part,
}

/// A line; commands that are answered alike are taken together.
#[derive(Clone, Copy, Debug)]
pub enum AskedLine<'a> {
    /// A blank line or a comment.
    Nothing,
    /// A refused line.
    Refused(LineRefusal),
    /// A request to a session.
    Of {
        session: &'a [u8],
        request: Request<'a>,
    },
}

/// A question about a session's case, which stays as it is.
#[derive(Clone, Copy, Debug)]
pub enum Question<'a> {
    /// `min S`: the least cost, with the first diagnosis.
    Min,
    /// `probe S WIRE`: the least cost if the wire is 0, and if it is 1.
    Probe { wire: &'a [u8] },
    /// `probes S`: the same for each wire that is not seen.
    Probes,
    /// `blame S`: for each part, whether it is faulty in all diagnoses, in some, or in none.
    Blame,
}

/// What a line asks of a session.
#[derive(Clone, Copy, Debug)]
pub enum Request<'a> {
    /// `open S`: begins a session of this name.
    Start,
    /// `close S`: ends the session.
    Stop,
    /// `see S WIRE=1` or `see S WIRE=0`: the wire is seen to be 1 or 0. `hold S PART=ok` or `hold S PART=bad`: the part is held to be ok or
    /// faulty. `unsee S WIRE`, `unhold S PART`: nothing is known any more.
    Note {
        what: Noted,
        name: &'a [u8],
        known: Option<bool>,
    },
    /// `min S`, `probe S WIRE`, `probes S` or `blame S`.
    Tell(Question<'a>),
    /// `next S`.
    Next,
    /// `list S COUNT`: a count from 1 to a million.
    List {
        count: u32,
    },
    /// `after S PART PART ..`. `names` is the text after the session.
    After {
        names: &'a [u8],
    },
    /// `dnnf S`.
    Dnnf,
    /// `level S`.
    Level,
    /// `levels S COUNT`: a count from 1 to a million.
    Levels {
        count: u32,
    },
    /// `leastnnf S`.
    LeastNnf,
}

impl<'a> Line<'a> {
    /// Returns what the line asks, and of which session.
    pub fn asked(self) -> AskedLine<'a>
        ensures { asked_line result ≡ meaning self.entry }
    {
        let (session, request) = match self {
            Line::Blank => return AskedLine::Nothing,
            Line::Refused(number) => return AskedLine::Refused(LineRefusal::numbered(number)),
            Line::Start { session } => (session, Request::Start),
            Line::Stop { session } => (session, Request::Stop),
            Line::See { session, name, bit } => (session, note(Noted::Wire, name, Some(bit))),
            Line::Unsee { session, name } => (session, note(Noted::Wire, name, None)),
            Line::Hold { session, name, ok } => (session, note(Noted::Part, name, Some(ok))),
            Line::Unhold { session, name } => (session, note(Noted::Part, name, None)),
            Line::Min { session } => (session, Request::Tell(Question::Min)),
            Line::Next { session } => (session, Request::Next),
            Line::List { session, count } => (session, Request::List { count }),
            Line::After { session, names } => (session, Request::After { names }),
            Line::Probe { session, name } => (
                session,
                Request::Tell(Question::Probe { wire: name }),
            ),
            Line::Probes { session } => (session, Request::Tell(Question::Probes)),
            Line::Blame { session } => (session, Request::Tell(Question::Blame)),
            Line::Dnnf { session } => (session, Request::Dnnf),
            Line::Level { session } => (session, Request::Level),
            Line::Levels { session, count } => (session, Request::Levels { count }),
            Line::LeastNnf { session } => (session, Request::LeastNnf),
        };
        AskedLine::Of { session, request }
    }
}

// Returns the request to note what is known of a wire or a part, or that nothing is any more.
fn note<'a>(what: Noted, name: &'a [u8], known: Option<bool>) -> Request<'a>
    ensures { asked result ≡ Note what name.now known }
{
    Request::Note { what, name, known }
}

fn same_word(word: &[u8], other: &[u8]) -> bool
    ensures { result ≡ same_name word.now other.now }
{
    word == other
}

// Reads a command and the text after it. The first six are those of a session's life and case.
fn read_command<'a>(command: &[u8], text: &'a [u8]) -> Result<Line<'a>, LineRefusal>
    ensures { asked_by meaning result ≡ read_as commands command.now (words text.now) }
{
    if same_word(command, b"open") {
        let session = session_in(text)?;
        Ok(Line::Start { session })
    } else if same_word(command, b"close") {
        let session = session_in(text)?;
        Ok(Line::Stop { session })
    } else if same_word(command, b"see") {
        let (session, name, bit) = value_in(text, b"1", b"0")?;
        Ok(Line::See { session, name, bit })
    } else if same_word(command, b"unsee") {
        let (session, name) = name_in(text)?;
        Ok(Line::Unsee { session, name })
    } else if same_word(command, b"hold") {
        let (session, name, ok) = value_in(text, b"ok", b"bad")?;
        Ok(Line::Hold { session, name, ok })
    } else if same_word(command, b"unhold") {
        let (session, name) = name_in(text)?;
        Ok(Line::Unhold { session, name })
    } else {
        read_question(command, text)
    }
}

// Reads them if the command is none of these six.
fn read_question<'a>(command: &[u8], text: &'a [u8]) -> Result<Line<'a>, LineRefusal>
    ensures { asked_by meaning result ≡ read_as (drop 6 commands) command.now (words text.now) }
{
    if same_word(command, b"min") {
        let session = session_in(text)?;
        Ok(Line::Min { session })
    } else if same_word(command, b"next") {
        let session = session_in(text)?;
        Ok(Line::Next { session })
    } else if same_word(command, b"list") {
        let (session, count) = count_in(text)?;
        Ok(Line::List { session, count })
    } else if same_word(command, b"after") {
        let (session, names) = names_in(text)?;
        Ok(Line::After { session, names })
    } else if same_word(command, b"probe") {
        let (session, name) = name_in(text)?;
        Ok(Line::Probe { session, name })
    } else if same_word(command, b"probes") {
        let session = session_in(text)?;
        Ok(Line::Probes { session })
    } else {
        read_other(command, text)
    }
}

// Reads them if the command is none of these twelve.
fn read_other<'a>(command: &[u8], text: &'a [u8]) -> Result<Line<'a>, LineRefusal>
    ensures { asked_by meaning result ≡ read_as (drop 12 commands) command.now (words text.now) }
{
    if same_word(command, b"blame") {
        let session = session_in(text)?;
        Ok(Line::Blame { session })
    } else if same_word(command, b"dnnf") {
        let session = session_in(text)?;
        Ok(Line::Dnnf { session })
    } else if same_word(command, b"level") {
        let session = session_in(text)?;
        Ok(Line::Level { session })
    } else if same_word(command, b"levels") {
        let (session, count) = count_in(text)?;
        Ok(Line::Levels { session, count })
    } else if same_word(command, b"leastnnf") {
        let session = session_in(text)?;
        Ok(Line::LeastNnf { session })
    } else {
        Err(LineRefusal::UnknownCommand)
    }
}

// Whether a word begins with a number sign.
fn begins_comment(word: &[u8]) -> bool
    ensures { result ≡ (slice_index_or word.now 0 0 == 35) }
{
    word.first() == Some(&b'#')
}

fn refused<'a>(refusal: LineRefusal) -> Line<'a>
    ensures means { meaning result ≡ script.Refused refusal }
    ensures numbered { IsNumbered result }
{
    Line::Refused(refusal.number())
}

/// Reads one line of a script, without its line feed. Copies nothing: the result borrows from the line.
pub fn parse_line(line: &[u8]) -> Line<'_>
    ensures means { meaning result ≡ line_of line.now }
    // The number of a refusal is one of the five.
    ensures numbered { IsNumbered result }
{
    if line.len() > LINE_LIMIT {
        return refused(LineRefusal::TooLong);
    }
    match split_word(line) {
        None => Line::Blank,
        Some((command, _)) if begins_comment(command) => Line::Blank,
        Some((command, text)) => match read_command(command, text) {
            Ok(line) => line,
            Err(refusal) => refused(refusal),
        },
    }
}
