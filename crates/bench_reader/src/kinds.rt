ghost use Rattle.std.specs.Prelude.{◌≡◌, true};
ghost use Rattle.std.specs.List.{list_all};
ghost use Rattle.text_rules.specs.Names.{same_name};
ghost use Rattle.device_model.specs.Gates.{gate_named};
ghost use Rattle.bench_reader.specs.Statements.{capitals, kind_named, part_gate};
ghost use Rattle.bench_reader.specs.inner.Lines.{is_capital};

use device_model::Kind;

/// Whether flip-flops are taken.
#[derive(Clone, Copy, Debug, PartialEq, Eq)]
pub enum FlipFlops {
    /// A flip-flop is a fault.
    Refused,
    /// A flip-flop is read as a buffer.
    Taken,
}

/// The kind that a word names.
#[derive(Clone, Copy, Debug, PartialEq, Eq)]
pub enum NamedKind {
    /// A gate, whose output follows its inputs at once.
    Combinational(Kind),
    /// A flip-flop, which keeps its value from one time to the next.
    Sequential,
    Unknown,
}

impl NamedKind {
    /// Returns the gate of the part: a flip-flop is a buffer.
    pub fn part_gate(self) -> Option<Kind>
        ensures { result ≡ part_gate self }
    {
        match self {
            NamedKind::Combinational(gate) => Some(gate),
            NamedKind::Sequential => Some(Kind::Buff),
            NamedKind::Unknown => None,
        }
    }
}

// Whether a word, in letters of any case, is the keyword, which is in capital letters.
#[tactic(auto, using(crate::proofs::Rules::words_in_any_case))]
pub fn spells_in_any_case(word: &[u8], keyword: &[u8]) -> bool
    requires { list_all is_capital keyword.now ≡ true }
    ensures { result ≡ same_name (capitals word.now) keyword.now }
{
    word.eq_ignore_ascii_case(keyword)
}

// Finds the gate that a word names, in letters of any case.
#[tactic(auto, using(crate::proofs::Rules::words_of_gates))]
fn gate_spelled(word: &[u8]) -> Option<Kind>
    ensures { result ≡ gate_named (capitals word.now) }
{
    for gate in Kind::GATES {
        if spells_in_any_case(word, gate.word()) {
            return Some(gate);
        }
    }
    None
}

/// Finds the kind that a word names, in letters of any case.
pub fn kind_named(word: &[u8]) -> NamedKind
    ensures { result ≡ kind_named word.now }
{
    if let Some(gate) = gate_spelled(word) {
        NamedKind::Combinational(gate)
    } else if spells_in_any_case(word, b"BUF") {
        NamedKind::Combinational(Kind::Buff)
    } else if spells_in_any_case(word, b"DFF") {
        NamedKind::Sequential
    } else {
        NamedKind::Unknown
    }
}
