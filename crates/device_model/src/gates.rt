ghost use Rattle.std.specs.Prelude.{◌≡◌};
ghost use Rattle.device_model.specs.Gates.{kind_row, gate_rule, word, rule, gate_named, takes, takes_inputs};

use crate::limits::INPUT_LIMIT;

/// The kind of a part: a gate, or the place of its type's table in the device's list of tables.
#[derive(Clone, Copy, Debug, PartialEq, Eq)]
pub enum Kind {
    And,
    Or,
    Nand,
    Nor,
    Xor,
    Xnor,
    Not,
    Buff,
    Table(u32),
}

/// The question about the inputs of a gate.
#[derive(Clone, Copy, Debug, PartialEq, Eq)]
pub enum Reduction {
    /// Are all 1?
    AllOnes,
    /// Are one or more 1?
    AnyOne,
    /// Is an odd number of them 1?
    OddOnes,
}

/// What a gate computes from its inputs.
#[derive(Clone, Copy, Debug, PartialEq, Eq)]
pub struct Gate {
    pub reduction: Reduction,
    /// Whether the output is the answer, and not its opposite.
    pub positive: bool,
    pub most_inputs: usize,
}

/// The rule of a part: a gate, or the place of a table.
#[derive(Clone, Copy, Debug, PartialEq, Eq)]
pub enum Rule {
    Gate(Gate),
    Table(u32),
}

impl Kind {
    /// Each gate once.
    pub const GATES: [Kind; 8] = [
        Kind::And,
        Kind::Or,
        Kind::Nand,
        Kind::Nor,
        Kind::Xor,
        Kind::Xnor,
        Kind::Not,
        Kind::Buff,
    ];

    fn row(self) -> (&'static [u8], Rule)
        ensures word { result.0.now ≡ (kind_row self).0 }
        ensures rule { result.1 ≡ (kind_row self).1 }
    {
        match self {
            Kind::And => (b"AND", gate_rule(Reduction::AllOnes, true, INPUT_LIMIT)),
            Kind::Or => (b"OR", gate_rule(Reduction::AnyOne, true, INPUT_LIMIT)),
            Kind::Nand => (b"NAND", gate_rule(Reduction::AllOnes, false, INPUT_LIMIT)),
            Kind::Nor => (b"NOR", gate_rule(Reduction::AnyOne, false, INPUT_LIMIT)),
            Kind::Xor => (b"XOR", gate_rule(Reduction::OddOnes, true, INPUT_LIMIT)),
            Kind::Xnor => (b"XNOR", gate_rule(Reduction::OddOnes, false, INPUT_LIMIT)),
            Kind::Not => (b"NOT", gate_rule(Reduction::AllOnes, false, 1)),
            Kind::Buff => (b"BUFF", gate_rule(Reduction::AllOnes, true, 1)),
            Kind::Table(table) => (b"", Rule::Table(table)),
        }
    }

    /// Returns the word of a gate, in capital letters, or an empty one for a part of a type.
    pub fn word(self) -> &'static [u8]
        ensures { result.now ≡ word self }
    {
        self.row().0
    }

    /// Returns the rule of the parts of this kind.
    pub fn rule(self) -> Rule
        ensures { result ≡ rule self }
    {
        self.row().1
    }

    /// Whether this is a gate that takes `inputs` inputs.
    pub fn takes_inputs(self, inputs: usize) -> bool
        ensures { result ≡ takes_inputs (rule self) inputs }
    {
        match self.rule() {
            Rule::Gate(gate) => gate.takes(inputs),
            Rule::Table(_) => false,
        }
    }
}

fn gate_rule(reduction: Reduction, positive: bool, most_inputs: usize) -> Rule
    ensures { result ≡ gate_rule reduction positive most_inputs }
{
    Rule::Gate(Gate {
        reduction,
        positive,
        most_inputs,
    })
}

impl Gate {
    /// Whether a gate takes `inputs` inputs.
    pub fn takes(self, inputs: usize) -> bool
        ensures { result ≡ takes self inputs }
    {
        1 <= inputs && inputs <= self.most_inputs.min(INPUT_LIMIT)
    }
}

/// Finds the gate that a word names, in exactly these letters.
pub fn gate_named(word: &[u8]) -> Option<Kind>
    ensures { result ≡ gate_named word.now }
{
    for gate in Kind::GATES {
        if word == gate.word() {
            return Some(gate);
        }
    }
    None
}
