ghost use Rattle.std.specs.Prelude.{◌≡◌, ◌∷◌, codes, is_some, length, map};
ghost use Rattle.std.specs.List.{flat_map};
ghost use Rattle.std.specs.Option.{option_map};
ghost use Rattle.text_rules.specs.Tokens.{tokens_left};
ghost use Rattle.bench_reader.specs.Statements.{has_no_mark, listed_from, inputs_in, statement_of, kind_fault, statement_fault, reading};
ghost use Rattle.bench_reader.specs.Signals.{driven_by_gate};
ghost use Rattle.bench_reader.specs.inner.Lines.{line_tokens, behind_bracket, input_tokens, input_names, meaning, meaning_of_line, unnumbered, is_close, count_names};

use crate::fault::BenchFault;
use crate::kinds::{FlipFlops, NamedKind, kind_named, spells_in_any_case};
use text_rules::{Tokens, is_mark, is_short_name, uncommented};

/// What a line says.
#[derive(Clone, Copy)]
pub enum Statement<'a> {
    /// The signal is driven from outside.
    Input(&'a [u8]),
    /// The signal has to be driven.
    Output(&'a [u8]),
    /// A gate with its output, its kind and its inputs.
    Gate {
        output: &'a [u8],
        kind: NamedKind,
        inputs: Inputs<'a>,
    },
}

/// The inputs of a gate: the text of its line after the opening bracket. Each reader cuts it into tokens again, so that
/// a line takes no memory of its own.
#[derive(Clone, Copy)]
pub struct Inputs<'a> {
    text: &'a [u8],
}

impl<'a> Inputs<'a> {
    /// Iterates over the names and the marks, in order.
    pub fn tokens(self) -> Tokens<'a>
        ensures { tokens_left result ≡ input_tokens self.entry }
    {
        Tokens::with_marks(self.text)
    }
}

// Returns the text after the first opening bracket, or nothing if there is none.
fn behind_bracket(line: &[u8]) -> &[u8]
    ensures { result.now ≡ behind_bracket line.now }
{
    match line.iter().position(|byte| *byte == b'(') {
        Some(opening) => &line[opening + 1..],
        None => &[],
    }
}

/// A statement and the number of its line.
#[derive(Clone, Copy)]
pub struct NumberedStatement<'a> {
    pub line: u32,
    pub statement: Statement<'a>,
}

/// Counts the gates and flip-flops.
pub fn gate_count(statements: &[NumberedStatement<'_>]) -> usize
    ensures { result ≡ length (flat_map driven_by_gate (map unnumbered statements.now)) }
{
    let mut count = 0;
    for numbered in statements {
        if matches!(numbered.statement, Statement::Gate { .. }) {
            count += 1;
        }
    }
    count
}

/// Whether no byte of a token is a mark.
pub fn has_no_mark(token: &[u8]) -> bool
    ensures { result ≡ has_no_mark token.now }
{
    !token.iter().any(|byte| is_mark(*byte))
}

// Whether `word` and the tokens left are words with commas between them and a closing bracket.
fn are_listed<'a>(mut word: &'a [u8], mut tokens: Tokens<'a>) -> bool
    ensures { result ≡ is_some (listed_from (word.entry.now ∷ tokens_left tokens.entry)) }
{
    while has_no_mark(word) {
        match tokens.next() {
            Some(b",") => {}
            Some(b")") => return tokens.next().is_none(),
            _ => return false,
        }
        let Some(next) = tokens.next() else {
            return false;
        };
        word = next;
    }
    false
}

// Whether the tokens left are words with commas between them, or no word, and a closing bracket.
fn is_list(mut tokens: Tokens<'_>) -> bool
    ensures { result ≡ is_some (inputs_in (tokens_left tokens.entry)) }
{
    match tokens.next() {
        None => false,
        Some(b")") => tokens.next().is_none(),
        Some(word) => are_listed(word, tokens),
    }
}

// Whether the tokens left are one closing bracket.
fn closes(mut tokens: Tokens<'_>) -> bool
    ensures { result ≡ is_close (tokens_left tokens.entry) }
{
    match tokens.next() {
        Some(b")") => tokens.next().is_none(),
        _ => false,
    }
}

// Reads `signal )` after a keyword and the opening bracket.
fn signal_of<'a>(keyword: &[u8], mut tokens: Tokens<'a>) -> Option<Statement<'a>>
    ensures { option_map meaning result ≡ statement_of (keyword.now ∷ codes "(" ∷ tokens_left tokens.entry) }
{
    let signal = tokens.next()?;
    if !has_no_mark(signal) || !closes(tokens) {
        return None;
    }
    if spells_in_any_case(keyword, b"INPUT") {
        Some(Statement::Input(signal))
    } else if spells_in_any_case(keyword, b"OUTPUT") {
        Some(Statement::Output(signal))
    } else {
        None
    }
}

// Reads `KIND ( inputs )` after the output and the equals sign of a line.
fn gate_of<'a>(line: &'a [u8], output: &'a [u8], mut tokens: Tokens<'a>) -> Option<Statement<'a>>
    requires { line_tokens line.now ≡ output.now ∷ codes "=" ∷ tokens_left tokens }
    ensures { option_map meaning result ≡ statement_of (line_tokens line.now) }
{
    let kind = tokens.next()?;
    if tokens.next()? == b"(".as_slice()
        && has_no_mark(output)
        && has_no_mark(kind)
        && is_list(tokens)
    {
        Some(Statement::Gate {
            output,
            kind: kind_named(kind),
            inputs: Inputs {
                text: behind_bracket(line),
            },
        })
    } else {
        None
    }
}

// Reads the statement of a line from what follows its first token.
fn statement_of<'a>(
    line: &'a [u8],
    first: &'a [u8],
    mut tokens: Tokens<'a>,
) -> Option<Statement<'a>>
    requires { line_tokens line.now ≡ first.now ∷ tokens_left tokens }
    ensures { option_map meaning result ≡ statement_of (line_tokens line.now) }
{
    match tokens.next()? {
        b"(" => signal_of(first, tokens),
        b"=" => gate_of(line, first, tokens),
        _ => None,
    }
}

// Counts the inputs of a gate, if each may name a signal.
#[tactic(auto, using(crate::proofs::Rules::names_counted))]
fn count_names(inputs: Inputs<'_>) -> Option<usize>
    ensures { result ≡ count_names (input_names inputs.entry) }
{
    let mut count = 0;
    for token in inputs.tokens() {
        if has_no_mark(token) {
            if !is_short_name(token) {
                return None;
            }
            count += 1;
        }
    }
    Some(count)
}

// Finds the fault of a gate's kind, or else of its number of inputs.
fn kind_fault(flip_flops: FlipFlops, kind: NamedKind, inputs: usize) -> Option<BenchFault>
    ensures { result ≡ kind_fault flip_flops inputs kind }
{
    if let (FlipFlops::Refused, NamedKind::Sequential) = (flip_flops, kind) {
        return Some(BenchFault::Sequential);
    }
    match kind.part_gate() {
        None => Some(BenchFault::Kind),
        Some(gate) => (!gate.takes_inputs(inputs)).then_some(BenchFault::Inputs),
    }
}

// Finds the fault of a statement: a name, else its kind, else its number of inputs.
#[tactic(auto, using(crate::proofs::Rules::faults_of_gates))]
fn fault_of(flip_flops: FlipFlops, statement: &Statement<'_>) -> Option<BenchFault>
    ensures { result ≡ statement_fault flip_flops (meaning statement.now) }
{
    match *statement {
        Statement::Input(signal) | Statement::Output(signal) => {
            (!is_short_name(signal)).then_some(BenchFault::Name)
        }
        Statement::Gate {
            output,
            kind,
            inputs,
        } => match count_names(inputs) {
            Some(count) if is_short_name(output) => kind_fault(flip_flops, kind, count),
            _ => Some(BenchFault::Name),
        },
    }
}

/// Reads one line: `None` if it has no tokens.
pub fn read_line(flip_flops: FlipFlops, line: &[u8]) -> Result<Option<Statement<'_>>, BenchFault>
    ensures { meaning_of_line result ≡ reading flip_flops line.now }
{
    let line = uncommented(line);
    let mut tokens = Tokens::with_marks(line);
    let Some(first) = tokens.next() else {
        return Ok(None);
    };
    let Some(statement) = statement_of(line, first, tokens) else {
        return Err(BenchFault::Line);
    };
    match fault_of(flip_flops, &statement) {
        Some(fault) => Err(fault),
        None => Ok(Some(statement)),
    }
}
