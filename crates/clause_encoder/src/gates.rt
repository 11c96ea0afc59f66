ghost use Rattle.std.specs.Prelude.{◌≡◌, ◌<◌, ◌≤◌, ◌+◌, ◌-◌, ◌%◌, ◌==◌, ◌++◌, ◌∷◌, pos, true, map, length, count_ones, All, OnOk, IfOk, if◌then◌else◌};
ghost use Rattle.state_rules.specs.Bits.{same_bit};
ghost use Rattle.device_model.specs.Devices.{takes_ports};
ghost use Rattle.device_model.specs.Gates.{rule, takes};
ghost use Rattle.clause_encoder.specs.Clauses.{literal};
ghost use Rattle.clause_encoder.specs.Encoding.{tidy, and_clauses, parity_clauses, row_bits, blocking_literals, blocked_rows, table_clauses, gate_clauses, and_step, xor_step, step_clauses, wide_clauses, is_wide, any_gate_clauses, inner_count, raw_clauses};

use crate::limits::{NARROW_LIMIT, VARIABLE_LIMIT};
use crate::writer::Writer;
use device_model::{Gate, INPUT_LIMIT, Kind, Reduction, Rule, Table};
use std::alloc::AllocError;

// Writes the clauses of a part, from the variables of its health and ports. Its inner variables are `inner` and up. Returns
// the next one.
#[tactic(auto, using(crate::proofs::WrittenClauses::taken))]
pub(crate) fn push_part(
    writer: &mut Writer,
    tables: &[Table],
    kind: Kind,
    health: u32,
    inner: u32,
    ports: &[u32],
) -> Result<u32, AllocError>
    requires arity { takes_ports tables.now (rule kind) (length ports.now) ≡ true }
    requires health { health < VARIABLE_LIMIT }
    requires inner { inner + INPUT_LIMIT < VARIABLE_LIMIT }
    requires ports { All (λ v. v < VARIABLE_LIMIT) ports.now }
    ensures clauses { OnOk result
        (writer.new.clauses ≡ writer.old.clauses ++ tidy (raw_clauses tables.now (rule kind) health inner ports.now)) }
    ensures inner { IfOk result (λ next. next ≡ inner + inner_count (rule kind) (length ports.now)) }
    ensures few { IfOk result (λ next. next ≤ inner + INPUT_LIMIT) }
{
    match kind.rule() {
        Rule::Table(table) => {
            push_table(writer, &tables[table as usize], health, ports)?;
            Ok(inner)
        }
        Rule::Gate(gate) => {
            let inputs = ports.len() - 1;
            push_gate(writer, gate, health, inner, &ports[..inputs], ports[inputs])
        }
    }
}

fn push_gate(
    writer: &mut Writer,
    gate: Gate,
    health: u32,
    inner: u32,
    inputs: &[u32],
    output: u32,
) -> Result<u32, AllocError>
    requires arity { takes gate (length inputs.now) ≡ true }
    requires health { health < VARIABLE_LIMIT }
    requires inner { inner + INPUT_LIMIT < VARIABLE_LIMIT }
    requires inputs { All (λ v. v < VARIABLE_LIMIT) inputs.now }
    requires output { output < VARIABLE_LIMIT }
    ensures clauses { OnOk result
        (writer.new.clauses ≡ writer.old.clauses ++ tidy (any_gate_clauses gate health inner inputs.now output)) }
    ensures inner { IfOk result
        (λ next. next ≡ inner + (if is_wide (length inputs.now) then length inputs.now - 2 else 0)) }
{
    if inputs.len() > NARROW_LIMIT {
        return push_chain(writer, gate, health, inner, inputs, output);
    }
    push_narrow(writer, gate, health, inputs, output)?;
    Ok(inner)
}

// Writes the chain of a gate of more than four inputs.
fn push_chain(
    writer: &mut Writer,
    gate: Gate,
    health: u32,
    inner: u32,
    inputs: &[u32],
    output: u32,
) -> Result<u32, AllocError>
    requires arity { takes gate (length inputs.now) ≡ true }
    requires wide { NARROW_LIMIT < length inputs.now }
    requires health { health < VARIABLE_LIMIT }
    requires inner { inner + INPUT_LIMIT < VARIABLE_LIMIT }
    requires inputs { All (λ v. v < VARIABLE_LIMIT) inputs.now }
    requires output { output < VARIABLE_LIMIT }
    ensures clauses { OnOk result
        (writer.new.clauses ≡ writer.old.clauses ++ tidy (wide_clauses gate health inner inputs.now output)) }
    ensures inner { IfOk result (λ next. next ≡ inner + (length inputs.now - 2)) }
{
    let last = inputs.len() - 1;
    let between = &inputs[1..last];
    let mut next = inner;
    let mut before = inputs[0];
    for input in between {
        push_step(writer, gate.reduction, next, before, *input)?;
        before = next;
        next += 1;
    }
    push_narrow(writer, gate, health, &[before, inputs[last]], output)?;
    Ok(next)
}

// Writes the clauses that define an inner variable by the one before it and the next input.
fn push_step(
    writer: &mut Writer,
    reduction: Reduction,
    inner: u32,
    before: u32,
    input: u32,
) -> Result<(), AllocError>
    requires inner { inner < VARIABLE_LIMIT }
    requires before { before < VARIABLE_LIMIT }
    requires input { input < VARIABLE_LIMIT }
    ensures { OnOk result (writer.new.clauses ≡ writer.old.clauses ++ tidy (step_clauses reduction inner before input)) }
{
    match reduction {
        Reduction::AllOnes => push_and_step(writer, inner, before, input, true),
        Reduction::AnyOne => push_and_step(writer, inner, before, input, false),
        Reduction::OddOnes => push_xor_step(writer, inner, before, input),
    }
}

fn push_and_step(
    writer: &mut Writer,
    inner: u32,
    before: u32,
    input: u32,
    as_is: bool,
) -> Result<(), AllocError>
    requires inner { inner < VARIABLE_LIMIT }
    requires before { before < VARIABLE_LIMIT }
    requires input { input < VARIABLE_LIMIT }
    ensures { OnOk result (writer.new.clauses ≡ writer.old.clauses ++ tidy (and_step as_is inner before input)) }
{
    let not_inner = literal(!as_is, inner);
    writer.push(&[not_inner, literal(as_is, before)])?;
    writer.push(&[not_inner, literal(as_is, input)])?;
    writer.push(&[
        literal(as_is, inner),
        literal(!as_is, before),
        literal(!as_is, input),
    ])
}

#[tactic(auto, using(crate::proofs::Rules::written_clauses))]
fn push_xor_step(writer: &mut Writer, inner: u32, before: u32, input: u32) -> Result<(), AllocError>
    requires inner { inner < VARIABLE_LIMIT }
    requires before { before < VARIABLE_LIMIT }
    requires input { input < VARIABLE_LIMIT }
    ensures { OnOk result (writer.new.clauses ≡ writer.old.clauses ++ tidy (xor_step inner before input)) }
{
    let inner_set = literal(true, inner);
    let inner_clear = literal(false, inner);
    let before_set = literal(true, before);
    let before_clear = literal(false, before);
    let input_set = literal(true, input);
    let input_clear = literal(false, input);
    writer.push(&[inner_clear, before_set, input_set])?;
    writer.push(&[inner_clear, before_clear, input_clear])?;
    writer.push(&[inner_set, before_set, input_clear])?;
    writer.push(&[inner_set, before_clear, input_set])
}

// Writes the clauses of a gate without a chain.
fn push_narrow(
    writer: &mut Writer,
    gate: Gate,
    health: u32,
    inputs: &[u32],
    output: u32,
) -> Result<(), AllocError>
    requires few { length inputs.now ≤ NARROW_LIMIT }
    requires health { health < VARIABLE_LIMIT }
    requires inputs { All (λ v. v < VARIABLE_LIMIT) inputs.now }
    requires output { output < VARIABLE_LIMIT }
    ensures { OnOk result
        (writer.new.clauses ≡ writer.old.clauses ++ tidy (gate_clauses gate health inputs.now output)) }
{
    match gate.reduction {
        Reduction::AllOnes => push_and(writer, health, inputs, true, output, gate.positive),
        Reduction::AnyOne => push_and(writer, health, inputs, false, output, !gate.positive),
        Reduction::OddOnes => push_parity(writer, health, inputs, output, gate.positive),
    }
}

// If the part is ok, the output is the conjunction of the inputs. A side that is not `.._as_is` is negated.
fn push_and(
    writer: &mut Writer,
    health: u32,
    inputs: &[u32],
    inputs_as_is: bool,
    output: u32,
    output_as_is: bool,
) -> Result<(), AllocError>
    requires health { health < VARIABLE_LIMIT }
    requires inputs { All (λ v. v < VARIABLE_LIMIT) inputs.now }
    requires output { output < VARIABLE_LIMIT }
    ensures { OnOk result (writer.new.clauses ≡ writer.old.clauses ++ tidy
        (and_clauses (pos health) (literal output_as_is output)
        (map (literal inputs_as_is) inputs.now))) }
{
    let faulty = literal(false, health);
    let no_output = literal(!output_as_is, output);
    for input in inputs {
        writer.push(&[faulty, no_output, literal(inputs_as_is, *input)])?;
    }
    writer.begin();
    writer.add(faulty)?;
    writer.add(literal(output_as_is, output))?;
    add_literals(writer, !inputs_as_is, inputs)?;
    writer.end()
}

fn add_literals(writer: &mut Writer, positive: bool, variables: &[u32]) -> Result<(), AllocError>
    requires { All (λ v. v < VARIABLE_LIMIT) variables.now }
    ensures clauses { OnOk result (writer.new.clauses ≡ writer.old.clauses) }
    ensures raw { OnOk result
        (writer.new.raw.items ≡ writer.old.raw.items ++ map (literal positive) variables.now) }
{
    for variable in variables {
        writer.add(literal(positive, *variable))?;
    }
    Ok(())
}

// If the part is ok, the output is 1 exactly if the number of ones is odd (if `odd`) or even (if not).
fn push_parity(
    writer: &mut Writer,
    health: u32,
    inputs: &[u32],
    output: u32,
    odd: bool,
) -> Result<(), AllocError>
    requires few { length inputs.now ≤ NARROW_LIMIT }
    requires health { health < VARIABLE_LIMIT }
    requires inputs { All (λ v. v < VARIABLE_LIMIT) inputs.now }
    requires output { output < VARIABLE_LIMIT }
    ensures { OnOk result
        (writer.new.clauses ≡ writer.old.clauses ++ tidy (parity_clauses odd health inputs.now output)) }
{
    let faulty = literal(false, health);
    for row in 0..1u32 << inputs.len() {
        begin_row(writer, faulty, inputs, row)?;
        writer.add(literal(parity(odd, row), output))?;
        writer.end()?;
    }
    Ok(())
}

// Whether the number of ones is odd (if `odd`) or even (if not).
fn parity(odd: bool, row: u32) -> bool
    ensures { result ≡ same_bit odd (count_ones row % 2 == 1) }
{
    odd == (row.count_ones() % 2 == 1)
}

fn push_table(
    writer: &mut Writer,
    table: &Table,
    health: u32,
    ports: &[u32],
) -> Result<(), AllocError>
    requires arity { length ports.now ≡ table.now.ports }
    requires health { health < VARIABLE_LIMIT }
    requires ports { All (λ v. v < VARIABLE_LIMIT) ports.now }
    ensures { OnOk result
        (writer.new.clauses ≡ writer.old.clauses ++ tidy (table_clauses (Some table.now) health ports.now)) }
{
    push_side(writer, table, true, health, ports)?;
    push_side(writer, table, false, health, ports)
}

// If the part is ok (if `ok`) or faulty (if not), its ports have no row outside the table's.
#[tactic(auto, using(crate::proofs::WrittenClauses::row_below))]
fn push_side(
    writer: &mut Writer,
    table: &Table,
    ok: bool,
    health: u32,
    ports: &[u32],
) -> Result<(), AllocError>
    requires arity { length ports.now ≡ table.now.ports }
    requires health { health < VARIABLE_LIMIT }
    requires ports { All (λ v. v < VARIABLE_LIMIT) ports.now }
    ensures { OnOk result (writer.new.clauses ≡ writer.old.clauses ++ tidy
        (blocked_rows ok (if ok then table.now.ok else table.now.bad) health ports.now)) }
{
    let other = literal(!ok, health);
    for row in 0..1u32 << table.ports() {
        if !table.allows(ok, row) {
            begin_row(writer, other, ports, row)?;
            writer.end()?;
        }
    }
    Ok(())
}

// Opens a clause of `first` and of the literals that are false in a row.
fn begin_row(writer: &mut Writer, first: i32, variables: &[u32], row: u32) -> Result<(), AllocError>
    requires { All (λ v. v < VARIABLE_LIMIT) variables.now }
    ensures clauses { OnOk result (writer.new.clauses ≡ writer.old.clauses) }
    ensures raw { OnOk result
        (writer.new.raw.items ≡ first ∷ blocking_literals variables.now (row_bits row variables.now)) }
{
    writer.begin();
    writer.add(first)?;
    let mut rest = row;
    for variable in variables {
        writer.add(literal(rest % 2 == 0, *variable))?;
        rest /= 2;
    }
    Ok(())
}

// Returns the literal that is true if the variable has the bit.
fn literal(positive: bool, variable: u32) -> i32
    requires { variable < VARIABLE_LIMIT }
    ensures { result ≡ literal positive variable }
{
    let variable = variable as i32;
    if positive { variable } else { -variable }
}
