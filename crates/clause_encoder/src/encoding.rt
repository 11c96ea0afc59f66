ghost use Rattle.std.specs.Prelude.{◌≡◌, ◌<◌, ◌≤◌, ◌+◌, ◌++◌, ℕ, true, List, map, length, All, IfOk, OnOk};
ghost use Rattle.text_rules.specs.Expected.{Fulfils};
ghost use Rattle.device_model.specs.Devices.{IsDevice, takes_ports};
ghost use Rattle.device_model.specs.Gates.{rule, takes};
ghost use Rattle.clause_encoder.specs.Encoding.{encoded, reason, Describes, raw_count, raw_clauses, table_clauses, gate_clauses, step_clauses, any_gate_clauses, all_clauses, clause_list, tidy};
ghost use Rattle.clause_encoder.specs.declared.encoding.EncodeError.TheVariants.{Memory};

use crate::cnf::Cnf;
use crate::gates::push_part;
use crate::limits::{CLAUSE_LIMIT, NARROW_LIMIT, VARIABLE_LIMIT};
use crate::writer::Writer;
use device_model::{Device, Gate, Kind, Reduction, Rule, Table};
use std::alloc::{AllocError, Global};

/// Why a device has no list of clauses.
#[derive(Clone, Copy, Debug, PartialEq, Eq)]
pub enum EncodeError {
    /// More than 262,144 clauses, before any is left out: `count`.
    TooManyClauses { count: u64 },
    /// Memory ran out.
    Memory,
}

impl From<AllocError> for EncodeError {
    ghost from_gives = { λ _ e. e ≡ Memory };

    fn from(_: AllocError) -> Self {
        EncodeError::Memory
    }
}

/// Returns the clauses of a device. Its health variables are 1 and up, in the order of the parts, and the wires follow. Then
/// come the inner variables of the gates of more than four inputs.
///
/// All clauses are true for some bits of the inner variables exactly if the health of the parts and the bits of the wires fit
/// the device.
#[tactic(auto, using(crate::proofs::Rules::encoded_clauses))]
pub fn encode(alloc: Global, device: &Device) -> Result<Cnf, EncodeError>
    ensures encoded { Fulfils (λ cnf. cnf) reason (encoded device.now) result }
    ensures describes { IfOk result (λ cnf. Describes cnf device.now) }
    ensures valid { IsDevice device.now }
{
    let count = raw_count(device);
    if count > u64::from(CLAUSE_LIMIT) {
        return Err(EncodeError::TooManyClauses { count });
    }
    let mut writer = Writer::new(alloc);
    let vars = push_parts(alloc, &mut writer, device)?;
    Ok(Cnf::of_flat(vars, writer.into_clauses()))
}

// Writes the clauses of all parts, and returns the greatest variable.
#[tactic(auto, using(crate::proofs::Rules::device_arities))]
fn push_parts(alloc: Global, writer: &mut Writer, device: &Device) -> Result<u32, AllocError>
    ensures clauses { OnOk result (writer.new.clauses ≡ writer.old.clauses ++ tidy (all_clauses device.now)) }
    ensures vars { IfOk result (λ vars. vars ≡ (clause_list device.now).vars) }
    ensures few { IfOk result (λ vars. vars < VARIABLE_LIMIT) }
{
    let parts = device.parts();
    let wires = device.wires();
    let mut inner = parts.len() as u32 + wires.len() as u32 + 1;
    let mut ports = Vec::new(alloc);
    for (place, part) in parts.iter().enumerate() {
        set_ports(&mut ports, parts.len(), part.ports.as_slice())?;
        inner = push_part(
            writer,
            device.tables(),
            part.kind,
            place as u32 + 1,
            inner,
            &ports,
        )?;
    }
    Ok(inner - 1)
}

// Sets `ports` to the variables of these wires, which follow those of the parts.
fn set_ports(ports: &mut Vec<u32>, parts: usize, wires: &[u32]) -> Result<(), AllocError>
    requires few { parts ≤ 4096 }
    requires wires { All (λ wire. wire < 16384) wires.now }
    ensures { OnOk result (ports.new.items ≡ map (λ wire. parts + wire + 1) wires.now) }
{
    ports.clear();
    for wire in wires {
        ports.push(parts as u32 + *wire + 1)?;
    }
    Ok(())
}

// Counts the clauses of the parts, before any is left out.
#[tactic(auto, using(crate::proofs::Rules::device_arities))]
fn raw_count(device: &Device) -> u64
    ensures count { result ≡ raw_count device.now }
    ensures valid { IsDevice device.now }
{
    let mut count = 0;
    for part in device.parts() {
        count += part_count(device.tables(), part.kind, part.ports.as_slice().len());
    }
    count
}

/// Counts the clauses of a part with `ports` ports, before any is left out.
pub fn part_count(tables: &[Table], kind: Kind, ports: usize) -> u64
    requires { takes_ports tables.now (rule kind) ports ≡ true }
    ensures count { (h z : ℕ) (vs : List ℕ) → length vs ≡ ports
        → length (raw_clauses tables.now (rule kind) h z vs) ≡ result }
    ensures few { result ≤ 256 }
{
    match kind.rule() {
        Rule::Table(table) => table_count(&tables[table as usize]),
        Rule::Gate(gate) => gate_count(gate, ports - 1),
    }
}

#[tactic(auto, using(crate::proofs::Rules::counted_gates))]
fn gate_count(gate: Gate, inputs: usize) -> u64
    requires { takes gate inputs ≡ true }
    ensures count { (h z y : ℕ) (xs : List ℕ) → length xs ≡ inputs
        → length (any_gate_clauses gate h z xs y) ≡ result }
    ensures few { result ≤ 252 }
{
    if inputs > NARROW_LIMIT {
        return step_count(gate.reduction) * (inputs as u64 - 1);
    }
    narrow_count(gate, inputs)
}

// Counts the clauses of a gate without a chain.
#[tactic(auto, using(crate::proofs::Rules::counted_gates))]
fn narrow_count(gate: Gate, inputs: usize) -> u64
    requires arity { takes gate inputs ≡ true }
    requires few { inputs ≤ NARROW_LIMIT }
    ensures count { (h y : ℕ) (xs : List ℕ) → length xs ≡ inputs
        → length (gate_clauses gate h xs y) ≡ result }
    ensures few { result ≤ 16 }
{
    match gate.reduction {
        Reduction::AllOnes | Reduction::AnyOne => inputs as u64 + 1,
        Reduction::OddOnes => 1 << inputs,
    }
}

// Counts the clauses of a step of a chain.
fn step_count(reduction: Reduction) -> u64
    ensures count { (z before x : ℕ) → length (step_clauses reduction z before x) ≡ result }
    ensures few { result ≤ 4 }
{
    match reduction {
        Reduction::AllOnes | Reduction::AnyOne => 3,
        Reduction::OddOnes => 4,
    }
}

// Counts the rows not allowed if ok, plus those not allowed if faulty.
#[tactic(auto, using(crate::proofs::Rules::counted_tables))]
fn table_count(table: &Table) -> u64
    ensures count { (h : ℕ) (vs : List ℕ) → length vs ≡ table.now.ports
        → length (table_clauses (Some table.now) h vs) ≡ result }
    ensures few { result ≤ 128 }
{
    let rows = 1u64 << table.ports();
    2 * rows - u64::from(table.ok().count_ones()) - u64::from(table.bad().count_ones())
}
