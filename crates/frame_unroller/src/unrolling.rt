ghost use Rattle.std.specs.Prelude.{◌≡◌, ◌<◌, ◌≤◌, ◌+◌, length, All, IfOk, true};
ghost use Rattle.text_rules.specs.Expected.{Fulfils};
ghost use Rattle.state_rules.specs.Assignments.{Assignment};
ghost use Rattle.device_model.specs.Devices.{IsDevice, part_names};
ghost use Rattle.bench_reader.specs.SequentialNetlists.{HasShortNames};
ghost use Rattle.clause_encoder.specs.Clauses.{is_clause_list, all_hold};
ghost use Rattle.clause_encoder.specs.Encoding.{clause_list, encoded, raw_count, DescribesBy};
ghost use Rattle.clause_encoder.specs.Replacing.{variable_for};
ghost use Rattle.frame_unroller.specs.Diagnosis.{frame_wires, fits_over};
ghost use Rattle.frame_unroller.specs.Unrolling.{frame_device, owners, shared_variables, shared, unrolled_by, unrolled, reason, IsUnrolled};
ghost use Rattle.frame_unroller.specs.inner.Copying.{AreCopies};
ghost use Rattle.frame_unroller.specs.declared.unrolling.UnrollError.TheVariants.{Memory};

use crate::copying::{Copies, copies_over};
use crate::counting::clause_count;
use crate::delays::{copy_count, delays_of};
use crate::tables::tables_of;
use bench_reader::Sequential;
use clause_encoder::{CLAUSE_LIMIT, Cnf, EncodeError, VARIABLE_LIMIT, encode, replaced};
use device_model::{BuildError, Component, Device, Name, Names, PART_LIMIT, WIRE_LIMIT};
use std::alloc::{AllocError, Global};

/// The most frames of a netlist.
pub const FRAME_LIMIT: u32 = 64;

/// A netlist over several times: the names of its parts, the wires at all times in the order of their names, and the clauses.
/// The variables are the parts, then these wires, then inner ones.
#[derive(Debug, Drop)]
pub struct Unrolled {
    pub parts: Names,
    pub wires: Names,
    pub cnf: Cnf,
}

/// Why a netlist is not unrolled. The first that applies is reported.
#[derive(Clone, Copy, Debug, PartialEq, Eq)]
pub enum UnrollError {
    /// More than 4,096 copies of parts: `count`.
    TooManyParts { count: u64 },
    /// More than 16,384 wires at all times: `count`.
    TooManyWires { count: u64 },
    /// More than 262,144 clauses of the copies, before any is left out: `count`.
    TooManyClauses { count: u64 },
    /// Memory ran out.
    Memory,
}

impl From<AllocError> for UnrollError {
    ghost from_gives = { λ _ e. e ≡ Memory };

    fn from(_: AllocError) -> Self {
        UnrollError::Memory
    }
}

/// Returns the clauses of a netlist over `frames` frames, with one health state. Wire w at time t, counted from 1, is named
/// `w@t`, with t in four digits.
///
/// All clauses are true for some bits of the inner variables exactly if the health of the parts and the bits of the wires at
/// all times fit, frame by frame. Sharing the health leaves out none of the copies' clauses.
pub fn unroll(alloc: Global, seq: &Sequential, frames: u32) -> Result<Unrolled, UnrollError>
    requires some { 1 ≤ frames }
    requires few { frames ≤ FRAME_LIMIT }
    requires short { HasShortNames seq.now.device }
    ensures unrolled { Fulfils (λ made. made) reason (unrolled seq.now frames) result }
    ensures describes { IfOk result (λ made. DescribesBy made.cnf (length seq.now.device.parts)
        (length (frame_wires seq.now frames)) (fits_over seq.now frames)) }
    ensures whole { IfOk result (λ made. length made.cnf.clauses
        ≡ length (clause_list (frame_device seq.now frames)).clauses) }
    ensures valid { IfOk result IsUnrolled }
{
    let delays = delays_of(alloc, seq)?;
    let count = copy_count(seq, &delays, frames);
    if count > PART_LIMIT as u64 {
        return Err(UnrollError::TooManyParts { count });
    }
    let count = u64::from(frames) * seq.device.wires().len() as u64;
    if count > WIRE_LIMIT as u64 {
        return Err(UnrollError::TooManyWires { count });
    }
    let count = clause_count(seq, &delays, frames);
    if count > u64::from(CLAUSE_LIMIT) {
        return Err(UnrollError::TooManyClauses { count });
    }
    let copies = copies_over(alloc, seq, &delays, frames)?;
    unroll_by(alloc, seq, copies)
}

// Returns the clauses of the copies. All counts are within the limits.
fn unroll_by(alloc: Global, seq: &Sequential, copies: Copies) -> Result<Unrolled, UnrollError>
    requires copies { AreCopies seq.now copies.frames copies.parts.items copies.places.items copies.wires.items }
    requires some { 1 ≤ copies.frames }
    requires few { copies.frames ≤ FRAME_LIMIT }
    requires few_parts { length copies.parts.items ≤ PART_LIMIT }
    requires few_wires { length copies.wires.items ≤ WIRE_LIMIT }
    requires few_clauses { raw_count (frame_device seq.now copies.frames) ≤ CLAUSE_LIMIT }
    ensures unrolled { Fulfils (λ made. made) reason
        (unrolled_by seq.now copies.frames (encoded (frame_device seq.now copies.frames))) result }
    ensures describes { IfOk result (λ made. DescribesBy made.cnf (length seq.now.device.parts)
        (length (frame_wires seq.now copies.frames)) (fits_over seq.now copies.frames)) }
    ensures whole { IfOk result (λ made. length made.cnf.clauses
        ≡ length (clause_list (frame_device seq.now copies.frames)).clauses) }
    ensures valid { IfOk result IsUnrolled }
{
    let (device, places) = device_of(alloc, seq, copies)?;
    let list = match encode(alloc, &device) {
        Ok(list) => list,
        Err(EncodeError::Memory) => return Err(UnrollError::Memory),
        // The clauses were counted before a copy was made.
        Err(EncodeError::TooManyClauses { .. }) => unreachable!(),
    };
    let cnf = shared(alloc, &list, &places, seq.device.parts().len() as u32)?;
    let (_, wires) = device.take_names(alloc)?;
    Ok(Unrolled {
        parts: Names::of(names_of(alloc, seq.device.parts())?),
        wires: Names::of(wires),
        cnf,
    })
}

// Builds the device of copies; returns the places of their parts too.
#[tactic(auto, using(crate::proofs::Built::device_made))]
fn device_of(
    alloc: Global,
    seq: &Sequential,
    copies: Copies,
) -> Result<(Device, Vec<u32>), AllocError>
    requires copies { AreCopies seq.now copies.frames copies.parts.items copies.places.items copies.wires.items }
    requires some { 1 ≤ copies.frames }
    requires few { copies.frames ≤ FRAME_LIMIT }
    requires few_parts { length copies.parts.items ≤ PART_LIMIT }
    requires few_wires { length copies.wires.items ≤ WIRE_LIMIT }
    ensures device { IfOk result (λ made. made.0 ≡ frame_device seq.now copies.frames) }
    ensures valid { IfOk result (λ made. IsDevice made.0) }
    ensures places { IfOk result (λ made. made.1.items ≡ owners seq.now copies.frames) }
{
    let Copies {
        frames: _,
        parts,
        places,
        wires,
    } = copies;
    let tables = tables_of(alloc, seq.device.tables())?;
    match Device::build(alloc, parts, wires, tables) {
        Ok(device) => Ok((device, places)),
        Err(error) => match error {
            BuildError::Memory => Err(AllocError),
            // Copies have different names, and as many ports as their parts, at existing wires.
            _ => unreachable!(),
        },
    }
}

// Replaces the health of each copy by that of its part. There are `parts` parts.
#[tactic(auto, using(crate::proofs::Rules::shared_variables))]
fn shared(alloc: Global, list: &Cnf, places: &[u32], parts: u32) -> Result<Cnf, AllocError>
    requires many { length places.now ≤ list.now.vars }
    requires places { All (λ place. place < parts) places.now }
    requires few { parts + list.now.vars < VARIABLE_LIMIT }
    ensures given { IfOk result (λ _. is_clause_list list.now ≡ true) }
    ensures shared { IfOk result (λ cnf. cnf ≡ shared parts places.now list.now) }
    ensures truth { IfOk result (λ cnf. (a : Assignment) → all_hold a cnf.clauses
        ≡ all_hold (λ v. a (variable_for (shared_variables parts places.now list.now.vars) v)) list.now.clauses) }
{
    let others = list.vars() - places.len() as u32;
    let mut variables = Vec::with_capacity(alloc, list.vars() as usize)?;
    for place in places {
        variables.push(*place + 1)?;
    }
    for other in 0..others {
        variables.push(parts + 1 + other)?;
    }
    replaced(alloc, list, &variables, parts + others)
}

fn names_of(alloc: Global, parts: &[Component]) -> Result<Vec<Name>, AllocError>
    ensures { IfOk result (λ names. names.items ≡ part_names parts.now) }
{
    let mut names = Vec::with_capacity(alloc, parts.len())?;
    for part in parts {
        names.push(Name::new(alloc, part.name.as_slice())?)?;
    }
    Ok(names)
}
