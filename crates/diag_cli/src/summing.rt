//! What is found of an adder. It has its own file with few imports, since the prover goes through all that is dropped when memory runs out.
ghost use Rattle.std.specs.Prelude.{◌≡◌, ◌<◌, ◌≤◌, IfOk};
ghost use Rattle.diag_cli.specs.inner.Loading.{IsSummaryOf, IsInStep};
ghost use Rattle.diag_cli.specs.inner.Serving.{IsServable};

use crate::costs::costs_of;
use crate::load_memory::LoadMemory;
use adder_load::{Found, PLACE_LIMIT};
use device_model::{Device, Name};
use minimiser::Steps;
use node_store::Graph;
use std::alloc::{AllocError, Global};
use std::sync::ledger::{Blank, Ledger};

/// What is printed of an adder: its sizes, and the first and last of the listed diagnoses, if there are any.
#[derive(Drop)]
pub(crate) struct Summary {
    pub(crate) parts: Vec<Name>,
    pub(crate) wires: u64,
    pub(crate) clauses: u64,
    pub(crate) found: Option<Found>,
    pub(crate) first: Vec<u32>,
    pub(crate) last: Vec<u32>,
}

/// Makes the summary of an adder by its graph. All memory that it needs is taken here.
pub(crate) fn summary_by<L: Ledger>(
    alloc: Global,
    blank: Blank,
    device: Device,
    graph: &Graph,
    clauses: u64,
    places: u32,
) -> Result<Summary, AllocError>
    requires name { blank.name ≡ L.name }
    requires shares { blank.parts ≡ L.parts }
    requires some { 0 < blank.parts }
    requires graph { IsServable device graph.now }
    requires places { places ≤ PLACE_LIMIT }
    ensures summary { IfOk result (IsSummaryOf device clauses places) }
    ensures in_step { IfOk result IsInStep }
{
    let costs = costs_of(alloc, &device)?;
    let mut memory = LoadMemory::new(alloc, graph, costs.len())?;
    memory.note(&device, places);
    let found = memory.sample(graph, &costs, &mut Steps::<L>::new(blank));
    let (first, last) = memory.states();
    let (parts, wires) = device.take_names(alloc)?;
    Ok(Summary {
        parts,
        wires: wires.len() as u64,
        clauses,
        found,
        first,
        last,
    })
}
