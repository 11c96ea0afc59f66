ghost use Rattle.std.specs.Prelude.{◌≡◌, ◌<◌, ◌≤◌, ◌++◌, List, length, min, reverse, sum_by, IfOk};
ghost use Rattle.state_rules.specs.Graphs.{IsGraph};
ghost use Rattle.node_store.specs.Stores.{IsFrozen};
ghost use Rattle.elimination_forests.specs.Forests.{Forest};
ghost use Rattle.dnnf_compiler.specs.Along.{IsWay, IsCompiledAlong};
ghost use Rattle.dnnf_compiler.specs.inner.Placing.{Spot, IsReady, IsRaised};

use crate::Memory;
use crate::compiling::Compiled;
use crate::maker::{Children, Maker, taken};
use clause_encoder::Cnf;
use elimination_forests::{Forks, Step};
use node_store::Store;
use std::alloc::Global;

/// Compiles clauses to a decomposable graph that is true exactly if all of them are, from the steps of a forest of them and the forks
/// along it.
///
/// The lists along the forest are at most `BUDGET_LIMIT`. They bound how often a node is made, and so the size of the graph.
pub fn compile_along(
    alloc: Global,
    cnf: &Cnf,
    steps: &[Step],
    forks: &[Forks],
) -> Result<Compiled, Memory>
    requires { (forest : Forest) × IsWay cnf.now steps.now forks.now forest }
    ensures { IfOk result (λ compiled. (forest : Forest) → IsWay cnf.now steps.now forks.now forest
        → IsCompiledAlong forest cnf.now compiled) }
{
    let mut maker = Maker::new(alloc, cnf.vars(), count_lists(forks))?;
    let mut stack = Vec::new(alloc);
    for place in (0..steps.len()).rev() {
        let nodes = make_step(alloc, &mut maker, steps[place], &forks[place], &mut stack)?;
        stack.push(nodes)?;
    }
    let count = stack.len();
    let trees = take_top(alloc, &mut stack, count)?;
    let first = vec![in alloc; 0; count]?;
    let kids = taken(Children::new(alloc), &first, &trees)?;
    let root = maker.meet(alloc, kids.as_slice())?;
    let compiled = graph_of(maker.store, root)?;
    Ok(compiled)
}

fn graph_of(store: Store, root: u32) -> Result<Compiled, Memory>
    requires { root < length store.nodes }
    ensures graph { IfOk result (λ compiled. IsFrozen store root compiled.graph) }
    ensures valid { IfOk result (λ compiled. IsGraph compiled.graph) }
    ensures made { IfOk result (λ compiled. compiled.made ≡ store.made) }
{
    let made = store.made();
    match store.freeze(root) {
        Ok(graph) => Ok(Compiled { graph, made }),
        Err((_, error)) => Err(error),
    }
}

// Makes the nodes of one place of the forest. Takes those of the places right below from the stack.
fn make_step(
    alloc: Global,
    maker: &mut Maker,
    step: Step,
    forks: &Forks,
    stack: &mut Vec<Vec<u32>>,
) -> Result<Vec<u32>, Memory>
    requires { (spot : Spot) × (rest : List Spot) × IsReady maker.old step forks.now stack.old.items spot rest }
    ensures { IfOk result (λ nodes. (spot : Spot) (rest : List Spot)
        → IsReady maker.old step forks.now stack.old.items spot rest
        → IsRaised maker.old maker.new stack.new.items nodes.items spot rest) }
{
    let below = take_top(alloc, stack, step.trees as usize)?;
    let nodes = maker.make_place(alloc, step.var, forks, &below)?;
    Ok(nodes)
}

// Takes `count` items from the end of a stack. The last one comes first.
fn take_top(alloc: Global, stack: &mut Vec<Vec<u32>>, count: usize) -> Result<Vec<Vec<u32>>, Memory>
    requires { count ≤ length stack.old.items }
    ensures taken { IfOk result (λ top. reverse stack.old.items ≡ top.items ++ reverse stack.new.items) }
    ensures count { IfOk result (λ top. length top.items ≡ count) }
{
    let mut top = Vec::with_capacity(alloc, count)?;
    for _ in 0..count {
        top.push(stack.pop().unwrap())?;
    }
    Ok(top)
}

fn count_lists(forks: &[Forks]) -> usize
    ensures { result ≡ min (sum_by (λ fork. length fork.zero.ways) forks.now) usize.MAX }
{
    let mut count = 0usize;
    for fork in forks {
        count = count.saturating_add(fork.zero.len());
    }
    count
}
