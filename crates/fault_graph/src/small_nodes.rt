ghost use Rattle.std.specs.Prelude.{◌≡◌, ◌+◌, ◌<◌, ◌≤◌, ◌++◌, [], ◌∷◌, true, false, length, All, IfOk, vec_len, vec_capacity};
ghost use Rattle.state_rules.specs.Graphs.{edges};
ghost use Rattle.fault_graph.specs.inner.Rows.{kept_children, Adds};

use crate::Memory;
use flat_lists::Lists;
use node_store::Walk;
use state_rules::NodeKind;
use std::alloc::Global;
use std::marker::Model;

/// The nodes of one small graph after the other, in memory that is allocated when it is made.
#[derive(Drop)]
pub(crate) struct SmallNodes {
    kinds: Vec<NodeKind>,
    // where the children of each node end, and the children of all nodes
    ends: Vec<usize>,
    kids: Vec<u32>,
    node_room: usize,
    child_room: usize,
}

impl Model for SmallNodes {
    ghost use Rattle.std.specs.Prelude.{◌≡◌, ◌≤◌, length, vec_capacity};
    ghost use Rattle.flat_lists.specs.Flat.{pieces, EndAt};
    ghost use Rattle.node_store.specs.Flat.{nodes_of};
    ghost use Rattle.fault_graph.specs.inner.Filled.{Filled};

    ghost Value = { Filled };

    ghost view = { λ s. record {
      nodes = nodes_of s.kinds.items (pieces s.kids.items 0 s.ends.items);
      node_room = s.node_room;
      child_room = s.child_room;
    } };

    ghost invariant = { λ s. (length s.ends.items ≡ length s.kinds.items) × EndAt (length s.kids.items) 0 s.ends.items
        × (s.node_room ≤ vec_capacity s.kinds) × (s.node_room ≤ vec_capacity s.ends) × (s.child_room ≤ vec_capacity s.kids) };
}

impl SmallNodes {
    /// Returns an empty list with room for `nodes` nodes and `kids` children of all of them.
    pub(crate) fn new(alloc: Global, nodes: usize, kids: usize) -> Result<SmallNodes, Memory>
        ensures { IfOk result (λ made. made ≡ record { nodes = []; node_room = nodes; child_room = kids }) }
    {
        Ok(SmallNodes {
            kinds: Vec::with_capacity(alloc, nodes)?,
            ends: Vec::with_capacity(alloc, nodes)?,
            kids: Vec::with_capacity(alloc, kids)?,
            node_room: nodes,
            child_room: kids,
        })
    }

    /// Iterates over the nodes in order.
    #[tactic(auto, using(crate::proofs::Rules::sizes_of_pieces))]
    pub(crate) fn walk(&self) -> Walk<'_>
        ensures { result ≡ self.now.nodes }
    {
        Walk::new(&self.kinds, Lists::new(&self.ends, &self.kids))
    }

    /// Drops all nodes.
    pub(crate) fn clear(&mut self)
        ensures { self.new ≡ record self.old { nodes = [] } }
    {
        self.kinds.clear();
        self.ends.clear();
        self.kids.clear();
    }

    /// Adds a node over the places of the children that cost something, and at most `cost`. If `own` is false and one child is left,
    /// nothing is added. Returns the place of the node that replaces this one: itself, or that child.
    #[tactic(auto, using(crate::proofs::Rules::sizes_of_pieces))]
    pub(crate) fn add(
        &mut self,
        what: NodeKind,
        kids: &[u32],
        values: &[u32],
        places: &[u32],
        cost: u32,
        own: bool,
    ) -> u32
        requires node_room { length self.old.nodes < self.old.node_room }
        requires child_room { edges self.old.nodes + length kids.now ≤ self.old.child_room }
        requires kids { All (λ k. k < length values.now) kids.now }
        requires places { length places.now ≡ length values.now }
        requires few { length self.old.nodes ≤ u32.MAX }
        ensures adds { own ≡ false → Adds self.old.nodes
            (record { what = what; kids = kept_children values.now places.now cost kids.now }) self.new.nodes result }
        ensures own { own ≡ true → self.new.nodes ≡ self.old.nodes
            ++ record { what = what; kids = kept_children values.now places.now cost kids.now } ∷ [] }
        ensures stays { self.new ≡ record self.old { nodes = self.new.nodes } }
    {
        let before = self.kids.len();
        gather(&mut self.kids, kids, values, places, cost);
        if !own && self.kids.len() == before + 1 {
            let only = self.kids[before];
            self.kids.truncate(before);
            return only;
        }
        let place = self.kinds.len() as u32;
        put(&mut self.ends, self.kids.len());
        put(&mut self.kinds, what);
        place
    }
}

// Adds the places of the children that cost something, and at most `cost`.
fn gather(all: &mut Vec<u32>, kids: &[u32], values: &[u32], places: &[u32], cost: u32)
    requires kids { All (λ k. k < length values.now) kids.now }
    requires places { length places.now ≡ length values.now }
    requires room { vec_len all.old + length kids.now ≤ vec_capacity all.old }
    ensures kept { all.new.items ≡ all.old.items ++ kept_children values.now places.now cost kids.now }
    ensures room { vec_capacity all.old ≤ vec_capacity all.new }
{
    for k in kids {
        let value = values[*k as usize];
        if 0 < value && value <= cost {
            put(all, places[*k as usize]);
        }
    }
}

// Adds an item for which there is room.
fn put<T: Copy>(all: &mut Vec<T>, item: T)
    requires { vec_len all.old < vec_capacity all.old }
    ensures items { all.new.items ≡ all.old.items ++ item ∷ [] }
    ensures len { vec_len all.new ≡ vec_len all.old + 1 }
    ensures room { vec_capacity all.old ≤ vec_capacity all.new }
{
    all.push(item).unwrap();
}
