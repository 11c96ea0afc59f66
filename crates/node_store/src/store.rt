ghost use Rattle.std.specs.Prelude.{◌≡◌, ℕ, ◌+◌, ◌-◌, ◌*◌, ◌<◌, ◌≤◌, ◌^◌, ◌++◌, [], ◌∷◌, true, map, List, length, slice_get, slice_index, Some, All, IfOk, IfErr, OnOk, OnErr, ◌==◌};
ghost use Rattle.state_rules.specs.Assignments.{Assignment};
ghost use Rattle.state_rules.specs.Bits.{same_bit};
ghost use Rattle.state_rules.specs.declared.nodes.NodeKind.TheVariants.{And, Or};
ghost use Rattle.state_rules.specs.Graphs.{literal_node, at_most_one, is_true, mentions, apart_at, node_fits, AreNodes, IsGraph};
ghost use Rattle.node_store.specs.Stores.{IsStore, IsFrozen, Makes, Means, AddsAtMost, EachOnce, literals};
ghost use Rattle.node_store.specs.inner.Literals.{IsNew};
ghost use Rattle.node_store.specs.inner.Keeping.{shown};
ghost use Rattle.node_store.specs.inner.Freezing.{AreBefore, IsBelow, IsClosed, Marks, IsCopied};

use crate::Memory;
use crate::flat::Nodes;
use crate::graph::Graph;
use crate::nearby::Nearby;
use indexmap::IndexSet;
use smallvec::SmallVec;
use state_rules::{CHILD_LIMIT, NodeKind};
use std::alloc::Global;
use std::marker::Model;

/// The most times that a store makes a node.
pub const MADE_LIMIT: u64 = 2_147_483_648;

/// A store has fewer variables than this.
pub const VARIABLE_LIMIT: u32 = 536_870_912;

// Children as a store keeps them. Two need no memory of their own.
type Children = SmallVec<u32, 2>;

#[derive(Debug, PartialEq, Eq, Hash, Drop)]
struct Kept {
    what: NodeKind,
    kids: Children,
}

/// Shared nodes: each is there once, and its number is its place.
#[derive(Debug, Drop)]
pub struct Store {
    nodes: IndexSet<Kept, Nearby>,
    vars: u32,
    made: u64,
    handed: u64,
}

impl Model for Store {
    ghost use Rattle.std.specs.Prelude.{map};
    ghost use Rattle.node_store.specs.Stores.{Stored, IsStore};
    ghost use Rattle.node_store.specs.inner.Keeping.{shown};

    ghost Value = { Stored };

    ghost view = { λ s. record { nodes = map shown s.nodes.keys; vars = s.vars; made = s.made; handed = s.handed } };

    ghost invariant = { λ s. IsStore (record { nodes = map shown s.nodes.keys; vars = s.vars; made = s.made; handed = s.handed }) };
}

impl Store {
    /// Returns a store of the two literal nodes of each variable.
    #[tactic(auto, using(crate::proofs::Rules::new_literals))]
    pub fn new(alloc: Global, vars: u32) -> Result<Store, Memory>
        requires { vars < VARIABLE_LIMIT }
        ensures literals { IfOk result (λ store. store
            ≡ record { nodes = literals vars; vars = vars; made = 0; handed = 0 }) }
        ensures valid { IfOk result IsStore }
    {
        let mut nodes = IndexSet::with_hasher(alloc, Nearby);
        for before in 0..vars {
            add_literal(alloc, &mut nodes, before + 1, true)?;
            add_literal(alloc, &mut nodes, before + 1, false)?;
        }
        Ok(Store {
            nodes,
            vars,
            made: 0,
            handed: 0,
        })
    }

    /// Returns the node of a literal, whose variable is 1 to `vars`.
    pub fn literal(&self, var: u32, positive: bool) -> u32
        requires some { 1 ≤ var }
        requires within { var ≤ self.now.vars }

        ensures there { slice_get self.now.nodes result ≡ Some (literal_node var positive) }
        ensures truth { (a : Assignment) → is_true self.now.nodes result a ≡ same_bit positive (a var) }
        ensures variables { (v : ℕ) → mentions self.now.nodes v result ≡ (var == v) }
        ensures valid { IsStore self.now }
    {
        prove!(var <= self.vars);
        2 * (var - 1) + u32::from(!positive)
    }

    /// Returns the And node of these children, which is true if all of them are. They are nodes of the store, and no two of them, at
    /// different places, share a variable. After lack of memory the store is as it was.
    #[tactic(auto, using(crate::proofs::Rules::fitting_nodes))]
    pub fn and(&mut self, kids: &[u32]) -> Result<u32, Memory>
        requires kids { All (λ k. k < length self.old.nodes) kids.now }
        requires apart { (v : ℕ) → at_most_one (map (mentions self.old.nodes v) kids.now) ≡ true }
        requires few { length kids.now < CHILD_LIMIT }
        requires few_made { self.old.made < MADE_LIMIT }

        ensures made { IfOk result (λ node. Makes self.old self.new And kids.now node) }
        ensures valid { OnOk result (IsStore self.new) }
        ensures means { IfOk result (λ node. Means self.old.nodes self.new.nodes And kids.now node) }
        ensures err { OnErr result (self.new ≡ self.old) }
    {
        self.add(NodeKind::And, kids)
    }

    /// Returns the Or node of these children, which is true if one of them is. They are nodes of the store. After lack of memory the store
    /// is as it was.
    #[tactic(auto, using(crate::proofs::Rules::fitting_nodes))]
    pub fn or(&mut self, kids: &[u32]) -> Result<u32, Memory>
        requires kids { All (λ k. k < length self.old.nodes) kids.now }
        requires few { length kids.now < CHILD_LIMIT }
        requires few_made { self.old.made < MADE_LIMIT }

        ensures made { IfOk result (λ node. Makes self.old self.new Or kids.now node) }
        ensures valid { OnOk result (IsStore self.new) }
        ensures means { IfOk result (λ node. Means self.old.nodes self.new.nodes Or kids.now node) }
        ensures err { OnErr result (self.new ≡ self.old) }
    {
        self.add(NodeKind::Or, kids)
    }

    /// Makes room for `room` more nodes, so that the table need not grow when they are added. The store is as it was, also after lack of
    /// memory.
    pub fn reserve(&mut self, room: usize) -> Result<(), Memory>
        ensures { self.new ≡ self.old }
    {
        self.nodes.reserve(room)
    }

    /// Returns how often a node was made, also if an equal one was there.
    pub fn made(&self) -> u64
        ensures made { result ≡ self.now.made }
        ensures valid { IsStore self.now }
    {
        self.made
    }

    /// Returns how many children were handed in.
    pub fn handed(&self) -> u64
        ensures { result ≡ self.now.handed }
    {
        self.handed
    }

    /// Returns the graph of `root` and the nodes below it. If there is no memory, it returns the store.
    pub fn freeze(self, root: u32) -> Result<Graph, (Store, Memory)>
        requires { root < length self.nodes }
        ensures ok { IfOk result (λ graph. IsFrozen self root graph) }
        ensures valid { IfOk result IsGraph }
        ensures err { IfErr result (λ e. e.0 ≡ self) }
    {
        match self.frozen(root) {
            Ok(graph) => Ok(graph),
            Err(error) => Err((self, error)),
        }
    }

    // Returns the same graph, and the store stays.
    fn frozen(&self, root: u32) -> Result<Graph, Memory>
        requires { root < length self.now.nodes }
        ensures ok { IfOk result (λ graph. IsFrozen self.now root graph) }
        ensures valid { IfOk result IsGraph }
    {
        let alloc = *self.nodes.allocator();
        let nodes = self.nodes.as_slice();
        let below = below(alloc, nodes, root as usize)?;
        let copies = copied(alloc, nodes, &below, self.vars)?;
        Ok(Graph::new(copies, self.vars))
    }

    // Makes a node, or takes an equal one.
    fn add(&mut self, what: NodeKind, kids: &[u32]) -> Result<u32, Memory>
        requires fits { node_fits self.old.vars (length self.old.nodes)
            (record { what = what; kids = kids.now }) ≡ true }
        requires apart { (v : ℕ) → apart_at (mentions self.old.nodes v) what kids.now ≡ true }
        requires few { length kids.now < CHILD_LIMIT }
        requires few_made { self.old.made < MADE_LIMIT }

        ensures made { IfOk result (λ node. Makes self.old self.new what kids.now node) }
        ensures valid { OnOk result (IsStore self.new) }
        ensures means { IfOk result (λ node. Means self.old.nodes self.new.nodes what kids.now node) }
        ensures err { OnErr result (self.new ≡ self.old) }
    {
        let alloc = *self.nodes.allocator();
        let place = insert(alloc, &mut self.nodes, what, kids)?;
        self.made += 1;
        self.handed += kids.len() as u64;
        Ok(place as u32)
    }
}

// Adds a node unless it is there, and returns its place.
fn insert(
    alloc: Global,
    nodes: &mut IndexSet<Kept, Nearby>,
    what: NodeKind,
    kids: &[u32],
) -> Result<usize, Memory>
    ensures there { IfOk result (λ place. slice_get (map shown nodes.new.keys) place
        ≡ Some (record { what = what; kids = kids.now })) }
    ensures nodes { OnOk result (AddsAtMost (map shown nodes.old.keys)
        (record { what = what; kids = kids.now }) (map shown nodes.new.keys)) }
    ensures once { OnOk result (EachOnce (map shown nodes.new.keys)) }
    ensures err { OnErr result (map shown nodes.new.keys ≡ map shown nodes.old.keys) }
{
    let kids = kept_children(alloc, kids)?;
    let (place, _) = nodes.insert_full(Kept { what, kids })?;
    Ok(place)
}

// Returns children as a store keeps them. Most nodes have two: then no loop copies them.
fn kept_children(alloc: Global, kids: &[u32]) -> Result<Children, Memory>
    ensures { IfOk result (λ kept. kept.items ≡ kids.now) }
{
    match kids {
        [first, second] => Ok(SmallVec::from_buf(alloc, [*first, *second])),
        _ => SmallVec::from_slice(alloc, kids),
    }
}

fn add_literal(
    alloc: Global,
    nodes: &mut IndexSet<Kept, Nearby>,
    var: u32,
    positive: bool,
) -> Result<(), Memory>
    requires { IsNew (map shown nodes.old.keys) (literal_node var positive) }
    ensures nodes { OnOk result (map shown nodes.new.keys
        ≡ map shown nodes.old.keys ++ literal_node var positive ∷ []) }
    ensures once { OnOk result (EachOnce (map shown nodes.new.keys)) }
{
    insert(alloc, nodes, NodeKind::Literal { var, positive }, &[])?;
    Ok(())
}

// Returns which nodes are `root` or below it.
fn below(alloc: Global, nodes: &[Kept], root: usize) -> Result<Vec<bool>, Memory>
    requires root { root < length nodes.now }
    requires kids { AreBefore (map shown nodes.now) }
    ensures { IfOk result (λ below. IsBelow (map shown nodes.now) root below.items) }
{
    let mut below = vec![in alloc; false; root + 1]?;
    below[root] = true;
    for at in (0..root + 1).rev() {
        mark(&mut below, at, nodes[at].kids.as_slice());
    }
    Ok(below)
}

// Marks the children of a node if it is marked.
fn mark(below: &mut [bool], at: usize, kids: &[u32])
    requires at { at < length below.old }
    requires kids { All (λ k. k < at) kids.now }
    ensures { Marks below.old at kids.now below.new }
{
    if !below[at] {
        return;
    }
    for child in kids {
        below[*child as usize] = true;
    }
}

// Returns the marked nodes, with the new numbers of their children.
fn copied(alloc: Global, nodes: &[Kept], below: &[bool], vars: u32) -> Result<Nodes, Memory>
    requires long { length below.now ≤ length nodes.now }
    requires few { length nodes.now < 2 ^ 32 }
    requires nodes { AreNodes vars (map shown nodes.now) }
    requires closed { IsClosed (map shown nodes.now) below.now }
    ensures { IfOk result (λ copies. (numbers : List ℕ)
        × IsCopied vars (map shown nodes.now) below.now copies numbers (length below.now)) }
{
    let mut copies = Nodes::new(alloc);
    let mut numbers = Vec::with_capacity(alloc, below.len())?;
    let mut kids = Vec::new(alloc);
    for at in 0..below.len() {
        if !below[at] {
            numbers.push(0)?;
            continue;
        }
        let node = &nodes[at];
        renumber(&mut kids, node.kids.as_slice(), &numbers)?;
        numbers.push(copies.len() as u32)?;
        copies.push(node.what, &kids)?;
    }
    Ok(copies)
}

// Makes `kids` the new numbers of the children.
fn renumber(kids: &mut Vec<u32>, old: &[u32], numbers: &[u32]) -> Result<(), Memory>
    requires { All (λ k. k < length numbers.now) old.now }
    ensures { OnOk result (kids.new.items ≡ map (slice_index numbers.now) old.now) }
{
    kids.clear();
    for child in old {
        kids.push(numbers[*child as usize])?;
    }
    Ok(())
}
