ghost use Rattle.std.specs.Prelude.{◌≡◌, ◌<◌, ◌↔◌, ◌++◌, [], ◌∷◌, length, IsTrue, OnOk, OnErr};
ghost use Rattle.state_rules.specs.Graphs.{node_at, edges};

use crate::Memory;
use crate::walk::Walk;
use flat_lists::FlatLists;
use state_rules::NodeKind;
use std::alloc::Global;
use std::marker::Model;

/// Any nodes, in order. Their children are one after the other in one vector.
#[derive(Debug, Drop)]
pub struct Nodes {
    kinds: Vec<NodeKind>,
    // as many as kinds
    kids: FlatLists<u32>,
}

impl Model for Nodes {
    ghost use Rattle.std.specs.Prelude.{◌≡◌, List, length};
    ghost use Rattle.state_rules.specs.Graphs.{Node};
    ghost use Rattle.node_store.specs.Flat.{nodes_of};

    ghost Value = { List Node };

    ghost view = { λ f. nodes_of f.kinds.items f.kids };

    ghost invariant = { λ f. length f.kids ≡ length f.kinds.items };
}

impl Nodes {
    /// Returns an empty list of nodes.
    pub fn new(alloc: Global) -> Nodes
        ensures { result ≡ [] }
    {
        Nodes {
            kinds: Vec::new(alloc),
            kids: FlatLists::new(alloc),
        }
    }

    /// Returns the number of nodes.
    pub fn len(&self) -> usize
        ensures { result ≡ length self.now }
    {
        self.walk().len()
    }

    /// Whether there is no node.
    pub fn is_empty(&self) -> bool
        ensures { IsTrue result ↔ (self.now ≡ []) }
    {
        self.len() == 0
    }

    /// Returns the number of children of all nodes.
    #[tactic(auto, using(crate::proofs::Rules::zipped_nodes))]
    pub fn edges(&self) -> usize
        ensures { result ≡ edges self.now }
    {
        self.kids.item_count()
    }

    /// Returns the kind of a node.
    pub fn what(&self, node: usize) -> NodeKind
        requires { node < length self.now }
        ensures { result ≡ (node_at self.now node).what }
    {
        self.walk().what(node)
    }

    /// Returns the children of a node.
    pub fn kids(&self, node: usize) -> &[u32]
        requires { node < length self.now }
        ensures { result.now ≡ (node_at self.now node).kids }
    {
        self.walk().kids(node)
    }

    /// Iterates over the nodes in order.
    pub fn walk(&self) -> Walk<'_>
        ensures { result ≡ self.now }
    {
        Walk::new(&self.kinds, self.kids.lists())
    }

    /// Adds a node after the others.
    #[tactic(auto, using(crate::proofs::Rules::zipped_nodes))]
    pub fn push(&mut self, what: NodeKind, kids: &[u32]) -> Result<(), Memory>
        ensures ok { OnOk result (self.new ≡ self.old ++ record { what = what; kids = kids.now } ∷ []) }
        ensures err { OnErr result (self.new ≡ self.old) }
    {
        self.kinds.reserve(1)?;
        self.kids.push(kids)?;
        self.kinds.push(what)?;
        Ok(())
    }
}
