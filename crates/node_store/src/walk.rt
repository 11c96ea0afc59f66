ghost use Rattle.std.specs.Prelude.{◌≡◌, ◌<◌, length};
ghost use Rattle.std.specs.Iterator.{YieldsFirst, item_count};
ghost use Rattle.state_rules.specs.Graphs.{node_at};
ghost use Rattle.node_store.specs.Flat.{nodes_of};

use flat_lists::Lists;
use state_rules::NodeKind;
use std::marker::Model;

/// A node, whose children are borrowed.
#[derive(Debug, Drop)]
pub struct NodeRef<'a> {
    /// Its kind.
    pub what: NodeKind,
    /// Its children.
    pub kids: &'a [u32],
}

impl<'a> Model for NodeRef<'a> {
    ghost use Rattle.state_rules.specs.Graphs.{Node};

    ghost Value = { Node };

    ghost view = { λ n. record { what = n.what; kids = n.kids.now } };
}

/// Iterates over nodes in order. Its value is the nodes that are left.
///
/// A walk over all nodes is faster than access by number: the children of the next node begin where those of one end.
#[derive(Debug, Drop)]
pub struct Walk<'a> {
    kinds: &'a [NodeKind],
    // as many as kinds
    kids: Lists<'a, u32>,
}

impl<'a> Model for Walk<'a> {
    ghost use Rattle.std.specs.Prelude.{◌≡◌, List, length};
    ghost use Rattle.state_rules.specs.Graphs.{Node};
    ghost use Rattle.node_store.specs.Flat.{nodes_of};

    ghost Value = { List Node };

    ghost view = { λ w. nodes_of w.kinds.now w.kids };

    ghost invariant = { λ w. length w.kids ≡ length w.kinds.now };
}

impl<'a> Walk<'a> {
    /// Returns the nodes of these kinds, with these children.
    pub fn new(kinds: &'a [NodeKind], kids: Lists<'a, u32>) -> Walk<'a>
        requires { length kids ≡ length kinds.now }
        ensures { result ≡ nodes_of kinds.now kids.entry }
    {
        Walk { kinds, kids }
    }

    /// Returns another iterator over the nodes that are left.
    pub fn again(&self) -> Walk<'a>
        ensures { result ≡ self.now }
    {
        Walk::new(self.kinds, self.kids.again())
    }

    /// Returns the number of nodes that are left.
    #[tactic(auto, using(crate::proofs::Rules::zipped_nodes))]
    pub fn len(&self) -> usize
        ensures { result ≡ length self.now }
    {
        self.kinds.len()
    }

    /// Returns the kind of a node, counted from the first that is left.
    #[tactic(auto, using(crate::proofs::Rules::zipped_nodes))]
    pub fn what(&self, node: usize) -> NodeKind
        requires { node < length self.now }
        ensures { result ≡ (node_at self.now node).what }
    {
        let kinds = self.kinds;
        kinds[node]
    }

    /// Returns the children of a node, counted from the first that is left.
    #[tactic(auto, using(crate::proofs::Rules::zipped_nodes))]
    pub fn kids(&self, node: usize) -> &'a [u32]
        requires { node < length self.now }
        ensures { result.now ≡ (node_at self.now node).kids }
    {
        self.kids.list(node)
    }
}

impl<'a> Iterator for Walk<'a> {
    type Item = NodeRef<'a>;

    ghost next_gives = { YieldsFirst (λ nodes. nodes) };

    ghost remaining = { item_count (λ nodes. nodes) };

    fn next(&mut self) -> Option<NodeRef<'a>> {
        let (what, kinds) = self.kinds.split_first()?;
        let kids = self.kids.next()?;
        self.kinds = kinds;
        Some(NodeRef { what: *what, kids })
    }
}
