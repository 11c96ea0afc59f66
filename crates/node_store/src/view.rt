ghost use Rattle.std.specs.Prelude.{◌≡◌, ◌<◌, ◌^◌, length};
ghost use Rattle.state_rules.specs.Graphs.{node_at, IsGraph};

use crate::walk::Walk;
use state_rules::NodeKind;
use std::marker::Model;

/// A graph whose nodes lie elsewhere: in a [`Graph`](crate::Graph), or in memory that other graphs were in before.
#[derive(Debug, Drop)]
pub struct GraphView<'a> {
    nodes: Walk<'a>,
    vars: u32,
}

impl<'a> Model for GraphView<'a> {
    ghost use Rattle.std.specs.Prelude.{◌^◌, ◌<◌};
    ghost use Rattle.state_rules.specs.Graphs.{Graph as Shown, IsGraph};

    ghost Value = { Shown };

    ghost view = { λ g. record { nodes = g.nodes; vars = g.vars } };

    ghost invariant = { λ g. IsGraph (record { nodes = g.nodes; vars = g.vars }) × (g.vars < 2 ^ 32) };
}

impl<'a> GraphView<'a> {
    /// Returns the graph of these nodes.
    pub fn new(nodes: Walk<'a>, vars: u32) -> GraphView<'a>
        requires { IsGraph (record { nodes = nodes; vars = vars }) }
        ensures { result ≡ record { nodes = nodes.entry; vars = vars } }
    {
        GraphView { nodes, vars }
    }

    /// Returns the number of nodes.
    pub fn len(&self) -> u32
        ensures len { result ≡ length self.now.nodes }
        ensures valid { IsGraph self.now }
        ensures few_vars { self.now.vars < 2 ^ 32 }
    {
        self.nodes.len() as u32
    }

    /// Returns the greatest variable.
    pub fn vars(&self) -> u32
        ensures vars { result ≡ self.now.vars }
        ensures valid { IsGraph self.now }
    {
        self.vars
    }

    /// Iterates over the nodes in order, the root last.
    pub fn walk(&self) -> Walk<'a>
        ensures nodes { result ≡ self.now.nodes }
        ensures valid { IsGraph self.now }
    {
        self.nodes.again()
    }

    /// Returns the kind of a node.
    pub fn what(&self, node: u32) -> NodeKind
        requires { node < length self.now.nodes }
        ensures what { result ≡ (node_at self.now.nodes node).what }
        ensures valid { IsGraph self.now }
    {
        self.nodes.what(node as usize)
    }

    /// Returns the children of a node.
    pub fn kids(&self, node: u32) -> &'a [u32]
        requires { node < length self.now.nodes }
        ensures kids { result.now ≡ (node_at self.now.nodes node).kids }
        ensures valid { IsGraph self.now }
    {
        self.nodes.kids(node as usize)
    }
}
