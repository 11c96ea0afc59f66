ghost use Rattle.std.specs.Prelude.{◌≡◌, ℕ, ◌<◌, ◌^◌, ◌++◌, [], ◌∷◌, true, length, IfOk, IfErr, OnOk, OnErr};
ghost use Rattle.state_rules.specs.Graphs.{node_at, mentions, apart_at, node_fits, IsGraph, edges};

use crate::Memory;
use crate::flat::Nodes;
use crate::view::GraphView;
use crate::walk::Walk;
use state_rules::NodeKind;
use std::alloc::Global;
use std::marker::Model;

/// The most nodes that a builder takes.
pub const NODE_LIMIT: usize = 2_147_483_648;

/// A graph of literal nodes, And nodes and Or nodes. Children are earlier nodes. The last node is the root.
///
/// It has a node, the variable of each literal is 1 to `vars`, and no two children of an And node share a variable.
#[derive(Debug, Drop)]
pub struct Graph {
    nodes: Nodes,
    vars: u32,
}

impl Model for Graph {
    ghost use Rattle.std.specs.Prelude.{◌^◌, ◌<◌};
    ghost use Rattle.state_rules.specs.Graphs.{Graph as Shown, IsGraph};

    ghost Value = { Shown };

    ghost view = { λ g. record { nodes = g.nodes; vars = g.vars } };

    ghost invariant = { λ g. IsGraph (record { nodes = g.nodes; vars = g.vars }) × (g.vars < 2 ^ 32) };
}

impl Graph {
    /// Returns the graph of these nodes.
    pub fn new(nodes: Nodes, vars: u32) -> Graph
        requires { IsGraph (record { nodes = nodes; vars = vars }) }
        ensures { result ≡ record { nodes = nodes; vars = vars } }
    {
        Graph { nodes, vars }
    }

    /// Returns the same graph, for calls that take a graph whose nodes lie anywhere.
    pub fn view(&self) -> GraphView<'_>
        ensures { result ≡ self.now }
    {
        GraphView::new(self.nodes.walk(), self.vars)
    }

    /// Returns the number of nodes.
    pub fn len(&self) -> u32
        ensures len { result ≡ length self.now.nodes }
        ensures valid { IsGraph self.now }
        ensures few_vars { self.now.vars < 2 ^ 32 }
    {
        self.nodes.len() as u32
    }

    /// Returns the number of children of all nodes.
    pub fn edges(&self) -> u64
        ensures { result ≡ edges self.now.nodes }
    {
        self.nodes.edges() as u64
    }

    /// Returns the greatest variable.
    pub fn vars(&self) -> u32
        ensures vars { result ≡ self.now.vars }
        ensures valid { IsGraph self.now }
    {
        self.vars
    }

    /// Iterates over the nodes in order, the root last.
    pub fn walk(&self) -> Walk<'_>
        ensures nodes { result ≡ self.now.nodes }
        ensures valid { IsGraph self.now }
    {
        self.nodes.walk()
    }

    /// Returns the kind of a node.
    pub fn what(&self, node: u32) -> NodeKind
        requires { node < length self.now.nodes }
        ensures what { result ≡ (node_at self.now.nodes node).what }
        ensures valid { IsGraph self.now }
    {
        self.nodes.what(node as usize)
    }

    /// Returns the children of a node.
    pub fn kids(&self, node: u32) -> &[u32]
        requires { node < length self.now.nodes }
        ensures kids { result.now ≡ (node_at self.now.nodes node).kids }
        ensures valid { IsGraph self.now }
    {
        self.nodes.kids(node as usize)
    }
}

/// A graph that is built node by node.
#[derive(Debug, Drop)]
pub struct GraphBuilder {
    nodes: Nodes,
    vars: u32,
}

impl Model for GraphBuilder {
    ghost use Rattle.std.specs.Prelude.{◌≤◌, length};
    ghost use Rattle.state_rules.specs.Graphs.{Graph as Shown, AreNodes};
    ghost use Rattle.node_store.specs.declared.graph.TheConstants.{NODE_LIMIT};

    ghost Value = { Shown };

    ghost view = { λ b. record { nodes = b.nodes; vars = b.vars } };

    ghost invariant = { λ b. AreNodes b.vars b.nodes × (length b.nodes ≤ NODE_LIMIT) };
}

impl GraphBuilder {
    /// Returns a builder with no node.
    pub fn new(alloc: Global, vars: u32) -> Result<GraphBuilder, Memory>
        ensures { IfOk result (λ builder. builder ≡ record { nodes = []; vars = vars }) }
    {
        Ok(GraphBuilder {
            nodes: Nodes::new(alloc),
            vars,
        })
    }

    /// Adds a node, and returns its number.
    ///
    /// A literal has no children, and its variable is 1 to `vars`. The children of an And node or an Or node are nodes of the builder, and
    /// those of an And node share no variable.
    pub fn push(&mut self, kind: NodeKind, kids: &[u32]) -> Result<u32, Memory>
        requires fits { node_fits self.old.vars (length self.old.nodes)
            (record { what = kind; kids = kids.now }) ≡ true }
        requires apart { (v : ℕ) → apart_at (mentions self.old.nodes v) kind kids.now ≡ true }
        requires few { length self.old.nodes < NODE_LIMIT }

        ensures number { IfOk result (λ number. number ≡ length self.old.nodes) }
        ensures ok { OnOk result (self.new
            ≡ record self.old { nodes = self.old.nodes ++ record { what = kind; kids = kids.now } ∷ [] }) }
        ensures err { OnErr result (self.new ≡ self.old) }
    {
        let number = self.nodes.len() as u32;
        self.nodes.push(kind, kids)?;
        Ok(number)
    }

    /// Returns the graph of these nodes; or the builder, exactly if it has none.
    pub fn finish(self) -> Result<Graph, GraphBuilder>
        ensures ok { IfOk result (λ graph. graph ≡ self) }
        ensures some { OnOk result (0 < length self.nodes) }
        ensures err { IfErr result (λ builder. builder ≡ self) }
        ensures none { OnErr result (self.nodes ≡ []) }
    {
        if self.nodes.is_empty() {
            return Err(self);
        }
        Ok(self.into_graph())
    }

    fn into_graph(self) -> Graph
        requires { 0 < length self.nodes }
        ensures { result ≡ self }
    {
        Graph::new(self.nodes, self.vars)
    }
}
