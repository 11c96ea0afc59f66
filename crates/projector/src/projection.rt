ghost use Rattle.std.specs.Prelude.{◌≡◌, ◌+◌, ◌^◌, ◌<◌, ◌≤◌, length, take, All};

use node_store::Graph;

// A graph under evidence, and the number of its parts.
#[derive(Clone, Copy)]
pub(crate) struct Projection<'a> {
    pub(crate) graph: &'a Graph,
    pub(crate) evidence: &'a [u32],
    pub(crate) parts: u32,
    ghost long: { length evidence.now ≡ graph.now.vars },
    ghost small: { All (λ w. w < 3) evidence.now },
    ghost within: { parts ≤ graph.now.vars },
    ghost few: { length graph.now.nodes + parts + 1 < 2 ^ 32 },
}

impl Projection<'_> {
    // Returns the evidence on the parts.
    pub(crate) fn health(&self) -> &[u32]
        ensures { result.now ≡ take self.now.parts self.now.evidence.now }
    {
        &self.evidence[..self.parts as usize]
    }
}
