//! Or nodes that can be true.
ghost use Rattle.std.specs.Prelude.{◌≡◌, ◌≢◌, ◌^◌, ◌<◌, length, All};
ghost use Rattle.state_rules.specs.Graphs.{node_at};
ghost use Rattle.state_rules.specs.declared.nodes.NodeKind.TheVariants.{Or};
ghost use Rattle.state_rules.specs.declared.numbers.TheConstants.{NO_COST};

use crate::drawing::Drawing;

// An Or node of a drawing, with its children and least cost.
#[derive(Clone, Copy)]
pub(crate) struct OrNode<'a> {
    pub(crate) drawing: &'a Drawing<'a>,
    pub(crate) node: u32,
    pub(crate) kids: &'a [u32],
    pub(crate) cost: u32,
    ghost costs: { length drawing.now.values ≡ length drawing.now.graph.nodes },
    ghost inside: { node < length drawing.now.graph.nodes },
    ghost kids_inside: { All (λ child. child < length drawing.now.graph.nodes) kids.now },
    ghost few: { length kids.now < 2 ^ 32 },
    ghost some: { cost ≢ NO_COST },
    ghost is: { node_at drawing.now.graph.nodes node ≡ record { what = Or; kids = kids.now } },
}
