//! Graphs built node by node.
use node_store::GraphBuilder;
use state_rules::NodeKind;
use std::test::Fail;

/// A graph has at least one node.
#[test]
fn builds_graphs(rt: HostRuntime) -> Result<(), Fail> {
    let Err(mut builder) = GraphBuilder::new(rt.alloc(), 3)?.finish() else {
        return Err("a graph without nodes")?;
    };
    assert_eq!(rt; builder.push(NodeKind::And, &[])?, 0);
    let graph = builder.finish().ok().ok_or("a builder with a node")?;
    assert!(rt; graph.len() == 1);
    assert_eq!(rt;
        (graph.edges(), graph.vars(), graph.what(0)),
        (0, 3, NodeKind::And)
    );
    assert!(rt; graph.kids(0).is_empty());
    Ok(())
}
