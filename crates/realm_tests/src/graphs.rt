//! What the realm graphs of declarations come to.

use cm_decl::Node;
use cm_deps::{Graph, Order};
use cm_names::Text;
use cm_read::read_decl;
use std::alloc::Global;

/// An order of the nodes of a manifest's realm graph, or its picked cycle.
pub fn told(alloc: Global, manifest: &str) -> Option<Text> {
    match graph_of(alloc, manifest) {
        Some(graph) => {
            let told = told_of(alloc, graph.outcome());
            drop(graph);
            told
        }
        None => None,
    }
}

/// The graph of a manifest's declaration; `None` where it is none.
fn graph_of(alloc: Global, manifest: &str) -> Option<Graph> {
    match read_decl(alloc, manifest.as_bytes()) {
        Ok(decl) => Graph::of(alloc, &decl, &[]).ok(),
        Err(_) => None,
    }
}

/// A line with the order of a graph, or with its cycle.
fn told_of(alloc: Global, order: &Order) -> Option<Text> {
    match order {
        Order::Ordered(nodes) => line_of(alloc, "order", nodes.as_slice()),
        Order::Cycle(nodes) => line_of(alloc, "cycle", nodes.as_slice()),
    }
}

/// A line of a word and these nodes.
fn line_of(alloc: Global, word: &str, nodes: &[Node]) -> Option<Text> {
    let mut line = Text::from_str(alloc, word).ok()?;
    for node in nodes {
        line.push(format_args!(" {node}")).ok()?;
    }
    line.push_str("\n").ok()?;
    Some(line)
}
