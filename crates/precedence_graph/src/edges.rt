ghost use Rattle.std.specs.Prelude.{◌≡◌, ◌+◌, ◌<◌, ◌++◌, length, IfOk, OnOk};
ghost use Rattle.period.specs.Traces.{IsBalanced};
ghost use Rattle.precedence_graph.specs.Edges.{AreEdges};
ghost use Rattle.precedence_graph.specs.EdgeLists.{AreStarts, AreEdgesTo, LosesSources, edges_from};

use crate::answered::request_answered;
use std::alloc::{AllocError, Global};
use std::collections::BTreeSet;
use trace_index::IndexedTrace;

/// The places of the requests of which one comes directly before the other: it is answered before
/// the other arrives, and no third request arrives and is answered in between.
///
/// A trace can have as many of these as the square of its requests: where many that are open at
/// once are answered, and then as many arrive. Nothing in an audit calls this: it uses
/// `since_places` in its place.
pub fn edges(alloc: Global, trace: &IndexedTrace<'_>) -> Result<Vec<(usize, usize)>, AllocError>
    requires { IsBalanced trace.now }
    ensures { IfOk result (λ edges. AreEdges trace.now edges.items) }
{
    let mut edges = Vec::new(alloc);
    let mut starts = Vec::with_capacity(alloc, trace.len())?;
    let mut frontier = BTreeSet::new(alloc);
    for place in 0..trace.len() {
        starts.push(edges.len())?;
        match request_answered(trace, place) {
            None => push_edges(&mut edges, &frontier, place)?,
            Some(request) => {
                remove_sources(&mut frontier, edges_to(&edges, &starts, request));
                frontier.insert(request)?;
            }
        }
    }
    Ok(edges)
}

/// Puts an edge from each member of the frontier to a place behind the others.
fn push_edges(
    edges: &mut Vec<(usize, usize)>,
    frontier: &BTreeSet<usize>,
    to: usize,
) -> Result<(), AllocError>
    ensures { OnOk result (edges.new.items ≡ edges.old.items ++ edges_from frontier.now.keys to) }
{
    for before in frontier {
        edges.push((*before, to))?;
    }
    Ok(())
}

/// The edges to a place. At each place of `starts` stands how many edges lead to those before it.
fn edges_to<'a>(edges: &'a [(usize, usize)], starts: &[usize], place: usize) -> &'a [(usize, usize)]
    requires starts { AreStarts edges.now starts.now }
    requires within { place + 1 < length starts.now }
    ensures { AreEdgesTo edges.now place result.now }
{
    &edges[starts[place]..starts[place + 1]]
}

/// Takes the requests from which these edges come out of the frontier.
fn remove_sources(frontier: &mut BTreeSet<usize>, edges: &[(usize, usize)])
    ensures { LosesSources edges.now frontier.old frontier.new }
{
    for (before, _) in edges {
        frontier.remove(before);
    }
}
