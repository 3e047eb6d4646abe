ghost use Rattle.std.specs.Prelude.{◌≡◌, List, IfOk};
ghost use Rattle.period.specs.Traces.{IsBalanced};
ghost use Rattle.period.specs.declared.trace.TraceEvent.{TraceEvent as AnyEvent};
ghost use Rattle.period.specs.declared.report.Report.{Report as AnyReport};
ghost use Rattle.event_order.specs.Order.{IsEventGraph};
ghost use Rattle.event_order.specs.Thin.{IsThin};
ghost use Rattle.audit_meaning.specs.Nodes.{nodes};
ghost use Rattle.audit_order.specs.Mirrors.{at, named, MirrorsReport, IsOrdered};

use audit_meaning::node::{Node, Nodes};
use basis::Items;
use event_order::graph::Graph;
use event_order::ordering::{OrderOrCycle, order};
use std::alloc::{AllocError, Global};

/// The events of a report in order, or a cycle of them.
#[derive(Drop)]
pub enum Ordered {
    Order(Nodes),
    /// Each of these is to come before the next one, and the last before the first.
    Cycle(Nodes),
}

fn node_at(names: &[Node], number: usize) -> Node
    ensures { result ≡ at names.now number }
{
    match names.get(number) {
        Some(node) => *node,
        None => Node::End(0),
    }
}

/// The nodes of these numbers.
fn named(alloc: Global, names: &[Node], numbers: &[u32]) -> Result<Nodes, AllocError>
    ensures { IfOk result (λ found. found ≡ named names.now numbers.now) }
{
    let mut found = Vec::with_capacity(alloc, numbers.len())?;
    for number in numbers {
        found.push(node_at(names, *number as usize))?;
    }
    Ok(Items::from_vec(found))
}

/// The order of the nodes of a graph that mirrors the events of a report, by their names.
pub(crate) fn order_graph(
    alloc: Global,
    graph: Graph,
    names: &[Node],
) -> Result<Ordered, AllocError>
    requires graph { IsEventGraph graph }
    requires thin { IsThin graph }
    ensures { (trace : List AnyEvent) (report : AnyReport)
        → IsBalanced trace → names.now ≡ nodes trace report → MirrorsReport trace report graph
        → IfOk result (IsOrdered trace report) }
{
    let outcome = order(alloc, &graph)?;
    // The names take as much memory as the graph, which isn't needed any more.
    drop(graph);
    match outcome {
        OrderOrCycle::Order(numbers) => Ok(Ordered::Order(named(alloc, names, &numbers)?)),
        OrderOrCycle::Cycle(numbers) => Ok(Ordered::Cycle(named(alloc, names, &numbers)?)),
    }
}
