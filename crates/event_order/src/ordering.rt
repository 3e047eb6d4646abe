ghost use Rattle.std.specs.Prelude.{IfOk};
ghost use Rattle.event_order.specs.Order.{IsEventGraph};
ghost use Rattle.event_order.specs.OrderOrCycle.{IsOrderOrCycle};
ghost use Rattle.event_order.specs.Thin.{IsThin};

use crate::graph::Graph;
use crate::placing::place_all;
use crate::walking::find_cycle;
use std::alloc::{AllocError, Global};

/// What comes of ordering the nodes of a graph.
#[derive(Drop)]
pub enum OrderOrCycle {
    /// All nodes, at each place the least that may stand there.
    Order(Vec<u32>),
    /// Nodes that can't be ordered, each with an edge to the next and the last with one to the
    /// first, the least node first.
    Cycle(Vec<u32>),
}

/// Orders the nodes. It takes n log n steps, for n nodes and events of the trace, and where it ends
/// in a cycle too.
pub fn order(alloc: Global, graph: &Graph) -> Result<OrderOrCycle, AllocError>
    requires graph { IsEventGraph graph.now }
    requires thin { IsThin graph.now }
    ensures { IfOk result (IsOrderOrCycle graph.now) }
{
    let placing = place_all(alloc, graph)?;
    match find_cycle(alloc, &placing, graph)? {
        Some(cycle) => Ok(OrderOrCycle::Cycle(cycle)),
        None => Ok(OrderOrCycle::Order(placing.order)),
    }
}
