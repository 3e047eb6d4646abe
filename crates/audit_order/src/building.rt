ghost use Rattle.std.specs.Prelude.{◌≡◌, ◌<◌, ℕ, Some, length, IfOk};
ghost use Rattle.basis.specs.Lists.{nth};
ghost use Rattle.period.specs.Traces.{IsBalanced};
ghost use Rattle.log_checker.specs.OpMaps.{IsMapOf};
ghost use Rattle.precedence_graph.specs.Since.{AreSince};
ghost use Rattle.audit_meaning.specs.Nodes.{nodes};
ghost use Rattle.audit_meaning.specs.declared.node.Node.TheVariants.{Number as step, End as close};
ghost use Rattle.audit_order.specs.Mirrors.{IsOrdered};
ghost use Rattle.audit_order.specs.Shows.{Shows};
ghost use Rattle.audit_order.specs.Built.{IsNodeOf, IsEventOf, AreNodesOf, AreEventsOf};
ghost use Rattle.audit_order.specs.Links.{IsSound, HasNode, HasNoFault};

use crate::linking::Sound;
use crate::numbering::number_nodes;
use crate::ordering::{Ordered, order_graph};
use audit_meaning::node::Node;
use event_order::graph::{Event, Graph, Node as GraphNode};
use log_checker::OpMap;
use period::report::Report;
use precedence_graph::since::since_places;
use std::alloc::{AllocError, Global};
use trace_format::trace_file::EventHead;
use trace_index::{IndexedTrace, narrow};

/// What stands at a place, and 0 where nothing stands there.
fn number_at(numbers: &[u32], place: usize) -> u32
    ensures { (w : ℕ) → nth numbers.now place ≡ Some w → result ≡ w }
{
    if place < numbers.len() {
        numbers[place]
    } else {
        0
    }
}

impl Sound<'_, '_> {
    /// The number of a departure.
    fn end_of(&self, rid: u32) -> u32
        requires sound { IsSound self.now }
        requires stands { HasNode self.now.trace.now self.now.report.now rid 0 }
        ensures { nth (nodes self.now.trace.now self.now.report.now) result ≡ Some (close rid) }
    {
        self.number_of(rid, self.map.count(rid)) + 1
    }

    /// The node of an arrival. One at a place that 32 bits don't hold is answered as want of memory.
    fn arrival(&self, since: &[u32], rid: u32) -> Result<GraphNode, AllocError>
        requires sound { IsSound self.now }
        requires since { AreSince self.now.trace.now since.now }
        ensures { IfOk result (IsNodeOf self.now.trace.now self.now.report.now (step rid 0)) }
    {
        let place = match self.trace.place(rid) {
            Some(place) => place,
            None => 0,
        };
        Ok(GraphNode {
            is_arrival: true,
            log_before: None,
            log_after: None,
            at: narrow(place)?,
            since: number_at(since, place),
        })
    }

    /// The node of an operation.
    fn operation(&self, rid: u32, number: u32) -> GraphNode
        requires sound { IsSound self.now }
        requires operation { 0 < number }
        ensures { IsNodeOf self.now.trace.now self.now.report.now (step rid number) result }
    {
        let (log_before, log_after) = self.links(rid, number);
        GraphNode {
            is_arrival: false,
            log_before,
            log_after,
            at: 0,
            since: 0,
        }
    }

    /// A node of the graph by its name.
    fn graph_node(&self, since: &[u32], name: Node) -> Result<GraphNode, AllocError>
        requires sound { IsSound self.now }
        requires since { AreSince self.now.trace.now since.now }
        ensures { IfOk result (IsNodeOf self.now.trace.now self.now.report.now name) }
    {
        match name {
            Node::Number(rid, number) => {
                if number == 0 {
                    self.arrival(since, rid)
                } else {
                    Ok(self.operation(rid, number))
                }
            }
            Node::End(_) => Ok(GraphNode {
                is_arrival: false,
                log_before: None,
                log_after: None,
                at: 0,
                since: 0,
            }),
        }
    }

    /// An event of the graph by its place in the trace.
    fn graph_event(&self, place: usize) -> Event
        requires sound { IsSound self.now }
        requires inside { place < length self.now.trace.now }
        ensures { IsEventOf self.now.trace.now self.now.report.now place result }
    {
        match self.trace.head(place) {
            EventHead::Asks(_) => Event::Arrival(self.numbering.offsets[place]),
            EventHead::Answers(rid) => Event::Departure(self.end_of(rid)),
        }
    }

    fn graph_nodes(&self, alloc: Global) -> Result<Vec<GraphNode>, AllocError>
        requires sound { IsSound self.now }
        ensures { IfOk result (λ made.
            AreNodesOf self.now.trace.now self.now.report.now made.items) }
    {
        let since = since_places(alloc, self.trace)?;
        let mut made = Vec::with_capacity(alloc, self.numbering.names.len())?;
        for name in &self.numbering.names {
            made.push(self.graph_node(&since, *name)?)?;
        }
        Ok(made)
    }

    fn graph_events(&self, alloc: Global) -> Result<Vec<Event>, AllocError>
        requires sound { IsSound self.now }
        ensures { IfOk result (λ made.
            AreEventsOf self.now.trace.now self.now.report.now made.items) }
    {
        let mut made = Vec::with_capacity(alloc, self.trace.len())?;
        for place in 0..self.trace.len() {
            made.push(self.graph_event(place))?;
        }
        Ok(made)
    }

    /// The graph that shows the report.
    fn graph(&self, alloc: Global) -> Result<Graph, AllocError>
        requires sound { IsSound self.now }
        ensures { IfOk result (Shows self.now.trace.now self.now.report.now) }
    {
        let nodes = self.graph_nodes(alloc)?;
        let trace = self.graph_events(alloc)?;
        Ok(Graph { nodes, trace })
    }
}

/// The events of a report without faults in its logs in their order, or the cycle that keeps them
/// from one. It takes n log n steps for n events and entries. More nodes or events than 32 bits
/// number are answered as want of memory.
pub fn order_events(
    alloc: Global,
    trace: &IndexedTrace<'_>,
    report: &Report,
    map: &OpMap,
) -> Result<Ordered, AllocError>
    requires balanced { IsBalanced trace.now }
    requires faultless { HasNoFault trace.now report.now }
    requires map { IsMapOf report.now map.now }
    ensures { IfOk result (IsOrdered trace.now report.now) }
{
    let numbering = number_nodes(alloc, trace, report, map)?;
    let sound = Sound {
        trace,
        report,
        map,
        numbering: &numbering,
    };
    let graph = sound.graph(alloc)?;
    order_graph(alloc, graph, &numbering.names)
}
