ghost use Rattle.std.specs.Prelude.{◌≡◌, ◌+◌, ◌<◌, ◌≤◌, length, IfOk, OnOk};
ghost use Rattle.event_order.specs.Order.{IsEventGraph};
ghost use Rattle.event_order.specs.Standing.{IsStanding};
ghost use Rattle.event_order.specs.Thin.{IsThin};
ghost use Rattle.event_order.specs.Window.{IsWindow, Slides, IsLeastDeparted, AreLeastDeparted};

use crate::graph::{Event, Graph};
use crate::placing::Placing;
use std::alloc::{AllocError, Global};
use std::collections::BTreeSet;

/// A part of the trace, from a place on, with the nodes that depart in it and are not placed.
#[derive(Drop)]
struct Window {
    start: usize,
    left: BTreeSet<u32>,
}

impl Window {
    /// Lets what departs below the place go.
    fn start_at(&mut self, graph: &Graph, place: usize)
        requires graph { IsEventGraph graph.now }
        requires rises { self.old.start ≤ place }
        requires inside { place ≤ length graph.now.trace.items }
        ensures start { self.new.start ≡ place }
        ensures slides { Slides graph.now self.old self.new place }
    {
        for i in self.start..place {
            if let Event::Departure(y) = graph.trace[i] {
                self.left.remove(&y);
            }
        }
        self.start = place;
    }

    /// Takes in what stands at the window's end. For an arrival, gives the least node that departs
    /// in its window and is not placed.
    fn take_in(
        &mut self,
        placing: &Placing,
        graph: &Graph,
        end: usize,
    ) -> Result<Option<u32>, AllocError>
        requires graph { IsEventGraph graph.now }
        requires thin { IsThin graph.now }
        requires holds { IsStanding graph.now placing.now }
        requires inside { end < length graph.now.trace.items }
        requires window { IsWindow graph.now placing.now self.old end }
        ensures window { OnOk result (IsWindow graph.now placing.now self.new (end + 1)) }
        ensures least { IfOk result (IsLeastDeparted graph.now placing.now end) }
    {
        match graph.trace[end] {
            Event::Arrival(x) => {
                self.start_at(graph, graph.nodes[x as usize].since as usize);
                Ok(self.left.first().copied())
            }
            Event::Departure(y) => {
                if !placing.is_placed[y as usize] {
                    self.left.insert(y)?;
                }
                Ok(None)
            }
        }
    }
}

/// For each place of the trace, the least node that holds back the arrival there, if one does.
pub fn least_departed(
    alloc: Global,
    placing: &Placing,
    graph: &Graph,
) -> Result<Vec<Option<u32>>, AllocError>
    requires graph { IsEventGraph graph.now }
    requires thin { IsThin graph.now }
    requires holds { IsStanding graph.now placing.now }
    ensures len { IfOk result (λ leasts. length leasts.items ≡ length graph.now.trace.items) }
    ensures least { IfOk result (λ leasts. AreLeastDeparted graph.now placing.now leasts.items) }
{
    let mut leasts = Vec::with_capacity(alloc, graph.trace.len())?;
    let mut window = Window {
        start: 0,
        left: BTreeSet::new(alloc),
    };
    for end in 0..graph.trace.len() {
        leasts.push(window.take_in(placing, graph, end)?)?;
    }
    Ok(leasts)
}
