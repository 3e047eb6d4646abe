ghost use Rattle.std.specs.Prelude.{◌≡◌, ◌↔◌, ◌<◌, ◌++◌, ◌∷◌, [], length, IsTrue, IfOk, OnOk};
ghost use Rattle.event_order.specs.Cycle.{IsLeast, IsUnmarked};
ghost use Rattle.event_order.specs.Order.{IsEventGraph, IsOrder};
ghost use Rattle.event_order.specs.Standing.{IsStanding, IsCovering, IsSettled, IsTaken, IsFreeLater, Grows, Offers, OffersLog};

use crate::graph::{Event, Graph};
use std::alloc::{AllocError, Global};
use std::collections::BTreeSet;

/// A node in 32 bits. One that they don't hold is answered as want of memory.
pub(crate) fn narrow(node: usize) -> Result<u32, AllocError>
    ensures { IfOk result (λ narrowed. narrowed ≡ node) }
{
    u32::try_from(node).map_err(|_| AllocError)
}

/// The order as far as it goes, and the nodes that are free.
#[derive(Drop)]
pub struct Placing {
    /// The nodes that are placed, in order.
    pub order: Vec<u32>,
    /// Whether a node is in the order.
    pub is_placed: Vec<bool>,
    free: BTreeSet<u32>,
    /// The place in the trace below which each departure is placed, and each arrival has been free.
    passed: usize,
}

impl Placing {
    fn new(alloc: Global, graph: &Graph) -> Result<Placing, AllocError>
        requires { IsEventGraph graph.now }
        ensures holds { IfOk result (IsStanding graph.now) }
        ensures covers { IfOk result (IsCovering graph.now) }
    {
        let is_placed = vec![in alloc; false; graph.nodes.len()]?;
        Ok(Placing {
            order: Vec::with_capacity(alloc, graph.nodes.len())?,
            is_placed,
            free: BTreeSet::new(alloc),
            passed: 0,
        })
    }

    /// Whether there is such a node, free and no arrival.
    fn is_free(&self, graph: &Graph, x: usize) -> bool
        requires graph { IsEventGraph graph.now }
        requires holds { IsStanding graph.now self.now }
        ensures { IsTrue result ↔ IsFreeLater graph.now self.now x }
    {
        let Some(node) = graph.nodes.get(x) else {
            return false;
        };
        if node.is_arrival || self.is_placed[x] || !self.is_placed[x - 1] {
            return false;
        }
        match node.log_before {
            Some(y) => self.is_placed[y as usize],
            None => true,
        }
    }

    /// Enters the node into the set if there is such a node, free and no arrival.
    fn offer(&mut self, graph: &Graph, x: usize) -> Result<(), AllocError>
        requires graph { IsEventGraph graph.now }
        requires holds { IsStanding graph.now self.old }
        ensures holds { OnOk result (IsStanding graph.now self.new) }
        ensures grows { OnOk result (Grows self.old self.new) }
        ensures offers { OnOk result (Offers graph.now self.new x) }
    {
        if self.is_free(graph, x) {
            self.free.insert(narrow(x)?)?;
        }
        Ok(())
    }

    /// The same for the node after x in its log, if that is of another request.
    fn offer_log(&mut self, graph: &Graph, x: usize) -> Result<(), AllocError>
        requires graph { IsEventGraph graph.now }
        requires inside { x < length graph.now.nodes.items }
        requires holds { IsStanding graph.now self.old }
        ensures holds { OnOk result (IsStanding graph.now self.new) }
        ensures grows { OnOk result (Grows self.old self.new) }
        ensures offers { OnOk result (OffersLog graph.now self.new x) }
    {
        match graph.nodes[x].log_after {
            Some(y) => self.offer(graph, y as usize),
            None => Ok(()),
        }
    }

    /// Enters each arrival that no departure holds back.
    fn advance(&mut self, graph: &Graph) -> Result<(), AllocError>
        requires graph { IsEventGraph graph.now }
        requires holds { IsStanding graph.now self.old }
        requires covers { IsCovering graph.now self.old }
        ensures order { self.new.order ≡ self.old.order }
        ensures settled { OnOk result (IsSettled graph.now self.new) }
    {
        while self.passed < graph.trace.len() {
            match graph.trace[self.passed] {
                Event::Arrival(x) => {
                    self.free.insert(x)?;
                }
                Event::Departure(y) => {
                    if !self.is_placed[y as usize] {
                        return Ok(());
                    }
                }
            }
            self.passed += 1;
        }
        Ok(())
    }

    /// Places the least free node, which has been taken out of the set.
    fn place(&mut self, graph: &Graph, x: u32) -> Result<(), AllocError>
        requires graph { IsEventGraph graph.now }
        requires taken { IsTaken graph.now self.old x }
        ensures order { OnOk result (self.new.order.items ≡ self.old.order.items ++ x ∷ []) }
        ensures settled { OnOk result (IsSettled graph.now self.new) }
    {
        let place = x as usize;
        self.order.push(x)?;
        self.is_placed[place] = true;
        self.offer(graph, place + 1)?;
        self.offer_log(graph, place)?;
        self.advance(graph)
    }

    /// The least node that is not placed.
    pub fn least_left(&self) -> Option<usize>
        ensures { IsLeast (IsUnmarked self.now.is_placed.items) result }
    {
        self.is_placed.iter().position(|&placed| !placed)
    }
}

/// Places nodes for as long as one is free.
pub fn place_all(alloc: Global, graph: &Graph) -> Result<Placing, AllocError>
    requires { IsEventGraph graph.now }
    ensures order { IfOk result (λ s. IsOrder graph.now s.order.items) }
    ensures marks { IfOk result (IsStanding graph.now) }
{
    let mut placing = Placing::new(alloc, graph)?;
    placing.advance(graph)?;
    while let Some(x) = placing.free.pop_first() {
        placing.place(graph, x)?;
    }
    Ok(placing)
}
