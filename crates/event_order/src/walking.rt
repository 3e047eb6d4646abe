ghost use Rattle.std.specs.Prelude.{◌≡◌, ◌<◌, ◌≤◌, true, length, slice_index, slice_index_or, All, IfOk};
ghost use Rattle.event_order.specs.Cycle.{IsLeast, HoldsBack, IsRotated, FindsCycle, considered};
ghost use Rattle.event_order.specs.Order.{IsEventGraph, has};
ghost use Rattle.event_order.specs.Standing.{IsStanding};
ghost use Rattle.event_order.specs.Thin.{IsThin};
ghost use Rattle.event_order.specs.Window.{AreLeastDeparted};

use crate::graph::Graph;
use crate::placing::{Placing, narrow};
use crate::window::least_departed;
use std::alloc::{AllocError, Global};

/// The lesser of the two, but for a node that is placed.
fn consider(placing: &Placing, least: Option<usize>, x: usize) -> Option<usize>
    requires { x < length placing.now.is_placed.items }
    ensures { result ≡ considered (slice_index_or placing.now.is_placed.items x true) least x }
{
    if placing.is_placed[x] {
        return least;
    }
    match least {
        Some(y) => Some(y.min(x)),
        None => Some(x),
    }
}

/// The least node before x that is not placed; `departed` has it for each arrival.
fn least_before(
    placing: &Placing,
    graph: &Graph,
    departed: &[Option<u32>],
    x: usize,
) -> Option<usize>
    requires graph { IsEventGraph graph.now }
    requires thin { IsThin graph.now }
    requires holds { IsStanding graph.now placing.now }
    requires len { length departed.now ≡ length graph.now.trace.items }
    requires departed { AreLeastDeparted graph.now placing.now departed.now }
    requires inside { x < length graph.now.nodes.items }
    ensures { IsLeast (HoldsBack graph.now placing.now.order.items x) result }
{
    let node = &graph.nodes[x];
    if node.is_arrival {
        return departed[node.at as usize].map(|y| y as usize);
    }
    let before = consider(placing, None, x - 1);
    match node.log_before {
        Some(y) => consider(placing, before, y as usize),
        None => before,
    }
}

/// The place of x in the walk.
fn place_of(walk: &[u32], x: usize) -> usize
    requires { has walk.now x ≡ true }
    ensures inside { result < length walk.now }
    ensures there { slice_index walk.now result ≡ x }
{
    for i in 0..walk.len() {
        if walk[i] as usize == x {
            return i;
        }
    }
    unreachable!()
}

/// The place of the least number.
fn place_of_least(xs: &[u32]) -> usize
    requires { 0 < length xs.now }
    ensures inside { result < length xs.now }
    ensures least { All (λ y. slice_index xs.now result ≤ y) xs.now }
{
    let mut best = 0;
    for i in 0..xs.len() {
        if xs[i] < xs[best] {
            best = i;
        }
    }
    best
}

/// Turns the list so that its least number stands first.
fn turn(cycle: &mut Vec<u32>)
    requires { 0 < length cycle.old.items }
    ensures turned { IsRotated cycle.old.items cycle.new.items }
    ensures least { All (λ y. slice_index cycle.new.items 0 ≤ y) cycle.new.items }
{
    let first = place_of_least(cycle);
    cycle.rotate_left(first);
}

/// Walks from the least node left to the least node that holds it back, and on, until a node
/// repeats. What was walked from there on is the cycle, backwards.
pub fn find_cycle(
    alloc: Global,
    placing: &Placing,
    graph: &Graph,
) -> Result<Option<Vec<u32>>, AllocError>
    requires graph { IsEventGraph graph.now }
    requires thin { IsThin graph.now }
    requires holds { IsStanding graph.now placing.now }
    ensures { IfOk result (FindsCycle graph.now placing.now.order.items) }
{
    let mut next = placing.least_left();
    if next.is_none() {
        return Ok(None);
    }
    let departed = least_departed(alloc, placing, graph)?;
    let mut seen = vec![in alloc; false; graph.nodes.len()]?;
    let mut walk = Vec::new(alloc);
    while let Some(x) = next {
        if seen[x] {
            let start = place_of(&walk, x);
            let mut cycle = walk.split_off(start)?;
            cycle.reverse();
            turn(&mut cycle);
            return Ok(Some(cycle));
        }
        seen[x] = true;
        walk.push(narrow(x)?)?;
        next = least_before(placing, graph, &departed, x);
    }
    Ok(None)
}
