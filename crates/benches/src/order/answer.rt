//! What the checks of a report and the order of its events come to.
ghost use Rattle.std.specs.Prelude.{IfSome};
ghost use Rattle.period.specs.Traces.{IsBalanced};

use audit_meaning::node::Nodes;
use audit_meaning::reason::Reason;
use audit_order::{Ordered, order_events};
use basis::OrMemory;
use log_checker::{check_groups, check_logs};
use object_set::ObjectSet;
use period::report::Report;
use std::alloc::{AllocError, Global};
use trace_format::balance::first_unbalanced;
use trace_format::trace_file::TraceFile;
use trace_index::IndexedTrace;

/// The trace with its table, where it is balanced.
pub fn indexed<'a>(alloc: Global, trace: &'a TraceFile) -> Option<IndexedTrace<'a>>
    ensures { IfSome result IsBalanced }
{
    match first_unbalanced(alloc, trace) {
        Ok(None) => IndexedTrace::new(alloc, trace).ok(),
        Ok(Some(_)) | Err(AllocError) => None,
    }
}

/// How many nodes the order of the report's events names, or its cycle, where the program declares
/// nothing and nothing is stored. None, where something else is wrong with it.
pub fn answer_length(
    alloc: Global,
    trace: &IndexedTrace<'_>,
    report: &Report,
) -> Result<usize, AllocError>
    requires { IsBalanced trace.now }
{
    match order_of(alloc, trace, report) {
        Ok(nodes) | Err(OrMemory::Other(Reason::Cycle(nodes))) => Ok(nodes.len()),
        Err(OrMemory::Other(_)) => Ok(0),
        Err(OrMemory::Memory) => Err(AllocError),
    }
}

/// The order of its events, where nothing is wrong with it.
fn order_of(
    alloc: Global,
    trace: &IndexedTrace<'_>,
    report: &Report,
) -> Result<Nodes, OrMemory<Reason>>
    requires { IsBalanced trace.now }
{
    let start = ObjectSet::new(alloc, &[])?;
    match check_logs(alloc, &start, trace, report) {
        Ok(map) => {
            let ordered = order_events(alloc, trace, report, &map);
            drop(map);
            drop(start);
            grouped(alloc, trace, report, ordered?)
        }
        Err(error) => {
            drop(start);
            Err(error)
        }
    }
}

/// An order, if it is one, of a report whose groups have no fault.
fn grouped(
    alloc: Global,
    trace: &IndexedTrace<'_>,
    report: &Report,
    ordered: Ordered,
) -> Result<Nodes, OrMemory<Reason>>
    requires { IsBalanced trace.now }
{
    let nodes = acyclic(ordered)?;
    match check_groups(alloc, trace, report) {
        Ok(()) => Ok(nodes),
        Err(error) => {
            drop(nodes);
            Err(error)
        }
    }
}

/// An order, if it is one.
fn acyclic(ordered: Ordered) -> Result<Nodes, OrMemory<Reason>> {
    match ordered {
        Ordered::Order(nodes) => Ok(nodes),
        Ordered::Cycle(nodes) => Err(OrMemory::Other(Reason::Cycle(nodes))),
    }
}
