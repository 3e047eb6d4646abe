ghost use Rattle.std.specs.Prelude.{◌≡◌, ◌++◌, IfOk, OnOk};
ghost use Rattle.log_checker.specs.OpMaps.{IsMapOf};
ghost use Rattle.audit_order.specs.Numbers.{own_nodes, IsNumbering};

use audit_meaning::node::Node;
use log_checker::OpMap;
use period::report::Report;
use std::alloc::{AllocError, Global};
use trace_format::trace_file::EventHead;
use trace_index::{IndexedTrace, narrow};

/// The nodes of a report, and of each event how many nodes come before it.
#[derive(Drop)]
pub(crate) struct Numbering {
    pub names: Vec<Node>,
    pub offsets: Vec<u32>,
}

/// Puts the nodes of a request behind the others.
fn push_nodes(names: &mut Vec<Node>, rid: u32, count: u32) -> Result<(), AllocError>
    ensures { OnOk result (names.new.items ≡ names.old.items ++ own_nodes count rid) }
{
    for number in 0..count {
        names.push(Node::Number(rid, number))?;
    }
    names.push(Node::Number(rid, count))?;
    names.push(Node::End(rid))?;
    Ok(())
}

/// The nodes of a report whose operations have places, in their order.
pub(crate) fn number_nodes(
    alloc: Global,
    trace: &IndexedTrace<'_>,
    report: &Report,
    map: &OpMap,
) -> Result<Numbering, AllocError>
    requires { IsMapOf report.now map.now }
    ensures { IfOk result (IsNumbering trace.now report.now) }
{
    let _ = &report.counts;
    let mut names = Vec::new(alloc);
    let mut offsets = Vec::with_capacity(alloc, trace.len())?;
    for place in 0..trace.len() {
        offsets.push(narrow(names.len())?)?;
        if let EventHead::Asks(rid) = trace.head(place) {
            push_nodes(&mut names, rid, map.count(rid))?;
        }
    }
    narrow(names.len())?;
    Ok(Numbering { names, offsets })
}
