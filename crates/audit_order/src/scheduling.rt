ghost use Rattle.std.specs.Prelude.{◌≡◌, IfOk, map as mapped};
ghost use Rattle.audit_meaning.specs.Nodes.{moment, choice_at};
ghost use Rattle.audit_meaning.specs.Spots.{spot_of};
ghost use Rattle.log_checker.specs.OpMaps.{IsMapOf};

use audit_meaning::node::Node;
use basis::Items;
use log_checker::OpMap;
use period::report::Report;
use period::schedule::{Moment, Schedule};
use script_tree::operation::Choice;
use std::alloc::{AllocError, Global};

/// The choice of an operation's entry.
fn choice_of(report: &Report, map: &OpMap, rid: u32, number: u32) -> Choice
    requires { IsMapOf report.now map.now }
    ensures { result ≡ choice_at (spot_of report.now rid number) }
{
    let logs = report.logs.as_slice();
    match map.find(rid, number) {
        Some((log, position)) => logs[log as usize].entries.as_slice()[position as usize].choice,
        None => Choice::Nothing,
    }
}

/// A node as a moment of a schedule.
fn moment_of(report: &Report, map: &OpMap, node: Node) -> Moment
    requires { IsMapOf report.now map.now }
    ensures { result ≡ moment report.now node }
{
    match node {
        Node::Number(rid, number) => {
            if number == 0 {
                Moment::Arrive(rid)
            } else {
                Moment::Act(rid, choice_of(report, map, rid, number))
            }
        }
        Node::End(rid) => Moment::Depart(rid),
    }
}

/// Nodes as a schedule.
pub fn schedule_of(
    alloc: Global,
    report: &Report,
    map: &OpMap,
    nodes: &[Node],
) -> Result<Schedule, AllocError>
    requires { IsMapOf report.now map.now }
    ensures { IfOk result (λ schedule. schedule ≡ mapped (moment report.now) nodes.now) }
{
    let mut moments = Vec::with_capacity(alloc, nodes.len())?;
    for node in nodes {
        moments.push(moment_of(report, map, *node))?;
    }
    Ok(Items::from_vec(moments))
}
