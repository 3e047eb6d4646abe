ghost use Rattle.std.specs.Prelude.{◌≡◌, ◌<◌, ℕ, Some, length};
ghost use Rattle.basis.specs.Lists.{nth};
ghost use Rattle.event_order.specs.declared.graph.Node.{Node as GraphNode};
ghost use Rattle.audit_meaning.specs.Nodes.{nodes};
ghost use Rattle.audit_meaning.specs.declared.node.Node.TheVariants.{Number as step};
ghost use Rattle.audit_order.specs.Shows.{IsLinked};
ghost use Rattle.audit_order.specs.Links.{IsSound, HasNode, HaveNodes, IsLink};
ghost use Rattle.audit_order.specs.Links.{LinksBefore, LinksAfter};

use crate::numbering::Numbering;
use log_checker::OpMap;
use period::report::{LogEntry, Report};
use trace_index::IndexedTrace;

/// A report without faults in its logs, with what is known of it.
#[derive(Clone, Copy)]
pub(crate) struct Sound<'a, 't> {
    pub trace: &'a IndexedTrace<'t>,
    pub report: &'a Report,
    pub map: &'a OpMap,
    pub numbering: &'a Numbering,
}

impl Sound<'_, '_> {
    /// The number of an operation's node.
    pub(crate) fn number_of(&self, rid: u32, number: u32) -> u32
        requires sound { IsSound self.now }
        requires stands { HasNode self.now.trace.now self.now.report.now rid number }
        ensures { nth (nodes self.now.trace.now self.now.report.now) result
            ≡ Some (step rid number) }
    {
        let Some(place) = self.trace.place(rid) else {
            unreachable!()
        };
        self.numbering.offsets[place] + number
    }

    /// The number of an entry's node, if it is of another request.
    fn link(&self, rid: u32, entry: &LogEntry) -> Option<u32>
        requires sound { IsSound self.now }
        requires stands { let e = entry.now in
            HasNode self.now.trace.now self.now.report.now e.rid e.number }
        ensures { IsLink (nodes self.now.trace.now self.now.report.now) rid entry.now result }
    {
        if entry.rid == rid {
            None
        } else {
            Some(self.number_of(entry.rid, entry.number))
        }
    }

    /// The number of the entry before a position, if it is of another request.
    fn link_before(&self, rid: u32, entries: &[LogEntry], position: usize) -> Option<u32>
        requires sound { IsSound self.now }
        requires inside { position < length entries.now }
        requires known { HaveNodes self.now.trace.now self.now.report.now entries.now }
        ensures { let names = nodes self.now.trace.now self.now.report.now in
            LinksBefore names rid entries.now position result }
    {
        if position == 0 {
            return None;
        }
        self.link(rid, &entries[position - 1])
    }

    /// The number of the entry behind a position, if it is of another request.
    fn link_after(&self, rid: u32, entries: &[LogEntry], position: usize) -> Option<u32>
        requires sound { IsSound self.now }
        requires inside { position < length entries.now }
        requires known { HaveNodes self.now.trace.now self.now.report.now entries.now }
        ensures { let names = nodes self.now.trace.now self.now.report.now in
            LinksAfter names rid entries.now position result }
    {
        if position + 1 == entries.len() {
            return None;
        }
        self.link(rid, &entries[position + 1])
    }

    /// The neighbours of an operation in its log, where they are of other requests.
    pub(crate) fn links(&self, rid: u32, number: u32) -> (Option<u32>, Option<u32>)
        requires sound { IsSound self.now }
        ensures { let names = nodes self.now.trace.now self.now.report.now in
            (v : GraphNode) → v.log_before ≡ result.0 → v.log_after ≡ result.1
            → IsLinked self.now.report.now names (step rid number) v }
    {
        let Some((log, position)) = self.map.find(rid, number) else {
            return (None, None);
        };
        let entries = self.report.logs.as_slice()[log as usize].entries.as_slice();
        let before = self.link_before(rid, entries, position as usize);
        let after = self.link_after(rid, entries, position as usize);
        (before, after)
    }
}
