ghost use Rattle.std.specs.Prelude.{◌≡◌, ◌∷◌, [], suc, ℕ, None, option_map, IfOk};
ghost use Rattle.script_tree.specs.Programs.{Program as AnyProgram};
ghost use Rattle.period.specs.Traces.{request_of};
ghost use Rattle.audit_meaning.specs.Spots.{count_of};
ghost use Rattle.group_runner.specs.Told.{Told as AnyTold};
ghost use Rattle.group_runner.specs.Findings.{FindsAlone, FindsBeside, IsLeastFault, reason_of};
ghost use Rattle.group_runner.specs.Findings.{bad_told, differing_told, fewer_told, unlike_told};
ghost use Rattle.group_runner.specs.MembersTold.{IsMemberOf};

use crate::findings::{EndFault, FaultyMark, Findings, MarkFault};
use crate::mark::{MemberMark, first_bad, first_difference};
use std::alloc::{AllocError, Global};

/// What the run of a member of a group leaves.
#[derive(Drop)]
pub(crate) struct Member {
    pub marks: Vec<MemberMark>,
    /// How many of its operations are good, one after the other from the first.
    pub done: u32,
    /// The steps that it spent.
    pub steps: u32,
    /// Whether it gives the response of the trace.
    pub gives: bool,
}

impl Member {
    /// That of a request that isn't in the trace: nothing.
    pub(crate) fn absent(alloc: Global) -> Member
        ensures { (program : AnyProgram) (told : AnyTold) (r : ℕ)
            → request_of told.trace r ≡ None → IsMemberOf program told r result }
    {
        Member {
            marks: Vec::new(alloc),
            done: 0,
            steps: 0,
            gives: false,
        }
    }

    /// Its least bad mark, where its request has this id.
    fn bad(&self, rid: u32) -> Result<Option<FaultyMark>, AllocError>
        ensures { (program : AnyProgram) (told : AnyTold) (group : ℕ)
            → IsMemberOf program told rid self.now
            → IfOk result (IsLeastFault group (bad_told program told rid)) }
    {
        let Some(place) = first_bad(&self.marks) else {
            return Ok(None);
        };
        let operation = number_after(self.done)?;
        Ok(Some(FaultyMark {
            place,
            fault: MarkFault::OtherOperation { rid, operation },
        }))
    }

    /// That it did fewer operations than its request counts.
    fn fewer(&self, rid: u32, count: u32) -> Option<EndFault>
        ensures { (program : AnyProgram) (told : AnyTold)
            → IsMemberOf program told rid self.now → count ≡ count_of told.report rid
            → fewer_told program told rid ≡ option_map reason_of result }
    {
        if self.done < count {
            let operation = self.done + 1;
            Some(EndFault::FewerOperations { rid, operation })
        } else {
            None
        }
    }

    /// That its response isn't the trace's.
    fn unlike(&self, rid: u32) -> Option<EndFault>
        ensures { (program : AnyProgram) (told : AnyTold)
            → IsMemberOf program told rid self.now
            → unlike_told program told rid ≡ option_map reason_of result }
    {
        if self.gives {
            None
        } else {
            Some(EndFault::OtherResponse { rid })
        }
    }

    /// Its least mark that differs from that of the first member of its group.
    fn difference(&self, first: &Member) -> Option<FaultyMark>
        ensures { (program : AnyProgram) (told : AnyTold) (group first_rid rid : ℕ)
            → IsMemberOf program told first_rid first.now → IsMemberOf program told rid self.now
            → IsLeastFault group (differing_told program told group first_rid (rid ∷ [])) result }
    {
        match first_difference(&first.marks, &self.marks) {
            Some(place) => Some(FaultyMark {
                place,
                fault: MarkFault::Differs,
            }),
            None => None,
        }
    }

    /// What is wrong with it alone, where its request has this id and counts so many operations.
    pub(crate) fn findings(&self, rid: u32, count: u32) -> Result<Findings, AllocError>
        ensures { (program : AnyProgram) (told : AnyTold) (group : ℕ)
            → IsMemberOf program told rid self.now → count ≡ count_of told.report rid
            → IfOk result (FindsAlone program told group rid) }
    {
        Ok(Findings {
            bad: self.bad(rid)?,
            differing: None,
            fewer: self.fewer(rid, count),
            unlike: self.unlike(rid),
        })
    }

    /// What is wrong with it beside the first member of its group.
    pub(crate) fn findings_beside(
        &self,
        first: &Member,
        rid: u32,
        count: u32,
    ) -> Result<Findings, AllocError>
        ensures { (program : AnyProgram) (told : AnyTold) (group first_rid : ℕ)
            → IsMemberOf program told first_rid first.now → IsMemberOf program told rid self.now
            → count ≡ count_of told.report rid
            → IfOk result (FindsBeside program told group first_rid rid) }
    {
        Ok(Findings {
            differing: self.difference(first),
            ..self.findings(rid, count)?
        })
    }
}

/// The number of the operation after so many. What 32 bits don't hold is answered as want of memory.
fn number_after(done: u32) -> Result<u32, AllocError>
    ensures { IfOk result (λ number. number ≡ suc done) }
{
    done.checked_add(1).ok_or(AllocError)
}
