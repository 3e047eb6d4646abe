ghost use Rattle.std.specs.Prelude.{◌≡◌, ◌++◌, ◌∷◌, [], Some, not, map, option_map, IfOk};
ghost use Rattle.basis.specs.Lists.{nth};
ghost use Rattle.audit_meaning.specs.Members.{same_sign, same_mark, is_bad};
ghost use Rattle.group_runner.specs.Marks.{sign_in, bare_sign, mark_in, marks_in, marks_on};
ghost use Rattle.group_runner.specs.Places.{IsLeastPlace};

use machine::BareMark;
use std::alloc::{AllocError, Global};

/// What a run leaves at a place: a decision, an operation that is its entry's, one that isn't, and
/// at its end the steps that it spent and the number of its fault, or 0.
#[derive(Clone, Copy)]
pub(crate) enum Sign {
    Decision(bool),
    Operation,
    Bad,
    Ended { steps: u32, fault: u8 },
}

impl Sign {
    fn of(mark: BareMark) -> Sign
        ensures { sign_in result ≡ bare_sign mark }
    {
        match mark {
            BareMark::Decided(decision) => Sign::Decision(decision),
            BareMark::Issued => Sign::Operation,
        }
    }

    fn is_same(self, other: Sign) -> bool
        ensures { result ≡ same_sign (sign_in self) (sign_in other) }
    {
        match (self, other) {
            (Sign::Decision(left), Sign::Decision(right)) => left == right,
            (Sign::Operation, Sign::Operation) => true,
            (Sign::Bad, Sign::Bad) => true,
            (
                Sign::Ended { steps, fault },
                Sign::Ended {
                    steps: other_steps,
                    fault: other_fault,
                },
            ) => steps == other_steps && fault == other_fault,
            (Sign::Decision(_), _) => false,
            (Sign::Operation, _) => false,
            (Sign::Bad, _) => false,
            (Sign::Ended { .. }, _) => false,
        }
    }
}

/// The same with the number of the run's page.
#[derive(Clone, Copy)]
pub(crate) struct MemberMark {
    pub page: Option<u32>,
    pub sign: Sign,
}

/// The mark at a place; none past the last.
fn mark_at(marks: &[MemberMark], place: usize) -> Option<MemberMark>
    ensures { option_map mark_in result ≡ nth (marks_in marks.now) place }
{
    if place < marks.len() {
        Some(marks[place])
    } else {
        None
    }
}

fn is_same(left: Option<MemberMark>, right: Option<MemberMark>) -> bool
    ensures { result ≡ same_mark (option_map mark_in left) (option_map mark_in right) }
{
    match (left, right) {
        (None, None) => true,
        (Some(left), Some(right)) => left.page == right.page && left.sign.is_same(right.sign),
        (None, Some(_)) | (Some(_), None) => false,
    }
}

fn is_bad(mark: &MemberMark) -> bool
    ensures { result ≡ is_bad (Some (mark_in mark.now)) }
{
    match mark.sign {
        Sign::Bad => true,
        Sign::Decision(_) | Sign::Operation | Sign::Ended { .. } => false,
    }
}

/// The marks of a run on this page, by its trail and what it left at its end.
pub(crate) fn marks_of(
    alloc: Global,
    page: Option<u32>,
    trail: &[BareMark],
    last: Sign,
) -> Result<Vec<MemberMark>, AllocError>
    ensures { IfOk result (λ marks.
        marks_in marks.items ≡ marks_on page (map bare_sign trail.now ++ sign_in last ∷ [])) }
{
    let mut marks = Vec::with_capacity(alloc, trail.len())?;
    for mark in trail {
        let sign = Sign::of(*mark);
        marks.push(MemberMark { page, sign })?;
    }
    marks.push(MemberMark { page, sign: last })?;
    Ok(marks)
}

/// The first place whose mark is bad.
pub(crate) fn first_bad(marks: &[MemberMark]) -> Option<usize>
    ensures { IsLeastPlace (λ i. is_bad (nth (marks_in marks.now) i)) result }
{
    for place in 0..marks.len() {
        if is_bad(&marks[place]) {
            return Some(place);
        }
    }
    None
}

/// The first place at which the marks differ.
pub(crate) fn first_difference(left: &[MemberMark], right: &[MemberMark]) -> Option<usize>
    ensures { IsLeastPlace (λ i. not
        (same_mark (nth (marks_in left.now) i) (nth (marks_in right.now) i))) result }
{
    for place in 0..left.len().max(right.len()) {
        if !is_same(mark_at(left, place), mark_at(right, place)) {
            return Some(place);
        }
    }
    None
}
