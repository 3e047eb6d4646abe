ghost use Rattle.std.specs.Prelude.{◌≡◌, ◌∷◌, ◌++◌, ◌<◌, ◌^◌, length, OnOk};
ghost use Rattle.wire.specs.Files.{LeavesRoom};
ghost use Rattle.wire.specs.Spellings.{TakesPart};
ghost use Rattle.report_format.specs.Parts.{both, list_field, row_field};
ghost use Rattle.report_format.specs.RowLaws.{list_one};
ghost use Rattle.report_format.specs.PairLaws.{both_one};

use crate::fields::FieldKind;
use basis::{Items, OrMemory};
use std::alloc::{AllocError, Global};
use std::marker::PhantomData;
use wire::fault::Unreadable;
use wire::field::read_u32;
use wire::writing::{write_u8, write_u32};

/// For how many fields of a row there is room before one is read: a file at fault may count more
/// than it has.
const FIRST_ROOM: usize = 1024;

/// A field, and another one behind it.
pub(crate) struct Pair<F, G> {
    first: PhantomData<F>,
    second: PhantomData<G>,
}

impl<F: FieldKind, G: FieldKind> FieldKind for Pair<F, G> {
    type Item = (F::Item, G::Item);

    ghost field = { both F.field G.field };

    ghost one = { both_one F.field G.field F.one G.one };

    fn read(
        alloc: Global,
        bytes: &[u8],
        at: usize,
    ) -> Result<((F::Item, G::Item), usize), OrMemory<Unreadable>> {
        let (first, next) = F::read(alloc, bytes, at)?;
        let (second, next) = G::read(alloc, bytes, next)?;
        Ok(((first, second), next))
    }

    fn room_behind(room: usize, pair: &(F::Item, G::Item)) -> Option<usize> {
        let (first, second) = pair;
        let left = F::room_behind(room, first)?;
        G::room_behind(left, second)
    }

    fn write(out: &mut Vec<u8>, pair: &(F::Item, G::Item)) -> Result<(), AllocError> {
        let (first, second) = pair;
        F::write(out, first)?;
        G::write(out, second)
    }
}

/// How many fields of a kind there are, and these.
pub(crate) struct List<F> {
    member: PhantomData<F>,
}

impl<F: FieldKind> FieldKind for List<F> {
    type Item = Items<F::Item>;

    ghost field = { list_field F.field };

    ghost one = { list_one F.field F.one };

    fn read(
        alloc: Global,
        bytes: &[u8],
        at: usize,
    ) -> Result<(Items<F::Item>, usize), OrMemory<Unreadable>> {
        let (count, next) = read_u32(bytes, at)?;
        read_row::<F>(alloc, bytes, next, count)
    }

    fn room_behind(room: usize, items: &Items<F::Item>) -> Option<usize> {
        room_behind_list::<F>(room, items.as_slice())
    }

    fn write(out: &mut Vec<u8>, items: &Items<F::Item>) -> Result<(), AllocError> {
        write_list::<F>(out, items.as_slice())
    }
}

/// What is left of so much room behind a list, or `None` where it has more bytes.
pub(crate) fn room_behind_list<F: FieldKind>(room: usize, items: &[F::Item]) -> Option<usize>
    ensures { LeavesRoom room ((list_field F.field).spelling items.now) result }
{
    let mut left = room.checked_sub(4)?;
    for item in items {
        left = F::room_behind(left, item)?;
    }
    Some(left)
}

/// Writes how many there are, and these.
pub(crate) fn write_list<F: FieldKind>(
    out: &mut Vec<u8>,
    items: &[F::Item],
) -> Result<(), AllocError>
    requires { (list_field F.field).allows items.now }
    ensures { OnOk result
        (out.new.items ≡ out.old.items ++ (list_field F.field).spelling items.now) }
{
    write_u32(out, items.len() as u32)?;
    for item in items {
        F::write(out, item)?;
    }
    Ok(())
}

/// What is left of so much room behind two fields.
pub(crate) fn room_behind_two<F: FieldKind, G: FieldKind>(
    room: usize,
    first: &F::Item,
    second: &G::Item,
) -> Option<usize>
    ensures { LeavesRoom room ((both F.field G.field).spelling (first.now, second.now)) result }
{
    let left = F::room_behind(room, first)?;
    G::room_behind(left, second)
}

/// What is left of it behind three.
pub(crate) fn room_behind_three<F: FieldKind, G: FieldKind, H: FieldKind>(
    room: usize,
    first: &F::Item,
    second: &G::Item,
    third: &H::Item,
) -> Option<usize>
    ensures { LeavesRoom room
        ((both F.field (both G.field H.field)).spelling (first.now, (second.now, third.now)))
        result }
{
    let left = F::room_behind(room, first)?;
    room_behind_two::<G, H>(left, second, third)
}

/// Writes a tag and a field.
pub(crate) fn write_one<F: FieldKind>(
    out: &mut Vec<u8>,
    tag: u8,
    item: &F::Item,
) -> Result<(), AllocError>
    requires { F.field.allows item.now }
    ensures { OnOk result
        (out.new.items ≡ out.old.items ++ tag ∷ F.field.spelling item.now) }
{
    write_u8(out, tag)?;
    F::write(out, item)
}

/// Writes a tag and two fields.
pub(crate) fn write_two<F: FieldKind, G: FieldKind>(
    out: &mut Vec<u8>,
    tag: u8,
    first: &F::Item,
    second: &G::Item,
) -> Result<(), AllocError>
    requires { (both F.field G.field).allows (first.now, second.now) }
    ensures { OnOk result (out.new.items
        ≡ out.old.items ++ tag ∷ (both F.field G.field).spelling (first.now, second.now)) }
{
    write_one::<F>(out, tag, first)?;
    G::write(out, second)
}

/// Writes a tag and three fields.
pub(crate) fn write_three<F: FieldKind, G: FieldKind, H: FieldKind>(
    out: &mut Vec<u8>,
    tag: u8,
    first: &F::Item,
    second: &G::Item,
    third: &H::Item,
) -> Result<(), AllocError>
    requires { (both F.field (both G.field H.field)).allows
        (first.now, (second.now, third.now)) }
    ensures { OnOk result (out.new.items ≡ out.old.items
        ++ tag ∷ (both F.field (both G.field H.field)).spelling
        (first.now, (second.now, third.now))) }
{
    write_two::<F, G>(out, tag, first, second)?;
    H::write(out, third)
}

/// So many fields of a kind, one behind the other.
fn read_row<F: FieldKind>(
    alloc: Global,
    bytes: &[u8],
    at: usize,
    count: u32,
) -> Result<(Items<F::Item>, usize), OrMemory<Unreadable>>
    ensures { TakesPart (λ x. x) (row_field F.field count) bytes.now at result }
{
    let mut items = Vec::with_capacity(alloc, FIRST_ROOM.min(count as usize))?;
    let mut place = at;
    for _ in 0..count {
        let (item, next) = F::read(alloc, bytes, place)?;
        items.push(item)?;
        place = next;
    }
    Ok((Items::from_vec(items), place))
}
