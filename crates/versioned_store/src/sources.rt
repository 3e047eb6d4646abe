ghost use Rattle.std.specs.Prelude.{◌≡◌, [], IfOk, OnOk, if◌then◌else◌};
ghost use Rattle.versioned_store.specs.Firsts.{firsts_in, source_by, with_entry};
ghost use Rattle.versioned_tables.specs.Reads.{keeps_tables};
ghost use Rattle.versioned_store.specs.Sources.{AreSources};

use crate::acts::selects_alone;
use period::report::LogEntry;
use script_tree::operation::Act;
use std::alloc::{AllocError, Global};
use std::collections::BTreeMap;
use versioned_cells::next_position;
use versioned_tables::reads::keeps_tables;

/// The acts that came since the tables last changed, with the positions at which they came first.
type Firsts<'a> = BTreeMap<&'a Act, u32>;

/// The source of each entry: of a transaction of selects alone the first entry of the same act since
/// the tables last changed, of any other entry itself.
pub fn sources_of(alloc: Global, entries: &[LogEntry]) -> Result<Vec<u32>, AllocError>
    ensures { IfOk result (λ sources. AreSources entries.now sources.items) }
{
    let mut sources = Vec::with_capacity(alloc, entries.len())?;
    let mut firsts = BTreeMap::new(alloc);
    let mut position = 0u32;
    for entry in entries {
        sources.push(source_of(&mut firsts, &entry.act, position)?)?;
        firsts = firsts_after(alloc, firsts, &entry.act);
        position = next_position(position)?;
    }
    Ok(sources)
}

/// The source of the entry at a position, which is noted.
fn source_of<'a>(firsts: &mut Firsts<'a>, act: &'a Act, position: u32) -> Result<u32, AllocError>
    ensures source { IfOk result (λ source.
        source ≡ source_by (firsts_in (λ k. k.now) firsts.old.entries) act.now position) }
    ensures noted { OnOk result (firsts_in (λ k. k.now) firsts.new.entries
        ≡ with_entry (firsts_in (λ k. k.now) firsts.old.entries) act.now position) }
{
    if !selects_alone(act) {
        return Ok(position);
    }
    match firsts.get(&act) {
        Some(first) => Ok(*first),
        None => {
            firsts.insert(act, position)?;
            Ok(position)
        }
    }
}

/// What is still known after an act: nothing where it may change the tables.
fn firsts_after<'a>(alloc: Global, firsts: Firsts<'a>, act: &Act) -> Firsts<'a>
    ensures { result.entries ≡ (if keeps_tables act.now then firsts.entry.entries else []) }
{
    if keeps_tables(act) {
        firsts
    } else {
        BTreeMap::new(alloc)
    }
}
