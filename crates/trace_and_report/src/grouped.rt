ghost use Rattle.std.specs.Prelude.{◌≡◌, ◌∷◌, ◌++◌, [], OnOk};
ghost use Rattle.trace_and_report.specs.Grouped.{groups_in, and_member};

use indexmap::IndexMap;
use std::alloc::{AllocError, Global};
use std::hash::Hash;

/// For how many members a key has room at once: no piece of memory that a list grows out of is then as small as those
/// that pages take and give back at each step (`draft`).
const FIRST_MEMBERS: usize = 32;

/// Keys in the order of their first use, each with its members in their order.
pub type Grouped<K, V> = IndexMap<K, Vec<V>>;

/// No key.
pub fn no_groups<K: Eq + Hash, V>(alloc: Global) -> Grouped<K, V>
    ensures { groups_in result ≡ [] }
{
    IndexMap::new(alloc)
}

/// Puts a member behind the others of its key. A new key goes last.
pub fn add_member<K: Eq + Hash + Drop, V: Drop>(
    alloc: Global,
    groups: &mut Grouped<K, V>,
    key: K,
    member: V,
) -> Result<(), AllocError>
    ensures { OnOk result
        (groups_in groups.new ≡ and_member K.eq key member (groups_in groups.old)) }
{
    let members = groups.entry(key)?.or_insert(Vec::new(alloc));
    put_behind(members, member)?;
    Ok(())
}

/// Puts a member behind the others, of whom many have room at once.
fn put_behind<V: Drop>(members: &mut Vec<V>, member: V) -> Result<(), AllocError>
    ensures { OnOk result (members.new.items ≡ members.old.items ++ member ∷ []) }
{
    if members.is_empty() {
        members.reserve(FIRST_MEMBERS)?;
    }
    members.push(member)?;
    Ok(())
}
