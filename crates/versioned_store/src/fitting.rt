ghost use Rattle.std.specs.Prelude.{◌↔◌, IsTrue};
ghost use Rattle.script_tree.specs.Fit.{IsKey};
ghost use Rattle.script_fit.specs.FitsOperation.{FitsRegister, FitsStore, FitsTables, FitsClock, FitsDice};
ghost use Rattle.object_set.specs.Applied.{FitsSet, op_of};
ghost use Rattle.versioned_store.specs.Logged.{FitAll, FitsLog, FitLogs};

use object_set::ObjectSet;
use object_tables::tables::Tables;
use period::report::{Log, LogEntry};
use script_tree::limits::MOST_KEY_BYTES;
use script_tree::operation::{Act, Object};
use script_tree::text::Text;

/// Whether each entry of the logs is an operation that its object is asked for, as
/// `VersionedStore::build` wants it.
pub fn fit_logs(start: &ObjectSet, logs: &[Log]) -> bool
    ensures { IsTrue result ↔ FitLogs start.now logs.now }
{
    for log in logs {
        if !fits_log(start, log) {
            return false;
        }
    }
    true
}

/// The same of one log.
pub fn fits_log(start: &ObjectSet, log: &Log) -> bool
    ensures { IsTrue result ↔ FitsLog start.now log.now }
{
    fit_entries(start, &log.object, log.entries.as_slice())
}

fn fit_entries(start: &ObjectSet, object: &Object, entries: &[LogEntry]) -> bool
    ensures { IsTrue result ↔ FitAll start.now object.now entries.now }
{
    for entry in entries {
        if !fits(start, object, &entry.act) {
            return false;
        }
    }
    true
}

/// Whether objects may be asked for an act on one of them.
pub fn fits(objects: &ObjectSet, object: &Object, act: &Act) -> bool
    ensures { IsTrue result ↔ FitsSet objects.now (op_of object.now act.now) }
{
    match object {
        Object::Register(name) => fits_register(name, act),
        Object::Store(name) => objects.store(name).is_some() && fits_store(act),
        Object::Tables => fits_tables(objects.tables(), act),
        Object::Clock => fits_clock(act),
        Object::Dice => fits_dice(act),
    }
}

fn is_key(key: &Text) -> bool
    ensures { IsTrue result ↔ IsKey key.now }
{
    key.len() <= MOST_KEY_BYTES
}

fn fits_register(name: &Text, act: &Act) -> bool
    ensures { IsTrue result ↔ FitsRegister name.now act.now }
{
    match act {
        Act::Read => is_key(name),
        Act::Write(value) => is_key(name) && value.is_within_limits(),
        Act::Get(_)
        | Act::Put(_, _)
        | Act::Remove(_)
        | Act::Transact(_)
        | Act::Now
        | Act::Roll(_) => false,
    }
}

fn fits_store(act: &Act) -> bool
    ensures { IsTrue result ↔ FitsStore act.now }
{
    match act {
        Act::Get(key) | Act::Remove(key) => is_key(key),
        Act::Put(key, value) => is_key(key) && value.is_within_limits(),
        Act::Read | Act::Write(_) | Act::Transact(_) | Act::Now | Act::Roll(_) => false,
    }
}

fn fits_tables(tables: &Tables, act: &Act) -> bool
    ensures { IsTrue result ↔ FitsTables tables.now.widths act.now }
{
    match act {
        Act::Transact(statements) => tables.fit(statements),
        Act::Read
        | Act::Write(_)
        | Act::Get(_)
        | Act::Put(_, _)
        | Act::Remove(_)
        | Act::Now
        | Act::Roll(_) => false,
    }
}

fn fits_clock(act: &Act) -> bool
    ensures { IsTrue result ↔ FitsClock act.now }
{
    match act {
        Act::Now => true,
        Act::Read
        | Act::Write(_)
        | Act::Get(_)
        | Act::Put(_, _)
        | Act::Remove(_)
        | Act::Transact(_)
        | Act::Roll(_) => false,
    }
}

fn fits_dice(act: &Act) -> bool
    ensures { IsTrue result ↔ FitsDice act.now }
{
    match act {
        Act::Roll(bound) => 1 <= *bound,
        Act::Read
        | Act::Write(_)
        | Act::Get(_)
        | Act::Put(_, _)
        | Act::Remove(_)
        | Act::Transact(_)
        | Act::Now => false,
    }
}
