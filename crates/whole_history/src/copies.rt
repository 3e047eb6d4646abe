//! Copies of what a report keeps of a history. Values are shared by all of their copies.
ghost use Rattle.std.specs.Prelude.{◌≡◌, IfOk};

use basis::Items;
use script_tree::operation::{Act, Object};
use script_tree::path::Path;
use script_tree::transaction::{Change, Statement, Test};
use std::alloc::{AllocError, Global};

/// What can be copied.
pub(crate) trait Copied {
    fn copied(&self, alloc: Global) -> Result<Self, AllocError>
        ensures { IfOk result (λ copy. copy ≡ self.now) };
}

/// A list of copies.
fn copy_all<T: Copied + Drop>(alloc: Global, items: &Items<T>) -> Result<Items<T>, AllocError>
    ensures { IfOk result (λ copies. copies ≡ items.now) }
{
    let items = items.as_slice();
    let mut copies = Vec::with_capacity(alloc, items.len())?;
    for item in items {
        copies.push(item.copied(alloc)?)?;
    }
    Ok(Items::from_vec(copies))
}

/// The same list of what takes no memory of its own.
fn copy_plain<T: Copy>(alloc: Global, items: &Items<T>) -> Result<Items<T>, AllocError>
    ensures { IfOk result (λ copies. copies ≡ items.now) }
{
    Ok(Items::from_vec(Vec::from_slice(alloc, items.as_slice())?))
}

impl Copied for Test {
    fn copied(&self, _alloc: Global) -> Result<Test, AllocError> {
        Ok(Test {
            column: self.column,
            comparison: self.comparison,
            value: self.value.clone()?,
        })
    }
}

impl Copied for Change {
    fn copied(&self, _alloc: Global) -> Result<Change, AllocError> {
        Ok(Change {
            column: self.column,
            value: self.value.clone()?,
        })
    }
}

impl Copied for Statement {
    fn copied(&self, alloc: Global) -> Result<Statement, AllocError> {
        match self {
            Statement::Insert { table, row } => Ok(Statement::Insert {
                table: *table,
                row: row.clone()?,
            }),
            Statement::Select {
                table,
                columns,
                tests,
            } => Ok(Statement::Select {
                table: *table,
                columns: copy_plain(alloc, columns)?,
                tests: copy_all(alloc, tests)?,
            }),
            Statement::Update {
                table,
                changes,
                tests,
            } => Ok(Statement::Update {
                table: *table,
                changes: copy_all(alloc, changes)?,
                tests: copy_all(alloc, tests)?,
            }),
            Statement::Delete { table, tests } => Ok(Statement::Delete {
                table: *table,
                tests: copy_all(alloc, tests)?,
            }),
            Statement::Expect {
                count,
                table,
                tests,
            } => Ok(Statement::Expect {
                count: *count,
                table: *table,
                tests: copy_all(alloc, tests)?,
            }),
        }
    }
}

impl Copied for Act {
    fn copied(&self, alloc: Global) -> Result<Act, AllocError> {
        match self {
            Act::Read => Ok(Act::Read),
            Act::Write(value) => Ok(Act::Write(value.clone()?)),
            Act::Get(key) => Ok(Act::Get(key.clone()?)),
            Act::Put(key, value) => Ok(Act::Put(key.clone()?, value.clone()?)),
            Act::Remove(key) => Ok(Act::Remove(key.clone()?)),
            Act::Transact(statements) => Ok(Act::Transact(copy_all(alloc, statements)?)),
            Act::Now => Ok(Act::Now),
            Act::Roll(bound) => Ok(Act::Roll(*bound)),
        }
    }
}

impl Copied for Object {
    fn copied(&self, _alloc: Global) -> Result<Object, AllocError> {
        match self {
            Object::Register(name) => Ok(Object::Register(name.clone()?)),
            Object::Store(name) => Ok(Object::Store(name.clone()?)),
            Object::Tables => Ok(Object::Tables),
            Object::Clock => Ok(Object::Clock),
            Object::Dice => Ok(Object::Dice),
        }
    }
}

impl Copied for Path {
    fn copied(&self, alloc: Global) -> Result<Path, AllocError> {
        Ok(Path {
            page: self.page,
            decisions: copy_plain(alloc, &self.decisions)?,
            steps: self.steps,
            end: self.end,
        })
    }
}
