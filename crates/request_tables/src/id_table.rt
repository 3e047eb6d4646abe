ghost use Rattle.std.specs.Prelude.{◌≡◌, ℕ, None, IfOk, OnOk};
ghost use Rattle.request_tables.specs.IdTables.{number_of, Puts};

use std::alloc::{AllocError, Global};
use std::collections::BTreeMap;
use std::mem;

/// Numbers of ids. Most ids are small, since a request gets the next one as it arrives: those below a
/// bound have a row each, which is found at once, and the others stand in an ordered map, so that no
/// choice of ids is slow.
#[derive(Drop)]
pub struct IdTable {
    rows: Vec<Option<u32>>,
    others: BTreeMap<u32, u32>,
}

impl IdTable {
    /// No id has a number; so many ids have a row.
    pub fn new(alloc: Global, rows: usize) -> Result<IdTable, AllocError>
        ensures { IfOk result (λ table. (id : ℕ) → number_of table id ≡ None) }
    {
        Ok(IdTable {
            rows: vec![in alloc; None; rows]?,
            others: BTreeMap::new(alloc),
        })
    }

    /// The number of an id.
    pub fn get(&self, id: u32) -> Option<u32>
        ensures { result ≡ number_of self.now id }
    {
        match self.rows.get(id as usize) {
            Some(number) => *number,
            None => self.others.get(&id).copied(),
        }
    }

    /// Gives an id a number, and tells the one that it had.
    pub fn insert(&mut self, id: u32, number: u32) -> Result<Option<u32>, AllocError>
        ensures had { IfOk result (λ had. had ≡ number_of self.old id) }
        ensures puts { OnOk result (Puts id number self.old self.new) }
    {
        match self.rows.get_mut(id as usize) {
            Some(row) => Ok(mem::replace(row, Some(number))),
            None => Ok(self.others.insert(id, number)?),
        }
    }
}
