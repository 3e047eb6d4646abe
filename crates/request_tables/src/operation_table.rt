ghost use Rattle.std.specs.Prelude.{◌≡◌, ℕ, None, Some, is_none, IfOk, IsTrue};
ghost use Rattle.request_tables.specs.OperationTables.{place_in_row, next_in_row, place_of, Puts};

use std::alloc::{AllocError, Global};
use std::collections::BTreeMap;

/// A pair of numbers for each operation, by the id of its request and its number there, from 1. Of a
/// request with a small id the first operations that were put there in their order stand in a row,
/// where they are found at once; all others stand in an ordered map, so that no choice is slow.
#[derive(Drop)]
pub struct OperationTable {
    rows: Vec<Vec<(u32, u32)>>,
    others: BTreeMap<(u32, u32), (u32, u32)>,
}

impl OperationTable {
    /// No operation has a place; so many ids have a row.
    pub fn new(alloc: Global, ids: usize) -> Result<OperationTable, AllocError>
        ensures { IfOk result (λ table. (r k : ℕ) → place_of table r k ≡ None) }
    {
        let mut rows = Vec::with_capacity(alloc, ids)?;
        for _ in 0..ids {
            rows.push(Vec::new(alloc))?;
        }
        Ok(OperationTable {
            rows,
            others: BTreeMap::new(alloc),
        })
    }

    /// The place in its row, where it has one there.
    fn in_row(&self, rid: u32, number: u32) -> Option<(u32, u32)>
        ensures { result ≡ place_in_row self.now rid number }
    {
        if number == 0 {
            return None;
        }
        match self.rows.get(rid as usize) {
            Some(row) => row.get(number as usize - 1).copied(),
            None => None,
        }
    }

    /// The place of an operation.
    pub fn get(&self, rid: u32, number: u32) -> Option<(u32, u32)>
        ensures { result ≡ place_of self.now rid number }
    {
        match self.in_row(rid, number) {
            Some(place) => Some(place),
            None => self.others.get(&(rid, number)).copied(),
        }
    }

    /// Whether the operation is the one behind those of its request's row.
    fn is_next(&self, rid: u32, number: u32) -> bool
        ensures { IsTrue result → next_in_row self.now rid ≡ Some number }
    {
        match self.rows.get(rid as usize) {
            Some(row) => row.len() + 1 == number as usize,
            None => false,
        }
    }

    /// Puts an operation there, and tells whether it had no place. Where it had one, it keeps that.
    pub fn insert(&mut self, rid: u32, number: u32, place: (u32, u32)) -> Result<bool, AllocError>
        ensures new { IfOk result (λ new. new ≡ is_none (place_of self.old rid number)) }
        ensures puts { IfOk result (λ new. IsTrue new → Puts rid number place self.old self.new) }
    {
        if self.get(rid, number).is_some() {
            return Ok(false);
        }
        if self.is_next(rid, number) {
            self.rows[rid as usize].push(place)?;
        } else {
            self.others.insert((rid, number), place)?;
        }
        Ok(true)
    }
}
