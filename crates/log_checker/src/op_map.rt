ghost use Rattle.std.specs.Prelude.{◌≡◌, ℕ, None, is_none, IfOk, IsTrue};
ghost use Rattle.log_checker.specs.OpMaps.{place_in, count_in, PutsPlace, IsFirstMissing};

use crate::counting::OperationCounts;
use request_tables::OperationTable;
use std::alloc::{AllocError, Global};

/// How many operations each request of a report issued, and where each of them stands in the logs.
#[derive(Drop)]
pub struct OpMap {
    counts: OperationCounts,
    places: OperationTable,
}

impl OpMap {
    /// No operation has a place; those of so many ids are found at once.
    pub(crate) fn new(
        alloc: Global,
        counts: OperationCounts,
        ids: usize,
    ) -> Result<OpMap, AllocError>
        ensures counts { IfOk result (λ map. map.counts ≡ counts) }
        ensures empty { IfOk result (λ map. (r k : ℕ) → place_in map r k ≡ None) }
    {
        let places = OperationTable::new(alloc, ids)?;
        Ok(OpMap { counts, places })
    }

    /// How many operations a request issued; 0 where it has no count.
    pub fn count(&self, rid: u32) -> u32
        ensures { result ≡ count_in self.now rid }
    {
        self.counts.of(rid).unwrap_or(0)
    }

    /// The number of the log, and the position in it, of an operation of a request.
    pub fn find(&self, rid: u32, number: u32) -> Option<(u32, u32)>
        ensures { result ≡ place_in self.now rid number }
    {
        self.places.get(rid, number)
    }

    /// Puts an operation there, and tells whether it had no place. Where it had one, it keeps that.
    pub(crate) fn put(
        &mut self,
        rid: u32,
        number: u32,
        place: (u32, u32),
    ) -> Result<bool, AllocError>
        ensures new { IfOk result (λ new. new ≡ is_none (place_in self.old rid number)) }
        ensures put { IfOk result (λ new. IsTrue new
            → PutsPlace rid number place self.old self.new) }
        ensures counts { self.new.counts ≡ self.old.counts }
    {
        self.places.insert(rid, number, place)
    }

    /// The first operation of a request that has no place.
    pub(crate) fn first_missing(&self, rid: u32) -> Option<u32>
        ensures { IsFirstMissing self.now rid (count_in self.now rid) result }
    {
        for before in 0..self.count(rid) {
            let number = before + 1;
            if self.find(rid, number).is_none() {
                return Some(number);
            }
        }
        None
    }
}
