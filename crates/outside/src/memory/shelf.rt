ghost use Rattle.std.specs.Prelude.{◌≡◌, ◌≢◌, ◌==◌, Err, IfSome, OnOk, OnErr, vec_len};
ghost use Rattle.std.specs.Option.{option_copied};
ghost use Rattle.std.specs.FinMap.{get, insert};
ghost use Rattle.outside.specs.Failing.{IsPlanned, GoesAsPlanned, SamePlan};
ghost use Rattle.outside.specs.MemShelf.{files_of, shelf_told, shelf_failing};
ghost use Rattle.outside.specs.Shelves.{new_shelf, with_file, IsReadAt, IsPut};

use crate::fault::{Fault, ShelfFault};
use crate::memory::failing::Failing;
use crate::memory::pieces::{copy_front, rest_from};
use crate::shelf::Shelf;
use std::alloc::{AllocError, Global};
use std::collections::BTreeMap;

/// A shelf that keeps its files in a map.
#[derive(Drop)]
pub struct MemShelf {
    alloc: Global,
    files: BTreeMap<String, Vec<u8>>,
    absences: u64,
    failing: Failing,
}

impl MemShelf {
    /// A shelf without files.
    pub fn new(alloc: Global, failing: Vec<u64>) -> Self
        ensures told { shelf_told result ≡ new_shelf (vec_len failing == 0) }
        ensures planned { IsPlanned failing.items (shelf_failing result) }
    {
        MemShelf {
            alloc,
            files: BTreeMap::new(alloc),
            absences: 0,
            failing: Failing::new(failing),
        }
    }

    /// Puts these bytes under the name. It is no call of the shelf, so it is not counted and
    /// doesn't fail as one.
    pub fn put(&mut self, name: &str, bytes: &[u8]) -> Result<(), AllocError>
        ensures ok { OnOk result (shelf_told self.new
            ≡ with_file name.now bytes.now (shelf_told self.old)) }
        ensures err { OnErr result (shelf_told self.new ≡ shelf_told self.old) }
        ensures planned { SamePlan (shelf_failing self.old) (shelf_failing self.new) }
    {
        put_file(&mut self.files, self.alloc, name, bytes)
    }

    /// The bytes under the name.
    pub fn get(&self, name: &str) -> Option<&[u8]>
        ensures { IfSome (shelf_told self.now).files
            (λ files. option_copied result ≡ get files name.now) }
    {
        file_in(&self.files, name)
    }

    /// How often the shelf has failed.
    pub fn faults(&self) -> u64
        ensures { result ≡ (shelf_told self.now).faults }
    {
        self.failing.faults()
    }

    /// How often a name was not there.
    pub fn absences(&self) -> u64
        ensures { result ≡ (shelf_told self.now).absences }
    {
        self.absences
    }
}

fn file_in<'a>(files: &'a BTreeMap<String, Vec<u8>>, name: &str) -> Option<&'a [u8]>
    ensures { option_copied result ≡ get (files_of files.now) name.now }
{
    files.get(name).map(|bytes| bytes.as_slice())
}

fn put_file(
    files: &mut BTreeMap<String, Vec<u8>>,
    alloc: Global,
    name: &str,
    bytes: &[u8],
) -> Result<(), AllocError>
    ensures ok { OnOk result (files_of files.new ≡ insert (files_of files.old) name.now bytes.now) }
    ensures err { OnErr result (files_of files.new ≡ files_of files.old) }
{
    let key = String::from_str(alloc, name)?;
    files.insert(key, Vec::from_slice(alloc, bytes)?)?;
    Ok(())
}

impl Shelf for MemShelf {
    ghost use Rattle.std.specs.Prelude.{None};

    ghost told = { shelf_told };

    ghost calls = { λ _. None };

    fn read_at(&mut self, name: &str, offset: u64, into: &mut [u8]) -> Result<usize, ShelfFault>
        ensures used { IsReadAt (shelf_told self.old) (shelf_told self.new) name.now offset
            into.old into.new result }
        ensures planned { GoesAsPlanned (shelf_failing self.old) (shelf_failing self.new)
            (result ≡ Err ShelfFault.Failed) }
        ensures no_memory { result ≢ Err ShelfFault.Memory }
    {
        if self.failing.next_fails() {
            return Err(ShelfFault::Failed);
        }
        let Some(bytes) = file_in(&self.files, name) else {
            self.absences = self.absences.saturating_add(1);
            return Err(ShelfFault::Absent);
        };
        Ok(copy_front(rest_from(bytes, offset), into))
    }

    /// Refused, it leaves what was under the name.
    fn write(&mut self, name: &str, bytes: &[u8]) -> Result<(), Fault>
        ensures used { IsPut (shelf_told self.old) (shelf_told self.new) name.now bytes.now result }
        ensures refused { OnErr result ((shelf_told self.new).files ≡ (shelf_told self.old).files) }
        ensures planned { GoesAsPlanned (shelf_failing self.old) (shelf_failing self.new)
            (result ≡ Err Fault.Failed) }
    {
        if self.failing.next_fails() {
            return Err(Fault::Failed);
        }
        put_file(&mut self.files, self.alloc, name, bytes)?;
        Ok(())
    }
}
