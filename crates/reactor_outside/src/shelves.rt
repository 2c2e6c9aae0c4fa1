ghost use Rattle.std.specs.Prelude.{◌≡◌, ◌↔◌, ℕ, List, Some, None, IsTrue, OnOk, OnErr, IfErr, IsErrOf};
ghost use Rattle.std.specs.Option.{option_copied};
ghost use Rattle.reactor_outside.specs.Shelf.{SameElsewhere, SameFiles, AnswersRead, BothTold, CountsCall, RefusesWrite, Writes};
ghost use Rattle.reactor_outside.specs.Table.{files_in};
ghost use Rattle.reactor_outside.specs.Calls.{next_fails, after_call};

use crate::calls::CallCount;
use crate::shelf::{Shelf, ShelfRefusal};
use crate::table::{FileTable, copy_of_file, file_in, put_file};
use elm_base::NoMemory;
use std::alloc::Global;
use std::collections::BTreeMap;

/// A shelf over memory that never fails.
#[derive(Drop)]
pub struct SureShelf {
    alloc: Global,
    pub table: FileTable,
}

impl SureShelf {
    /// A shelf without files.
    pub fn new(alloc: Global) -> SureShelf
        ensures { (name : List ℕ) → files_in result.table name ≡ None }
    {
        SureShelf {
            alloc,
            table: BTreeMap::new(alloc),
        }
    }

    /// Puts the bytes at the name, in place of a file that was there. It is no call of the shelf.
    pub fn add(&mut self, name: &str, bytes: &[u8]) -> Result<(), NoMemory>
        ensures there { OnOk result (files_in self.new.table name.now ≡ Some bytes.now) }
        ensures others { OnOk result
            (SameElsewhere name.now (files_in self.old.table) (files_in self.new.table)) }
        ensures err { OnErr result (SameFiles (files_in self.old.table) (files_in self.new.table)) }
    {
        put_file(self.alloc, &mut self.table, name, bytes)
    }

    /// The bytes at the name. It is no call of the shelf.
    pub fn file(&self, name: &str) -> Option<&[u8]>
        ensures { option_copied result ≡ files_in self.now.table name.now }
    {
        file_in(&self.table, name)
    }
}

impl Shelf for SureShelf {
    ghost faults = { λ _. 0 };

    ghost files = { λ shelf. Some (files_in shelf.table) };

    fn read(&mut self, alloc: Global, name: &str, limit: usize) -> Result<Vec<u8>, ShelfRefusal> {
        copy_of_file(alloc, &self.table, name, limit)
    }

    fn write(&mut self, name: &str, bytes: &[u8]) -> Result<(), ShelfRefusal> {
        match put_file(self.alloc, &mut self.table, name, bytes) {
            Ok(()) => Ok(()),
            Err(_) => Err(ShelfRefusal::NoMemory),
        }
    }
}

/// A shelf over memory that fails at calls of given numbers, counted from 1.
#[derive(Drop)]
pub struct MemShelf {
    alloc: Global,
    pub table: FileTable,
    pub calls: CallCount,
}

impl MemShelf {
    /// A shelf without files.
    pub fn new(alloc: Global, failing: Vec<u64>) -> MemShelf
        ensures empty { (name : List ℕ) → files_in result.table name ≡ None }
        ensures calls { result.calls ≡ record { made = 0; failing = failing.items; failed = 0 } }
    {
        MemShelf {
            alloc,
            table: BTreeMap::new(alloc),
            calls: CallCount::new(failing),
        }
    }

    /// Puts the bytes at the name, in place of a file that was there. It is no call of the shelf.
    pub fn add(&mut self, name: &str, bytes: &[u8]) -> Result<(), NoMemory>
        ensures there { OnOk result (files_in self.new.table name.now ≡ Some bytes.now) }
        ensures others { OnOk result
            (SameElsewhere name.now (files_in self.old.table) (files_in self.new.table)) }
        ensures err { OnErr result (SameFiles (files_in self.old.table) (files_in self.new.table)) }
        ensures calls { self.new.calls ≡ self.old.calls }
    {
        put_file(self.alloc, &mut self.table, name, bytes)
    }

    /// The bytes at the name. It is no call of the shelf.
    pub fn file(&self, name: &str) -> Option<&[u8]>
        ensures { option_copied result ≡ files_in self.now.table name.now }
    {
        file_in(&self.table, name)
    }
}

impl Shelf for MemShelf {
    ghost faults = { λ shelf. shelf.calls.failed };

    ghost files = { λ shelf. Some (files_in shelf.table) };

    fn read(&mut self, alloc: Global, name: &str, limit: usize) -> Result<Vec<u8>, ShelfRefusal>
        ensures count { CountsCall self.old.calls.failed self.new.calls.failed result }
        ensures answer { AnswersRead (λ v. v.items)
            (files_in self.old.table name.now) limit result }
        ensures same { Some (files_in self.new.table) ≡ Some (files_in self.old.table) }
        // It fails exactly at the calls that are to fail, and counts each call.
        ensures fails { IsTrue (next_fails self.old.calls) ↔ IsErrOf result ShelfRefusal.Failed }
        ensures calls { self.new.calls ≡ after_call (next_fails self.old.calls) self.old.calls }
    {
        if self.calls.next_fails() {
            self.calls.count_failure();
            return Err(ShelfRefusal::Failed);
        }
        self.calls.count_success();
        copy_of_file(alloc, &self.table, name, limit)
    }

    fn write(&mut self, name: &str, bytes: &[u8]) -> Result<(), ShelfRefusal>
        ensures count { CountsCall self.old.calls.failed self.new.calls.failed result }
        ensures written { BothTold (Some (files_in self.old.table)) (Some (files_in self.new.table))
            (λ before after. Writes name.now bytes.now before after result) }
        ensures refused { IfErr result RefusesWrite }
        ensures fails { IsTrue (next_fails self.old.calls) ↔ IsErrOf result ShelfRefusal.Failed }
        ensures calls { self.new.calls ≡ after_call (next_fails self.old.calls) self.old.calls }
    {
        if self.calls.next_fails() {
            self.calls.count_failure();
            return Err(ShelfRefusal::Failed);
        }
        self.calls.count_success();
        match put_file(self.alloc, &mut self.table, name, bytes) {
            Ok(()) => Ok(()),
            Err(_) => Err(ShelfRefusal::NoMemory),
        }
    }
}
