//! Files that are kept in memory, in a map from their names.
ghost use Rattle.std.specs.Prelude.{◌≡◌, Some, IfErr, OnOk, OnErr};
ghost use Rattle.std.specs.Option.{option_copied};
ghost use Rattle.reactor_outside.specs.declared.shelf.ShelfRefusal.TheVariants.{Failed};
ghost use Rattle.reactor_outside.specs.Shelf.{AnswersRead, SameElsewhere, SameFiles};
ghost use Rattle.reactor_outside.specs.Table.{files_in};

use crate::shelf::ShelfRefusal;
use elm_base::NoMemory;
use std::alloc::Global;
use std::collections::BTreeMap;

pub type FileTable = BTreeMap<String, Vec<u8>>;

/// The bytes of the file of this name.
pub fn file_in<'a>(table: &'a FileTable, name: &str) -> Option<&'a [u8]>
    ensures { option_copied result ≡ files_in table.now name.now }
{
    match table.get(name) {
        Some(bytes) => Some(bytes.as_slice()),
        None => None,
    }
}

/// A copy of a file that has at most `limit` bytes.
pub fn copy_of_file(
    alloc: Global,
    table: &FileTable,
    name: &str,
    limit: usize,
) -> Result<Vec<u8>, ShelfRefusal>
    ensures answer { AnswersRead (λ v. v.items) (files_in table.now name.now) limit result }
    ensures sure { IfErr result (λ refusal. refusal ≡ Failed → ⊥) }
{
    match file_in(table, name) {
        None => Err(ShelfRefusal::Missing),
        Some(bytes) => {
            if bytes.len() > limit {
                return Err(ShelfRefusal::TooLong);
            }
            match Vec::from_slice(alloc, bytes) {
                Ok(copy) => Ok(copy),
                Err(_) => Err(ShelfRefusal::NoMemory),
            }
        }
    }
}

/// Puts the bytes at the name, in place of a file that was there.
pub fn put_file(
    alloc: Global,
    table: &mut FileTable,
    name: &str,
    bytes: &[u8],
) -> Result<(), NoMemory>
    ensures there { OnOk result (files_in table.new name.now ≡ Some bytes.now) }
    ensures others { OnOk result
        (SameElsewhere name.now (files_in table.old) (files_in table.new)) }
    ensures err { OnErr result (SameFiles (files_in table.old) (files_in table.new)) }
{
    let key = String::from_str(alloc, name)?;
    let bytes = Vec::from_slice(alloc, bytes)?;
    table.insert(key, bytes)?;
    Ok(())
}
