// A file's records by themselves: how many there are, and which.
ghost use Rattle.std.specs.Prelude.{◌≡◌, Some};
ghost use Rattle.reader.specs.declared.listing.ListFault.TheVariants.{File, Memory};
ghost use Rattle.reader.specs.Format.{scanned};
ghost use Rattle.reader.specs.Listing.{counted, Appends, Lists, ListsInto};
ghost use Rattle.reader.specs.Words.{list_words};

use crate::faults::FileRefusal;
use crate::reading::Reader;
use crate::records::{Kind, Record};
use std::alloc::{AllocFailed, Global};
use std::error::Error;
use std::fmt;

// How many value lines a file has, if it is a good one.
pub fn count(kind: Kind, bytes: &[u8]) -> Result<usize, FileRefusal>
    ensures { result ≡ counted (scanned kind bytes.now) }
{
    let mut reader = Reader::open(kind, bytes)?;
    let mut lines = 0;
    // a reader can fail, so that it is no iterator whose items could be counted
    while let Some(_) = reader.next()? {
        lines += 1;
    }
    Ok(lines)
}

// Why a file's records could not be listed.
#[derive(Clone, Copy, Debug, PartialEq, Eq)]
pub enum ListFault {
    File(FileRefusal),
    Memory,
}

impl fmt::Display for ListFault {
    ghost output = { λ fault. Some (list_words fault) };

    fn fmt<W: fmt::Write>(&self, f: &mut fmt::Formatter<W>) -> fmt::Result {
        match *self {
            ListFault::File(fault) => write!(f, "{fault}"),
            ListFault::Memory => write!(f, "out of memory"),
        }
    }
}

impl Error for ListFault {}

impl From<FileRefusal> for ListFault {
    ghost from_gives = { λ e r. r ≡ File e };

    fn from(refusal: FileRefusal) -> ListFault {
        ListFault::File(refusal)
    }
}

impl<T: Drop> From<AllocFailed<T>> for ListFault {
    ghost from_gives = { λ _ r. r ≡ Memory };

    fn from(_refused: AllocFailed<T>) -> ListFault {
        ListFault::Memory
    }
}

// Puts a file's records behind those of a vector, up to the first refusal.
fn append(kind: Kind, bytes: &[u8], records: &mut Vec<Record>) -> Result<(), ListFault>
    ensures { Appends (scanned kind bytes.now) records.old result records.new }
{
    let mut reader = Reader::open(kind, bytes)?;
    while let Some(record) = reader.next()? {
        records.push(record)?;
    }
    Ok(())
}

// Puts a good file's records behind those of a vector, or leaves these as they were.
pub fn list_into(kind: Kind, bytes: &[u8], records: &mut Vec<Record>) -> Result<(), ListFault>
    ensures { ListsInto (scanned kind bytes.now) records.old result records.new }
{
    let before = records.len();
    let done = append(kind, bytes, records);
    if done.is_err() {
        records.truncate(before);
    }
    done
}

// A good file's records, in order.
pub fn list(heap: Global, kind: Kind, bytes: &[u8]) -> Result<Vec<Record>, ListFault>
    ensures { Lists (scanned kind bytes.now) result }
{
    let mut records = Vec::new(heap);
    list_into(kind, bytes, &mut records)?;
    Ok(records)
}
