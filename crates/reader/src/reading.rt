// Opens a file, and reads its records one by one.
ghost use Rattle.std.specs.Prelude.{◌≡◌, ℕ, ◌<◌, ◌≤◌, [], map, length, MatchResult, Some, slice_index, slice_index_or};
ghost use Rattle.reader.specs.Pieces.{pieces};
ghost use Rattle.reader.specs.Format.{file, scanned, refused};
ghost use Rattle.reader.specs.Layouts.{arity};
ghost use Rattle.reader.specs.Names.{place};

use crate::faults::{FileFault, FileRefusal};
use crate::fields::{Line, MOST};
use crate::layouts::Layout;
use crate::lines::{Cursor, LIMIT};
use crate::names::{choose, find_places};
use crate::records::{Kind, Record};
use crate::values::{record_from, unended_fault};

// A file after its names line: its columns, where each value of a record stands among them, and the lines to come.
#[derive(Drop)]
pub(crate) struct Reader<'a> {
    kind: Kind,
    layout: Layout,
    names: Line<'a>,
    places: [usize; MOST],
    cursor: Cursor<'a>,

    // A value line has a field for each column, and there are few.
    ghost wide: { length (pieces 44 names.text.now) ≡ length layout.columns.now },
    ghost few: { length layout.columns.now ≤ 3 },

    // Each value stands at its place.
    ghost placed: { (i : ℕ) → i < arity kind → place (slice_index_or (map (λ v. v.now) layout.values.now) i []) (pieces 44 names.text.now) ≡ Some (slice_index places i) },
    ghost within: { (i : ℕ) → slice_index places i < 3 },
}

fn refuse(fault: FileFault, line: usize) -> FileRefusal
    ensures { result ≡ record { fault = fault; line = line } }
{
    FileRefusal { fault, line }
}

fn check_size(bytes: &[u8]) -> Result<(), FileRefusal>
    ensures { MatchResult result
        (λ _. (length bytes.now ≤ 60000) × ((k : Kind) → scanned k bytes.now ≡ file k (pieces 10 bytes.now)))
        (λ e. (k : Kind) → scanned k bytes.now ≡ refused e) }
{
    if bytes.is_empty() {
        return Err(refuse(FileFault::NoBytes, 0));
    }
    if bytes.len() > LIMIT {
        return Err(refuse(FileFault::TooLong, 0));
    }
    Ok(())
}

impl<'a> Reader<'a> {
    ghost use Rattle.std.specs.Prelude.{◌+◌, Err};
    ghost use Rattle.reader.specs.Format.{record_of, unended};
    ghost use Rattle.reader.specs.Layouts.{entry};
    ghost use Rattle.reader.specs.Reading.{left, Steps};

    // The reader of a file, after its names line.
    pub(crate) fn open(kind: Kind, bytes: &'a [u8]) -> Result<Reader<'a>, FileRefusal>
        ensures { MatchResult result
            (λ reader. (left reader ≡ scanned kind bytes.now) × (reader.cursor.line ≡ 1))
            (λ e. scanned kind bytes.now ≡ refused e) }
    {
        check_size(bytes)?;
        let mut cursor = Cursor::new(bytes);
        let Some(names) = cursor.next_line() else {
            return Err(refuse(FileFault::NamesUnended, 1));
        };
        let Some(layout) = choose(kind, names) else {
            return Err(refuse(FileFault::NamesWrong, 1));
        };
        let places = find_places(layout.values, names);
        Ok(Reader {
            kind,
            layout,
            names,
            places,
            cursor,
        })
    }

    // The number of the line that was read last.
    pub(crate) fn line(&self) -> usize
        ensures { result ≡ self.now.cursor.line }
    {
        self.cursor.line
    }

    // The record of a value line.
    fn record(&self, line: Line) -> Option<Record>
        ensures { result ≡ record_of self.now.kind (entry self.now.layout) (pieces 44 self.now.names.text.now) (pieces 44 line.entry.text.now) }
    {
        let row = line.row(self.layout.columns.len())?;
        let [first, second, third] = self.places;
        record_from(
            self.kind,
            row.fields[first],
            row.fields[second],
            row.fields[third],
        )
    }

    // What becomes of a file that has no byte 10 left, and no end line yet.
    fn cut_off(&self) -> Result<Option<Record>, FileRefusal>
        ensures { result ≡ Err (record { fault = unended self.now.cursor.rest.now; line = self.now.cursor.line + 1 }) }
    {
        let rest = Line {
            text: self.cursor.rest,
        };
        Err(refuse(unended_fault(rest), self.cursor.line + 1))
    }

    // The next record, or nothing after the end line.
    pub(crate) fn next(&mut self) -> Result<Option<Record>, FileRefusal>
        ensures { Steps self.old result self.new }
    {
        let Some(line) = self.cursor.next_line() else {
            return self.cut_off();
        };
        let number = self.cursor.line;
        if !line.is_end() {
            return match self.record(line) {
                Some(record) => Ok(Some(record)),
                None => Err(refuse(FileFault::ValueWrong, number)),
            };
        }
        if !line.counts(number) {
            return Err(refuse(FileFault::EndWrong, number));
        }
        if !self.cursor.rest.is_empty() {
            return Err(refuse(FileFault::EndFollowed, number + 1));
        }
        Ok(None)
    }
}
