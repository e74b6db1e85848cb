// The record of a value line, and what is wrong where no line is whole.
ghost use Rattle.std.specs.Prelude.{◌≡◌, ℕ, List, [], ◌∷◌, slice_get};
ghost use Rattle.reader.specs.Fields.{Told};
ghost use Rattle.reader.specs.Format.{record_from, unended};
ghost use Rattle.reader.specs.Numbers.{number};
ghost use Rattle.reader.specs.Records.{letter_side};

use crate::faults::FileFault;
use crate::fields::Line;
use crate::numbers::read_number;
use crate::records::{Kind, Record, Side};

// A field, as a part of the file, told by its form.
#[derive(Clone, Copy)]
enum Field<'a> {
    Name(&'a [u8]),
    Number { text: &'a [u8], value: i32 },
    Letter(char),
}

// A number, else one byte as a letter, else a name.
impl<'a> From<&'a [u8]> for Field<'a> {
    ghost from_gives = { λ text field. Told text.now field };

    fn from(text: &'a [u8]) -> Field<'a> {
        if let Some(value) = read_number(text) {
            return Field::Number { text, value };
        }
        match text {
            [letter] => Field::Letter(*letter as char),
            _ => Field::Name(text),
        }
    }
}

impl Field<'_> {
    fn number(self) -> Option<i32>
        ensures { (bs : List ℕ) → Told bs self.entry → result ≡ number bs }
    {
        match self {
            Field::Number { value, .. } => Some(value),
            _ => None,
        }
    }

    // The side that a letter names.
    fn side(self) -> Option<Side>
        ensures { (bs : List ℕ) → Told bs self.entry → result ≡ letter_side bs }
    {
        match self {
            Field::Letter(letter) => Side::try_from(letter).ok(),
            _ => None,
        }
    }
}

// The number that a field is told as.
fn number_in(text: &[u8]) -> Option<i32>
    ensures { result ≡ number text.now }
{
    Field::from(text).number()
}

// The side that a field is told as.
fn side_in(text: &[u8]) -> Option<Side>
    ensures { result ≡ letter_side text.now }
{
    Field::from(text).side()
}

// The record of a kind, by the texts of its values in their order.
pub(crate) fn record_from(kind: Kind, first: &[u8], second: &[u8], third: &[u8]) -> Option<Record>
    ensures { result ≡ record_from kind (slice_get (first.now ∷ second.now ∷ third.now ∷ [])) }
{
    match kind {
        Kind::Arcs => Some(Record::Arc {
            from: number_in(first)?,
            to: number_in(second)?,
        }),
        Kind::Delays => Some(Record::Delay {
            arc: number_in(first)?,
            ticks: number_in(second)?,
        }),
        Kind::Bounds => Some(Record::Bound {
            node: number_in(first)?,
            side: side_in(second)?,
            ticks: number_in(third)?,
        }),
        Kind::FalseSets => Some(Record::Pair {
            set: number_in(first)?,
            from: number_in(second)?,
            to: number_in(third)?,
        }),
    }
}

// What is wrong with the bytes after the last byte 10, where the end line has not come.
pub(crate) fn unended_fault(rest: Line) -> FileFault
    ensures { result ≡ unended rest.entry.text.now }
{
    if rest.text.is_empty() {
        FileFault::EndMissing
    } else if rest.is_end() {
        FileFault::EndUnended
    } else {
        FileFault::ValueUnended
    }
}
