// A line of a file, and its fields one by one.
ghost use Rattle.std.specs.Prelude.{◌≡◌, ◌≢◌, ◌≤◌, map, length, take, MatchOption, Some};
ghost use Rattle.std.specs.Iterator.{YieldsFirstRef, item_count};
ghost use Rattle.reader.specs.Pieces.{pieces, fields_in};
ghost use Rattle.reader.specs.Format.{is_end, closes, count_is};
ghost use Rattle.reader.specs.Names.{among, place};

use crate::lines::cut;
use crate::numbers::read_number;

const COMMA: u8 = 44;

// A value line has at most so many fields.
pub(crate) const MOST: usize = 3;

// A line without its byte 10, or what stands after the last byte 10.
#[derive(Clone, Copy)]
pub(crate) struct Line<'a> {
    pub(crate) text: &'a [u8],
    ghost short: { length text.now ≤ 60000 },
}

// The first fields of a line, in order.
#[derive(Clone, Copy)]
pub(crate) struct Row<'a> {
    pub(crate) fields: [&'a [u8]; MOST],
}

impl<'a> Line<'a> {
    fn fields(self) -> Fields<'a>
        ensures { fields_in result.rest ≡ pieces 44 self.entry.text.now }
    {
        Fields {
            rest: Some(self.text),
        }
    }

    // How many fields there are.
    pub(crate) fn width(self) -> usize
        ensures { result ≡ length (pieces 44 self.entry.text.now) }
    {
        self.fields().count()
    }

    // Whether a name is one of the fields.
    pub(crate) fn has(self, name: &str) -> bool
        ensures { result ≡ among name.now (pieces 44 self.entry.text.now) }
    {
        self.fields().any(|field| field == name.as_bytes())
    }

    // The place of a name among the fields.
    pub(crate) fn place(self, name: &str) -> Option<usize>
        ensures { result ≡ place name.now (pieces 44 self.entry.text.now) }
    {
        self.fields().position(|field| field == name.as_bytes())
    }

    // The fields, where there are just so many.
    pub(crate) fn row(self, width: usize) -> Option<Row<'a>>
        requires { width ≤ 3 }
        ensures { MatchOption result
            (length (pieces 44 self.entry.text.now) ≢ width)
            (λ row. (length (pieces 44 self.entry.text.now) ≡ width) × (map (λ f. f.now) (take width row.fields) ≡ pieces 44 self.entry.text.now)) }
    {
        let mut rest = self.fields();
        let mut fields: [&[u8]; MOST] = [&[]; MOST];
        // a proof knows nothing of what an adapter of `iter_mut` writes
        for i in 0..width {
            fields[i] = rest.next()?;
        }
        match rest.next() {
            Some(_) => None,
            None => Some(Row { fields }),
        }
    }

    // Whether the first field is `end`.
    pub(crate) fn is_end(self) -> bool
        ensures { result ≡ is_end self.entry.text.now }
    {
        matches!(self.fields().next(), Some(b"end"))
    }

    // Whether the end line, which is line `number`, counts the value lines before it.
    pub(crate) fn counts(self, number: usize) -> bool
        ensures { result ≡ closes number (pieces 44 self.entry.text.now) }
    {
        let Some(row) = self.row(2) else {
            return false;
        };
        read_number(row.fields[1]).is_some_and(|n| counts_before(n, number))
    }
}

// Whether n value lines stand before the end line, which is line `number`.
fn counts_before(n: i32, number: usize) -> bool
    ensures { result ≡ count_is number (Some n) }
{
    n >= 0 && n as usize + 2 == number
}

// The fields of a line that are still to come.
#[derive(Drop)]
struct Fields<'a> {
    rest: Option<&'a [u8]>,
    ghost few: { length (fields_in rest) ≤ 60001 },
}

impl<'a> Iterator for Fields<'a> {
    type Item = &'a [u8];

    ghost next_gives = { YieldsFirstRef (λ s. fields_in s.rest) };

    ghost remaining = { item_count (λ s. fields_in s.rest) };

    fn next(&mut self) -> Option<&'a [u8]> {
        let rest = self.rest?;
        let Some((field, others)) = cut(rest, COMMA) else {
            self.rest = None;
            return Some(rest);
        };
        self.rest = Some(others);
        Some(field)
    }
}
