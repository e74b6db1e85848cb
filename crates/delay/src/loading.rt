// Loads an annotated table from a delay file.
ghost use Rattle.std.specs.Prelude.{◌≡◌, List, length, Err, MatchResult};
ghost use Rattle.reader.specs.Loading.{Leaves, numbered};
ghost use Rattle.delay.specs.declared.annotated.AnnotatedRow.{AnnotatedRow};
ghost use Rattle.delay.specs.DelayFiles.{is_delay, set_row, take_line, length_answer, Loads, LastLineStands};

use crate::annotated::AnnotatedRow;
use crate::source::{LAST_ARC, is_tick_count};
use reader::{FileFault, FileRefusal, Kind, Record, Sink, load};

// A line has a number out of range.
#[derive(Clone, Copy)]
struct OutOfRange;

// The refusal of a table that has not one row for each arc.
const WRONG_LENGTH: FileRefusal = FileRefusal {
    fault: FileFault::Call(14),
    line: 0,
};

fn is_delay(arc: i32, ticks: i32) -> bool
    ensures { result ≡ is_delay arc ticks }
{
    (0..=i32::from(LAST_ARC)).contains(&arc) && is_tick_count(ticks)
}

// A copy of the rows, which takes a file's lines.
#[derive(Clone, Copy)]
struct Rows {
    rows: [AnnotatedRow; 1024],
}

// Refused unless there is one row for each arc.
impl TryFrom<&[AnnotatedRow]> for Rows {
    type Error = FileRefusal;

    ghost try_from_gives = { λ table r. MatchResult r (λ copy. (length table.now ≡ 1024) × (copy.rows ≡ table.now)) (λ e. length_answer (length table.now) ≡ Err e) };

    fn try_from(table: &[AnnotatedRow]) -> Result<Rows, FileRefusal> {
        match <[AnnotatedRow; 1024]>::try_from(table) {
            Ok(rows) => Ok(Rows { rows }),
            Err(_) => Err(WRONG_LENGTH),
        }
    }
}

impl Rows {
    fn set_row(&mut self, arc: i32, ticks: i32) -> Result<(), OutOfRange>
        ensures { Leaves (set_row self.old.rows arc ticks) self.old.rows (numbered (λ _. 6) result) self.new.rows }
    {
        if !is_delay(arc, ticks) {
            return Err(OutOfRange);
        }
        self.rows[arc as usize] = AnnotatedRow::new(ticks);
        Ok(())
    }
}

impl Sink for Rows {
    ghost model = { List AnnotatedRow };

    ghost holds = { λ s. s.rows };

    ghost step = { λ rows line. take_line rows line };

    type Refusal = OutOfRange;

    ghost number = { λ _. 6 };

    // A delay file has no other records.
    fn take(&mut self, entry: Record) -> Result<(), OutOfRange> {
        match entry {
            Record::Delay { arc, ticks } => self.set_row(arc, ticks),
            _ => Err(OutOfRange),
        }
    }

    fn number(_refusal: &OutOfRange) -> u8 {
        6
    }
}

// Sets the rows that the file's lines name, or leaves the table as it was.
pub fn load_delays(bytes: &[u8], table: &mut [AnnotatedRow]) -> Result<(), FileRefusal>
    ensures loads { Loads bytes.now table.old result table.new }
    ensures stands { LastLineStands bytes.now table.old result table.new }
{
    let mut copy = Rows::try_from(&*table)?;
    let done = load(Kind::Delays, bytes, &mut copy);
    table.copy_from_slice(&copy.rows);
    done
}
