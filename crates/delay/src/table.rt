// A source that reads a table, with the row of an arc at its number.
ghost use Rattle.std.specs.Prelude.{◌≡◌, map, ℤ, Option};
ghost use Rattle.delay.specs.Tables.{shown_at, row_entry, tabled};
ghost use Rattle.delay.specs.Sounds.{tabled_sound};

use crate::fault::{Cause, Fault};
use crate::source::{Source, is_arc, ranged_ticks};

pub trait TableRow: Copy {
    // The ticks that the row shows: nothing where it has no mark.
    ghost shows: { Self → Option ℤ };

    fn ticks_shown(self) -> Option<i64>
        ensures { result ≡ shows self };
}

// The ticks that the row of an arc shows.
fn look_up<R: TableRow>(rows: &[R], arc: u16) -> Option<i64>
    ensures { result ≡ shown_at (map R.shows rows.now) arc }
{
    if !is_arc(arc) {
        return None;
    }
    let row = rows.get(arc as usize)?;
    row.ticks_shown()
}

// What a table answers for an arc whose row shows these ticks.
fn row_entry(arc: u16, shown: Option<i64>) -> Result<i32, Fault>
    ensures { result ≡ row_entry arc shown }
{
    let ticks = shown.ok_or(Fault {
        cause: Cause::Missing,
        arc,
        level: 0,
    })?;
    ranged_ticks(ticks, Cause::OutOfRange, arc, 0)
}

#[derive(Drop)]
pub struct Table<'a, R> {
    pub rows: &'a [R],
}

impl<'a, R: TableRow> Source for Table<'a, R> {
    ghost means = { λ s. tabled (map R.TableRow.shows s.rows.now) };

    ghost depth = { λ _. 0 };

    ghost sound = { λ s. tabled_sound (map R.TableRow.shows s.rows.now) };

    // A table stays as it is.
    ghost asked = { λ s _ t. t ≡ s };

    fn delay(&mut self, arc: u16) -> Result<i32, Fault> {
        row_entry(arc, look_up(self.rows, arc))
    }

    fn level(&self) -> u8 {
        0
    }
}
