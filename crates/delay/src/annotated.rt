// A table that has the ticks themselves.
ghost use Rattle.std.specs.Prelude.{◌≡◌, true};
ghost use Rattle.delay.specs.Annotated.{annotated_ticks};

use crate::table::{Table, TableRow};

// No delay is known of an arc until its row is marked. C shares the row, so it has a mark in place of an `Option`.
#[repr(C)]
#[derive(Clone, Copy, PartialEq, Eq, Debug)]
pub struct AnnotatedRow {
    pub marked: bool,
    pub ticks: i32,
}

impl AnnotatedRow {
    // The row of an arc of which no delay is known.
    pub const BLANK: AnnotatedRow = AnnotatedRow {
        marked: false,
        ticks: 0,
    };

    // The row of an arc with so many ticks.
    pub fn new(ticks: i32) -> AnnotatedRow
        ensures { result ≡ record { marked = true; ticks = ticks } }
    {
        AnnotatedRow {
            marked: true,
            ticks,
        }
    }
}

const _: () = prove!(!AnnotatedRow::BLANK.marked);

const _: () = prove!(AnnotatedRow::BLANK.ticks == 0);

impl TableRow for AnnotatedRow {
    ghost shows = { annotated_ticks };

    fn ticks_shown(self) -> Option<i64> {
        self.marked.then_some(i64::from(self.ticks))
    }
}

pub type Annotated<'a> = Table<'a, AnnotatedRow>;
