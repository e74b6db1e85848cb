// A table that has the ticks as a formula of the load that an arc drives.
ghost use Rattle.std.specs.Prelude.{◌≡◌, pos, ◌+ℤ◌, ◌*ℤ◌};
ghost use Rattle.delay.specs.LoadFormula.{load_ticks};

use crate::product::product;
use crate::table::{Table, TableRow};

// C shares the row, so it has a mark in place of an `Option`.
#[repr(C)]
#[derive(Clone, Copy, PartialEq, Eq, Debug)]
pub struct LoadRow {
    pub marked: bool,
    pub intrinsic: i32,
    pub slope: i32,
    pub load: u16,
}

// Ticks that rise with the load: 64 bits hold every such sum.
pub fn under_load(intrinsic: i32, slope: i32, load: u16) -> i64
    ensures { result ≡ intrinsic +ℤ (slope *ℤ pos load) }
{
    i64::from(intrinsic) + product(slope, load)
}

impl TableRow for LoadRow {
    ghost shows = { load_ticks };

    fn ticks_shown(self) -> Option<i64> {
        let ticks = under_load(self.intrinsic, self.slope, self.load);
        self.marked.then_some(ticks)
    }
}

pub type LoadFormula<'a> = Table<'a, LoadRow>;
