// The measure of one place: a count of ticks.
ghost use Rattle.measure.specs.Rows.{Within, lex_le};
ghost use Rattle.std.proofs.Common.{arith, rules};
ghost use Rattle.measure.specs.Lex.{lex_order};

use crate::limits::{add_places, tick_count};
use crate::measure::Measure;

#[repr(C)]
#[derive(Clone, Copy, PartialEq, Eq, Debug)]
pub struct Ticks {
    ticks: i32,
    ghost ok: { Within 1000000000 ticks },
}

impl Measure for Ticks {
    const WIDTH: usize = 1;

    ghost WIDTH = { 1 };

    ghost width = { 1 };

    ghost row = { λ x. (x.ticks, tt) };

    ghost not_later = { lex_le 1 };

    ghost row_of_time = { λ t. (t, tt) };

    ghost row_of_arc = { λ d. (d, tt) };

    ghost laws = { record { some = omega arith; few = omega arith; time = λ t h. (h, tt); arc = λ d h. (h, tt); order = lex_order 1 } };

    ghost valid = { first_of (Prim.search rules, Prim.grind (arith, Self.row.coded.inj)) };

    fn places() -> usize {
        Self::WIDTH
    }

    fn zero() -> Ticks {
        Ticks { ticks: 0 }
    }

    fn time(t: i32) -> Option<Ticks> {
        let ticks = tick_count(t)?;
        Some(Ticks { ticks })
    }

    fn arc(d: i32) -> Option<Ticks> {
        Self::time(d)
    }

    fn sum(self, other: Ticks) -> Option<Ticks> {
        let ticks = add_places(self.ticks, other.ticks)?;
        Some(Ticks { ticks })
    }

    fn opposite(self) -> Ticks {
        Ticks { ticks: -self.ticks }
    }

    fn not_after(self, other: Ticks) -> bool {
        self.ticks <= other.ticks
    }

    fn place(self, i: usize) -> Option<i32> {
        (i == 0).then_some(self.ticks)
    }
}
