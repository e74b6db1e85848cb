// The measure of two places: ticks and, where those are equal, the number of arcs.
ghost use Rattle.std.specs.Prelude.{◌≡◌, ℤ, pos};
ghost use Rattle.measure.specs.Rows.{Within, lex_le, on_some, entered};
ghost use Rattle.std.proofs.Common.{arith, rules};
ghost use Rattle.std.proofs.lemmas.Int.{ints};
ghost use Rattle.measure.specs.Lex.{lex_order};

use crate::limits::{add_places, tick_count};
use crate::measure::Measure;

#[repr(C)]
#[derive(Clone, Copy, PartialEq, Eq, Debug)]
pub struct StagedTicks {
    ticks: i32,
    stages: i32,
    ghost ticks_ok: { Within 1000000000 ticks },
    ghost stages_ok: { Within 1000000000 stages },
}

// So many ticks with so many stages, where the ticks are a tick count.
fn staged(ticks: i32, stages: i32) -> Option<StagedTicks>
    requires { Within 1000000000 stages }
    ensures { on_some {B = ℤ × ℤ} (λ x. (x.ticks, x.stages)) result ≡ entered (λ t. (t, stages)) ticks }
{
    let ticks = tick_count(ticks)?;
    Some(StagedTicks { ticks, stages })
}

impl Measure for StagedTicks {
    const WIDTH: usize = 2;

    ghost WIDTH = { 2 };

    ghost width = { 2 };

    ghost row = { λ x. (x.ticks, (x.stages, tt)) };

    ghost not_later = { lex_le 2 };

    ghost row_of_time = { λ t. (t, (pos 0, tt)) };

    ghost row_of_arc = { λ d. (d, (pos 1, tt)) };

    ghost laws = { record {
      some = omega arith;
      few = omega arith;
      time = λ t h. (h, (omega (arith, ints), tt));
      arc = λ d h. (h, (omega (arith, ints), tt));
      order = lex_order 2;
    } };

    ghost valid = { first_of (Prim.search rules, Prim.grind (arith, Self.row.coded.inj)) };

    fn places() -> usize {
        Self::WIDTH
    }

    fn zero() -> StagedTicks {
        StagedTicks {
            ticks: 0,
            stages: 0,
        }
    }

    fn time(t: i32) -> Option<StagedTicks> {
        staged(t, 0)
    }

    fn arc(d: i32) -> Option<StagedTicks> {
        staged(d, 1)
    }

    fn sum(self, other: StagedTicks) -> Option<StagedTicks> {
        let ticks = add_places(self.ticks, other.ticks)?;
        let stages = add_places(self.stages, other.stages)?;
        Some(StagedTicks { ticks, stages })
    }

    fn opposite(self) -> StagedTicks {
        StagedTicks {
            ticks: -self.ticks,
            stages: -self.stages,
        }
    }

    fn not_after(self, other: StagedTicks) -> bool {
        (self.ticks, self.stages) <= (other.ticks, other.stages)
    }

    fn place(self, i: usize) -> Option<i32> {
        match i {
            0 => Some(self.ticks),
            1 => Some(self.stages),
            _ => None,
        }
    }
}
