// The measures of earliest times in a form that C can share: a struct with a type parameter cannot cross.
ghost use Rattle.std.specs.Prelude.{◌≡◌, pos};
ghost use Rattle.measure.specs.Rows.{negated};
ghost use Rattle.measure.specs.Bounds.{bounded_negated};
ghost use Rattle.measure.specs.Lex.{lex_order};
ghost use Rattle.measure.specs.contracts.ticks.TicksMeasure.TheImpl as ticks;
ghost use Rattle.measure.specs.contracts.staged.StagedTicksMeasure.TheImpl as staged;
ghost use Rattle.std.proofs.Common.{arith, rules};
ghost use Rattle.std.proofs.lemmas.Int.{ints};

use measure::{Measure, StagedTicks, Ticks};

// What `Early<Ticks>` is: ticks counted the other way, so that the latest is the earliest.
#[repr(C)]
#[derive(Clone, Copy, PartialEq, Eq, Debug)]
pub struct EarlyTicks {
    value: Ticks,
}

impl EarlyTicks {
    fn mirrored(value: Ticks) -> EarlyTicks
        ensures { (ticks.ghosts).row result.value ≡ negated 1 ((ticks.ghosts).row value) }
    {
        EarlyTicks {
            value: value.opposite(),
        }
    }
}

impl Measure for EarlyTicks {
    const WIDTH: usize = 1;

    ghost WIDTH = { 1 };

    ghost width = { 1 };

    ghost row = { λ x. (ticks.ghosts).row x.value };

    ghost not_later = { (ticks.ghosts).not_later };

    ghost row_of_time = { λ t. negated 1 ((ticks.ghosts).row_of_time t) };

    ghost row_of_arc = { λ d. negated 1 ((ticks.ghosts).row_of_arc d) };

    // the order is that of ticks, and the opposite of a row keeps its bounds
    ghost laws = { record {
      some = omega arith;
      few = omega arith;
      time = λ t h. bounded_negated 1 1000000 (t, tt) (h, tt);
      arc = λ d h. bounded_negated 1 1000000 (d, tt) (h, tt);
      order = lex_order 1;
    } };

    ghost valid = { Prim.search rules };

    fn places() -> usize {
        Ticks::places()
    }

    fn zero() -> EarlyTicks {
        EarlyTicks {
            value: Ticks::zero(),
        }
    }

    fn time(t: i32) -> Option<EarlyTicks> {
        Ticks::time(t).map(EarlyTicks::mirrored)
    }

    fn arc(d: i32) -> Option<EarlyTicks> {
        Ticks::arc(d).map(EarlyTicks::mirrored)
    }

    fn sum(self, other: EarlyTicks) -> Option<EarlyTicks> {
        self.value
            .sum(other.value)
            .map(|value| EarlyTicks { value })
    }

    fn opposite(self) -> EarlyTicks {
        EarlyTicks::mirrored(self.value)
    }

    fn not_after(self, other: EarlyTicks) -> bool {
        self.value.not_after(other.value)
    }

    fn place(self, i: usize) -> Option<i32> {
        self.value.place(i)
    }
}

// What `Early<StagedTicks>` is.
#[repr(C)]
#[derive(Clone, Copy, PartialEq, Eq, Debug)]
pub struct EarlyStagedTicks {
    value: StagedTicks,
}

impl EarlyStagedTicks {
    fn mirrored(value: StagedTicks) -> EarlyStagedTicks
        ensures { (staged.ghosts).row result.value ≡ negated 2 ((staged.ghosts).row value) }
    {
        EarlyStagedTicks {
            value: value.opposite(),
        }
    }
}

impl Measure for EarlyStagedTicks {
    const WIDTH: usize = 2;

    ghost WIDTH = { 2 };

    ghost width = { 2 };

    ghost row = { λ x. (staged.ghosts).row x.value };

    ghost not_later = { (staged.ghosts).not_later };

    ghost row_of_time = { λ t. negated 2 ((staged.ghosts).row_of_time t) };

    ghost row_of_arc = { λ d. negated 2 ((staged.ghosts).row_of_arc d) };

    // the order is that of staged ticks, and the opposite of a row keeps its bounds
    ghost laws = { record {
      some = omega arith;
      few = omega arith;
      time = λ t h. bounded_negated 2 1000000 (t, (pos 0, tt)) (h, (omega (arith, ints), tt));
      arc = λ d h. bounded_negated 2 1000000 (d, (pos 1, tt)) (h, (omega (arith, ints), tt));
      order = lex_order 2;
    } };

    ghost valid = { Prim.search rules };

    fn places() -> usize {
        StagedTicks::places()
    }

    fn zero() -> EarlyStagedTicks {
        EarlyStagedTicks {
            value: StagedTicks::zero(),
        }
    }

    fn time(t: i32) -> Option<EarlyStagedTicks> {
        StagedTicks::time(t).map(EarlyStagedTicks::mirrored)
    }

    fn arc(d: i32) -> Option<EarlyStagedTicks> {
        StagedTicks::arc(d).map(EarlyStagedTicks::mirrored)
    }

    fn sum(self, other: EarlyStagedTicks) -> Option<EarlyStagedTicks> {
        self.value
            .sum(other.value)
            .map(|value| EarlyStagedTicks { value })
    }

    fn opposite(self) -> EarlyStagedTicks {
        EarlyStagedTicks::mirrored(self.value)
    }

    fn not_after(self, other: EarlyStagedTicks) -> bool {
        self.value.not_after(other.value)
    }

    fn place(self, i: usize) -> Option<i32> {
        self.value.place(i)
    }
}
