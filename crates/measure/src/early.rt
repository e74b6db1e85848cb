// Any measure with times and arcs counted the other way, so that its latest is the earliest below.
ghost use Rattle.std.specs.Prelude.{◌≡◌};
ghost use Rattle.measure.specs.Rows.{negated};
ghost use Rattle.measure.specs.Bounds.{bounded_negated};
ghost use Rattle.std.proofs.Common.{rules};

use crate::measure::Measure;

#[repr(C)]
#[derive(Clone, Copy, PartialEq, Eq, Debug)]
pub struct Early<M> {
    value: M,
}

impl<M: Measure> Early<M> {
    // What means the opposite of the value.
    fn mirrored(value: M) -> Early<M>
        ensures { M.Measure.row result.value ≡ negated M.Measure.width (M.Measure.row value) }
    {
        Early {
            value: value.opposite(),
        }
    }
}

impl<M: Measure> Measure for Early<M> {
    const WIDTH: usize = M::WIDTH;

    ghost WIDTH = { M.Measure.WIDTH };

    ghost width = { M.Measure.width };

    ghost row = { λ x. M.Measure.row x.value };

    ghost not_later = { M.Measure.not_later };

    ghost row_of_time = { λ t. negated M.Measure.width (M.Measure.row_of_time t) };

    ghost row_of_arc = { λ d. negated M.Measure.width (M.Measure.row_of_arc d) };

    // the order is the one below, and the opposite of a row keeps its bounds
    ghost laws = { let below = M.Measure.laws in
        record {
          some = below.some;
          few = below.few;
          time = λ t h. bounded_negated _ _ _ (below.time t h);
          arc = λ d h. bounded_negated _ _ _ (below.arc d h);
          order = below.order;
        } };

    ghost valid = { Prim.search rules };

    fn places() -> usize {
        M::places()
    }

    fn zero() -> Early<M> {
        Early { value: M::zero() }
    }

    fn time(t: i32) -> Option<Early<M>> {
        M::time(t).map(Early::mirrored)
    }

    fn arc(d: i32) -> Option<Early<M>> {
        M::arc(d).map(Early::mirrored)
    }

    fn sum(self, other: Early<M>) -> Option<Early<M>> {
        self.value.sum(other.value).map(|value| Early { value })
    }

    fn opposite(self) -> Early<M> {
        Early::mirrored(self.value)
    }

    fn not_after(self, other: Early<M>) -> bool {
        self.value.not_after(other.value)
    }

    fn place(self, i: usize) -> Option<i32> {
        self.value.place(i)
    }
}
