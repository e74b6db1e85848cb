// What every measure has, and the laws that each shows of itself.
ghost use Rattle.std.specs.Prelude.{◌≡◌, ℕ, Bool, ℤ};
ghost use Rattle.measure.specs.Rows.{Row, zeros, negated, placed, on_some, summed, entered};
ghost use Rattle.measure.specs.Laws.{Laws, InRange};

pub trait Measure: Copy {
    // The number of places of each row: 1, 2 or 3.
    const WIDTH: usize;

    // The same, for clauses.
    ghost WIDTH: { ℕ };

    // The width of a row, which is `WIDTH`.
    ghost width: { ℕ };

    // What a value means.
    ghost row: { Self → Row width };

    // Whether the first row equals or precedes the second.
    ghost not_later: { Row width → Row width → Bool };

    // The rows that a time and an arc's delay of so many ticks mean.
    ghost row_of_time: { ℤ → Row width };

    ghost row_of_arc: { ℤ → Row width };

    // `WIDTH`, for generic code whose proof needs its value.
    fn places() -> usize
        ensures width { result ≡ width }
        ensures constant { result ≡ WIDTH };

    fn zero() -> Self
        ensures { row result ≡ zeros width };

    fn time(t: i32) -> Option<Self>
        ensures { on_some row result ≡ entered row_of_time t };

    fn arc(d: i32) -> Option<Self>
        ensures { on_some row result ≡ entered row_of_arc d };

    fn sum(self, other: Self) -> Option<Self>
        ensures { on_some row result ≡ summed width (row self) (row other) };

    fn opposite(self) -> Self
        ensures { row result ≡ negated width (row self) };

    fn not_after(self, other: Self) -> bool
        ensures { result ≡ not_later (row self) (row other) };

    fn place(self, i: usize) -> Option<i32>
        ensures { result ≡ placed width (row self) i };

    ghost laws: { Laws width not_later row_of_time row_of_arc };

    // No value has a place out of range.
    ghost valid: { (x : Self) → InRange width (row x) };
}
