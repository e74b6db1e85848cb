// The rows of tick counts in range.
ghost use Rattle.std.specs.Prelude.{◌≡◌, true, ℤ, Some};
ghost use Rattle.measure.specs.Rows.{on_some};
ghost use Rattle.graph.specs.Ranges.{is_ticks};

use measure::Measure;

pub(crate) fn arc_row<M: Measure>(ticks: i32) -> M
    requires { is_ticks ticks ≡ true }
    ensures { M.Measure.row result ≡ M.row_of_arc ticks }
{
    M::arc(ticks).unwrap()
}

pub(crate) fn time_row<M: Measure>(ticks: Option<i32>) -> Option<M>
    requires { (t : ℤ) → ticks ≡ Some t → is_ticks t ≡ true }
    ensures { on_some M.Measure.row result ≡ on_some M.row_of_time ticks }
{
    M::time(ticks?)
}
