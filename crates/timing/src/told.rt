// A time that is asked of a line.
ghost use Rattle.std.specs.Prelude.{◌≡◌};
ghost use Rattle.measure.specs.Rows.{zeros};
ghost use Rattle.sheet.specs.Written.{row_or};
ghost use Rattle.timing.specs.Requiring.{told};

use measure::Measure;

// A required time or a slack, and the arc and the line that it comes from.
#[derive(Clone, Copy)]
pub(crate) struct Told<M> {
    pub row: M,
    pub arc: u16,
    pub line: u16,
}

// The time, or zero where there is none.
pub(crate) fn row_or_zero<M: Measure>(asked: Option<Told<M>>) -> M
    ensures { M.Measure.row result ≡ row_or (zeros M.width) (told M.Measure.row asked) }
{
    asked.map_or(M::zero(), |told| told.row)
}
