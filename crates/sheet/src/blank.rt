// Rows of zeros.
ghost use Rattle.std.specs.Prelude.{◌≡◌, map, length, replicate};
ghost use Rattle.measure.specs.Rows.{zeros};

use measure::Measure;

pub fn blank_rows<M: Measure>(values: &mut [M])
    ensures { map M.Measure.row values.new ≡ replicate (length values.old) (zeros M.width) }
{
    let zero = M::zero();
    // `fill` asks for a clone that cannot fail, which a measure need not show
    for value in values.iter_mut() {
        *value = zero;
    }
}
