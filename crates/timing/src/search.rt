// Where a tag stands among lines that are sorted by tag. No branch here hangs on a tag: on which side of a line it lies is
// as good as random, and a processor would foresee such a branch wrongly half the time.
ghost use Rattle.std.specs.Prelude.{◌≡◌, ℕ, ◌+◌, ◌*◌, ◌-◌, ◌<◌, ◌≤◌, cond, nat_lt, length, slice_index_or};
ghost use Rattle.sheet.specs.Lines.{past_line};
ghost use Rattle.timing.specs.Lines.{SortedByTag};

use sheet::Line;

// So few lines are gone through one by one, and of more those that are left so.
pub(crate) const FEW: usize = 8;

fn is_below(line: Line, tag: u16) -> usize
    ensures { result ≡ cond (nat_lt line.tag tag) 1 0 }
{
    usize::from(line.tag < tag)
}

// How many lines from `base` on are below the tag, by whole quarters, of which the first three are looked at.
fn below_by_quarters(lines: &[Line], base: usize, quarter: usize, tag: u16) -> usize
    requires some { 0 < quarter }
    requires in_bounds { base + 3 * quarter ≤ length lines.now }
    requires sorted { SortedByTag lines.now }
    ensures within { result ≤ 3 * quarter }
    ensures below { 0 < result → (slice_index_or lines.now (base + result - 1) past_line).tag < tag }
    ensures stops { result < 3 * quarter → tag ≤ (slice_index_or lines.now (base + result + quarter - 1) past_line).tag }
{
    let last = base + quarter - 1;
    let first = is_below(lines[last], tag);
    let second = is_below(lines[last + quarter], tag);
    let third = is_below(lines[last + 2 * quarter], tag);
    quarter * (first + second + third)
}

// How many of the lines are below the tag.
fn count_below(lines: &[Line], tag: u16) -> usize
    requires { SortedByTag lines.now }
    ensures within { result ≤ length lines.now }
    ensures below { (k : ℕ) → k < result → (slice_index_or lines.now k past_line).tag < tag }
    ensures stops { result < length lines.now → tag ≤ (slice_index_or lines.now result past_line).tag }
{
    let mut count = 0;
    for line in lines {
        count += is_below(*line, tag);
    }
    count
}

// Where the lines reach the tag.
pub(crate) fn reach(lines: &[Line], tag: u16) -> usize
    requires { SortedByTag lines.now }
    ensures within { result ≤ length lines.now }
    ensures below { (k : ℕ) → k < result → (slice_index_or lines.now k past_line).tag < tag }
    ensures stops { result < length lines.now → tag ≤ (slice_index_or lines.now result past_line).tag }
{
    let mut base = 0;
    let mut left = lines.len();
    while left > FEW {
        let quarter = left / 4;
        base += below_by_quarters(lines, base, quarter, tag);
        left -= 3 * quarter;
    }
    base + count_below(&lines[base..base + left], tag)
}
