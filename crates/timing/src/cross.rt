// The lines of a node cross an arc.
ghost use Rattle.std.specs.Prelude.{◌≡◌, ◌+◌, ◌-◌, ◌<◌, ◌≤◌, length};
ghost use Rattle.paths.specs.Relations.{ByTag};
ghost use Rattle.paths.specs.Sheets.{enter as entry, entered};
ghost use Rattle.measure.specs.Rows.{Bounded};
ghost use Rattle.graph.specs.Sorting.{segment};
ghost use Rattle.timing.specs.Measured.{measured};
ghost use Rattle.timing.specs.Lines.{view, front, behind, Filled};
ghost use Rattle.timing.specs.Crossings.{meant, crossed, Entering};

use crate::crossing::Crossing;
use crate::enter::enter;
use measure::Measure;
use sheet::Line;

// The line enters the `count` lines behind the first `base` ones, which are sorted by tag.
pub(crate) fn enter_behind<M: Measure>(
    lines: &mut [Line],
    times: &mut [M],
    base: usize,
    count: usize,
    line: Line,
    time: M,
) -> Option<usize>
    requires count_in_bounds { base + count ≤ length lines.old }
    requires times_len { length times.old ≡ length lines.old }
    requires sorted { ByTag (behind M.Measure.row base count lines.old times.old) }
    ensures { Filled M.Measure.row base lines.old times.old (entry (measured M.Measure) (view M.Measure.row line time) (behind M.Measure.row base count lines.old times.old)) lines.new times.new result }
{
    enter(&mut lines[base..], &mut times[base..], count, line, time)
}

// Line i crosses an arc, and enters the `count` lines behind the first `base` ones, unless it is dropped.
fn cross_line<M: Measure>(
    crossing: Crossing<M>,
    i: usize,
    lines: &mut [Line],
    times: &mut [M],
    base: usize,
    count: usize,
) -> Option<usize>
    requires i_lt_base { i < base }
    requires entering { Entering M.Measure base count lines.old times.old }
    requires bounded { Bounded M.width 1000000 (M.Measure.row crossing.row) }
    ensures { Filled M.Measure.row base lines.old times.old (entered (measured M.Measure) (crossed (measured M.Measure) (meant M.Measure.row crossing) i (segment i 1 (front M.Measure.row base lines.old times.old))) (behind M.Measure.row base count lines.old times.old)) lines.new times.new result }
{
    let Some(tag) = crossing.pass(lines[i].tag) else {
        return Some(count);
    };
    let time = times[i].sum(crossing.row).unwrap();
    let line = Line {
        node: crossing.to,
        tag,
        back_arc: crossing.arc,
        back_line: i as u16,
        ..Line::BLANK
    };
    enter_behind(lines, times, base, count, line, time)
}

// The lines from `first` up to `last` cross an arc, and enter the `count` lines behind the first `base` ones.
pub(crate) fn cross<M: Measure>(
    crossing: Crossing<M>,
    first: usize,
    last: usize,
    lines: &mut [Line],
    times: &mut [M],
    base: usize,
    mut count: usize,
) -> Option<usize>
    requires first_le_last { first ≤ last }
    requires last_le_base { last ≤ base }
    requires entering { Entering M.Measure base count lines.old times.old }
    requires bounded { Bounded M.width 1000000 (M.Measure.row crossing.row) }
    ensures { Filled M.Measure.row base lines.old times.old (entered (measured M.Measure) (crossed (measured M.Measure) (meant M.Measure.row crossing) first (segment first (last - first) (front M.Measure.row base lines.old times.old))) (behind M.Measure.row base count lines.old times.old)) lines.new times.new result }
{
    for i in first..last {
        count = cross_line(crossing, i, lines, times, base, count)?;
    }
    Some(count)
}
