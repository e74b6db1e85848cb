// The arrival pass: each node's lines, by rising node.
ghost use Rattle.std.specs.Prelude.{◌≡◌, ◌≤◌, [], ◌++◌, length};
ghost use Rattle.std.specs.List.{flat_map};
ghost use Rattle.measure.specs.Rows.{on_some};
ghost use Rattle.graph.specs.Index.{listed};
ghost use Rattle.paths.specs.Sheets.{started, entered};
ghost use Rattle.timing.specs.Measured.{measured};
ghost use Rattle.timing.specs.TimedBlock.{arcs_in, rows_of, brings};
ghost use Rattle.timing.specs.Lines.{front, Filled};
ghost use Rattle.timing.specs.Crossings.{Entering};
ghost use Rattle.timing.specs.Bringing.{AllReady};
ghost use Rattle.timing.specs.Arrived.{Arrives};

use crate::block::TimedBlock;
use crate::bring::bring_all;
use crate::cross::enter_behind;
use crate::rows::time_row;
use graph::{ArcEnd, ArcIndex};
use measure::Measure;
use sheet::Line;

// The line of a node's start, if it has one.
fn start_line<M: Measure>(
    node: u8,
    start: Option<M>,
    lines: &mut [Line],
    times: &mut [M],
    base: usize,
) -> Option<usize>
    requires base_in_bounds { base ≤ length lines.old }
    requires times_len { length times.old ≡ length lines.old }
    ensures { Filled M.Measure.row base lines.old times.old (entered (measured M.Measure) (started node (on_some M.Measure.row start)) []) lines.new times.new result }
{
    let Some(time) = start else {
        return Some(0);
    };
    let line = Line {
        node: node as u16,
        ..Line::BLANK
    };
    enter_behind(lines, times, base, 0, line, time)
}

// The lines of a node: its start's, and those that its arcs bring.
fn arrive<M: Measure>(
    node: u8,
    block: &TimedBlock,
    heads: &ArcIndex,
    firsts: &[u16; 257],
    lines: &mut [Line],
    times: &mut [M],
    base: usize,
) -> Option<usize>
    requires ready { AllReady (arcs_in block.now) firsts.now base (listed heads.now node) }
    requires entering { Entering M.Measure base 0 lines.old times.old }
    ensures { Filled M.Measure.row base lines.old times.old (entered (measured M.Measure) (started node ((rows_of M.Measure block.now).start node) ++ flat_map (brings M.Measure block.now firsts.now (front M.Measure.row base lines.old times.old)) (listed heads.now node)) []) lines.new times.new result }
{
    let start = time_row(block.graph.start(node));
    let count = start_line(node, start, lines, times, base)?;
    bring_all(
        heads.arcs_at(node),
        block,
        firsts,
        lines,
        times,
        base,
        count,
    )
}

// The lines of all nodes with their arrivals, and where each node's lines begin. Answers how many lines there are, or nothing where the table has no room for them.
pub(crate) fn arrive_all<M: Measure>(
    block: &TimedBlock,
    firsts: &mut [u16; 257],
    lines: &mut [Line],
    times: &mut [M],
) -> Option<usize>
    requires lines { length lines.old ≤ 4096 }
    requires even { length times.old ≡ length lines.old }
    ensures { Arrives M.Measure.row (measured M.Measure) (rows_of M.Measure block.now) lines.new times.new firsts.new result }
{
    let heads = ArcIndex::by(ArcEnd::Head, block.graph);
    firsts[0] = 0;
    let mut base = 0;
    for node in 0..=255u8 {
        base += arrive(node, block, &heads, firsts, lines, times, base)?;
        firsts[node as usize + 1] = base as u16;
    }
    Some(base)
}
