// Arcs bring the lines of the nodes that they leave to a node.
ghost use Rattle.std.specs.Prelude.{◌≡◌, ◌+◌, ◌≤◌, length, Some, None, slice_index_or};
ghost use Rattle.std.specs.List.{flat_map};
ghost use Rattle.graph.specs.declared.parts.LiveArc.{LiveArc};
ghost use Rattle.paths.specs.Sheets.{entered};
ghost use Rattle.timing.specs.Measured.{measured};
ghost use Rattle.timing.specs.TimedBlock.{arcs_in, brings};
ghost use Rattle.timing.specs.Lines.{front, behind, Filled};
ghost use Rattle.timing.specs.Crossings.{Entering};
ghost use Rattle.timing.specs.Bringing.{Ready, AllReady};

use crate::block::TimedBlock;
use crate::cross::cross;
use measure::Measure;
use sheet::Line;

// The lines of the node that the arc leaves cross it, and enter the `count` lines behind the first `base` ones.
fn bring<M: Measure>(
    number: u16,
    block: &TimedBlock,
    firsts: &[u16; 257],
    lines: &mut [Line],
    times: &mut [M],
    base: usize,
    count: usize,
) -> Option<usize>
    requires ready { (e : LiveArc) → slice_index_or (arcs_in block.now) number None ≡ Some e → Ready firsts.now base e }
    requires entering { Entering M.Measure base count lines.old times.old }
    ensures { Filled M.Measure.row base lines.old times.old (entered (measured M.Measure) (brings M.Measure block.now firsts.now (front M.Measure.row base lines.old times.old) number) (behind M.Measure.row base count lines.old times.old)) lines.new times.new result }
{
    let Some(arc) = block.graph.arc(number) else {
        return Some(count);
    };
    let crossing = block.crossing(number, arc);
    let from = arc.from as usize;
    cross(
        crossing,
        firsts[from] as usize,
        firsts[from + 1] as usize,
        lines,
        times,
        base,
        count,
    )
}

// Each of the arcs brings the lines of the node that it leaves.
pub(crate) fn bring_all<M: Measure>(
    numbers: &[u16],
    block: &TimedBlock,
    firsts: &[u16; 257],
    lines: &mut [Line],
    times: &mut [M],
    base: usize,
    mut count: usize,
) -> Option<usize>
    requires ready { AllReady (arcs_in block.now) firsts.now base numbers.now }
    requires entering { Entering M.Measure base count lines.old times.old }
    ensures { Filled M.Measure.row base lines.old times.old (entered (measured M.Measure) (flat_map (brings M.Measure block.now firsts.now (front M.Measure.row base lines.old times.old)) numbers.now) (behind M.Measure.row base count lines.old times.old)) lines.new times.new result }
{
    for number in numbers {
        count = bring(*number, block, firsts, lines, times, base, count)?;
    }
    Some(count)
}
