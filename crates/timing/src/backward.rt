// The required times of all lines, from the last node back.
ghost use Rattle.std.specs.Prelude.{◌≡◌, ◌+◌, ◌<◌, ◌≤◌, map, length, slice_index, option_to_list};
ghost use Rattle.measure.specs.Rows.{zeros};
ghost use Rattle.graph.specs.declared.parts.ArcEnd.TheVariants.{Tail};
ghost use Rattle.graph.specs.Index.{numbers_at};
ghost use Rattle.paths.specs.Sheets.{arrivals, ended};
ghost use Rattle.sheet.specs.Written.{line_of, required_of};
ghost use Rattle.timing.specs.Measured.{measured};
ghost use Rattle.timing.specs.TimedBlock.{arcs_in, rows_of, sheet_of};
ghost use Rattle.timing.specs.Requiring.{told};
ghost use Rattle.timing.specs.RequiredFrom.{asked_line, unasked, unasked_of, FirstsAre, RequiredFrom};

use crate::block::TimedBlock;
use crate::require::{AskedLines, ask_end};
use crate::rows::time_row;
use crate::told::{Told, row_or_zero};
use graph::{ArcEnd, ArcIndex};
use measure::Measure;
use sheet::Line;

// The line with what is asked of it, or with no required time.
fn with_asked<M: Measure>(line: Line, asked: Option<Told<M>>) -> Line
    ensures { result ≡ asked_line line (told M.Measure.row asked) }
{
    match asked {
        Some(told) => Line {
            fore_arc: told.arc,
            fore_line: told.line,
            required: true,
            ..line
        },
        None => Line {
            node: line.node,
            tag: line.tag,
            back_arc: line.back_arc,
            back_line: line.back_line,
            ..Line::BLANK
        },
    }
}

// The required times of the lines of one node, from its last line back.
fn require_node<M: Measure>(
    node: usize,
    end: Option<Told<M>>,
    numbers: &[u16],
    block: &TimedBlock,
    firsts: &[u16; 257],
    lines: &mut [Line],
    required: &mut [M],
)
    requires node { node < 256 }
    requires end { option_to_list (told M.Measure.row end) ≡ ended ((rows_of M.Measure block.now).end node) }
    requires numbers { numbers.now ≡ numbers_at Tail node 0 (arcs_in block.now) }
    requires firsts { FirstsAre (measured M.Measure) (rows_of M.Measure block.now) 256 firsts.now }
    requires lines { length lines.old ≤ 4096 }
    requires even { length required.old ≡ length lines.old }
    requires after { RequiredFrom M.Measure.row (measured M.Measure) (rows_of M.Measure block.now) 256 (slice_index firsts.now (node + 1)) lines.old required.old }
    ensures { RequiredFrom M.Measure.row (measured M.Measure) (rows_of M.Measure block.now) 256 (slice_index firsts.now node) lines.new required.new }
{
    for i in (firsts[node] as usize..firsts[node + 1] as usize).rev() {
        let line = lines[i];
        let lines_asked = AskedLines {
            firsts,
            lines,
            required,
        };
        let asked = lines_asked.require(end, numbers, line.tag, block);
        lines[i] = with_asked(line, asked);
        required[i] = row_or_zero(asked);
    }
}

// The required times of all lines. Where a line has none, its row is that of zeros and its fore link is none.
pub(crate) fn require_all<M: Measure>(
    block: &TimedBlock,
    firsts: &[u16; 257],
    lines: &mut [Line],
    required: &mut [M],
)
    requires lines { length lines.old ≤ 4096 }
    requires even { length required.old ≡ length lines.old }
    requires firsts { FirstsAre (measured M.Measure) (rows_of M.Measure block.now) 256 firsts.now }
    requires arrived { map unasked lines.old ≡ map unasked_of (arrivals (measured M.Measure) (rows_of M.Measure block.now) 256) }
    ensures lines { lines.new ≡ map line_of (sheet_of M.Measure block.now) }
    ensures required { map M.Measure.row required.new ≡ map (required_of (zeros M.width)) (sheet_of M.Measure block.now) }
{
    let tails = ArcIndex::by(ArcEnd::Tail, block.graph);
    for node in (0..=255u8).rev() {
        let end = ask_end(time_row(block.graph.end(node)));
        let numbers = tails.arcs_at(node);
        require_node(node as usize, end, numbers, block, firsts, lines, required);
    }
}
