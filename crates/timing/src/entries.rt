// The entries of all nodes: their slacks, and the lines of these.
ghost use Rattle.std.specs.Prelude.{◌≡◌, map, length};
ghost use Rattle.measure.specs.Rows.{zeros};
ghost use Rattle.paths.specs.Sheets.{node_slack};
ghost use Rattle.sheet.specs.Written.{entry_of, row_or, by_nodes};
ghost use Rattle.timing.specs.Measured.{measured};
ghost use Rattle.timing.specs.Requiring.{told};
ghost use Rattle.timing.specs.Slacks.{timeds};
ghost use Rattle.timing.specs.Grouped.{Grouped};

use crate::slack::TimedLines;
use crate::told::{Told, row_or_zero};
use measure::Measure;
use sheet::NodeEntry;

// The entry of a node: the line of its least slack, if it has one.
fn entry<M: Measure>(least: Option<Told<M>>) -> NodeEntry
    ensures { result ≡ entry_of (told M.Measure.row least) }
{
    least.map_or(
        NodeEntry::BLANK,
        |told| NodeEntry {
            timed: true,
            line: told.line,
        },
    )
}

// The entries of all nodes.
pub(crate) fn write_entries<M: Measure>(
    firsts: &[u16; 257],
    timed: &TimedLines<M>,
    nodes: &mut [NodeEntry],
    slacks: &mut [M],
)
    requires grouped { Grouped timed.now.lines.now firsts.now }
    requires nodes { length nodes.old ≡ 256 }
    requires slacks { length slacks.old ≡ 256 }
    ensures nodes { nodes.new ≡ by_nodes (λ v. entry_of (node_slack (measured M.Measure) v (timeds M.Measure.row timed.now.lines.now timed.now.times.now timed.now.required.now))) }
    ensures slacks { map M.Measure.row slacks.new ≡ by_nodes (λ v. row_or (zeros M.width) (node_slack (measured M.Measure) v (timeds M.Measure.row timed.now.lines.now timed.now.times.now timed.now.required.now))) }
{
    for node in 0..256 {
        let least = timed.least_slack(firsts[node] as usize, firsts[node + 1] as usize);
        nodes[node] = entry(least);
        slacks[node] = row_or_zero(least);
    }
}
