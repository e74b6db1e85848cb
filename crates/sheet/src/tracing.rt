// The path that the tables show for a node.
ghost use Rattle.std.specs.Prelude.{◌≡◌, cond, length, Ok, Err, slice_index_or, unsigned_abs};
ghost use Rattle.std.specs.Result.{result_map_both};
ghost use Rattle.graph.specs.Ranges.{is_node};
ghost use Rattle.sheet.specs.declared.refusals.TraceRefusal.TheVariants.{OutOfRange};
ghost use Rattle.sheet.specs.Blanks.{blank_entry};
ghost use Rattle.sheet.specs.Lent.{tables_seen};
ghost use Rattle.sheet.specs.Trails.{back_arcs, fore_arcs};
ghost use Rattle.sheet.specs.Traces.{refusal_number, no_arcs, joined_at, trace_outcome};

use crate::line::Line;
use crate::link::Way;
use crate::node::NodeEntry;
use crate::refusals::TraceRefusal;
use crate::tables::TablesRef;
use crate::trail::{count, write};
use measure::Measure;

const NO_ARC: u16 = 1024;

// The path through line i, into a list that is full of the mark for none.
fn trace_line(lines: &[Line], i: usize, list: &mut [u16]) -> Result<Option<usize>, TraceRefusal>
    requires { list.old ≡ no_arcs (length list.old) }
    ensures answer { result_map_both (λ n. n) refusal_number result ≡ (joined_at (length list.old) (back_arcs lines.now i) (fore_arcs lines.now i)).answer }
    ensures list { list.new ≡ (joined_at (length list.old) (back_arcs lines.now i) (fore_arcs lines.now i)).list }
{
    let before = count(lines, Way::Back, i)?;
    let after = count(lines, Way::Fore, i)?;
    if before > list.len() || after > list.len() - before {
        return Err(TraceRefusal::ShortList);
    }
    let (behind, ahead) = list.split_at_mut(before);
    write(lines, Way::Back, i, behind);
    behind.reverse();
    write(lines, Way::Fore, i, &mut ahead[..after]);
    Ok(Some(before + after))
}

// The entry of a node, if there is such a node.
fn entry_at(nodes: &[NodeEntry], node: i32) -> Result<NodeEntry, TraceRefusal>
    requires { length nodes.now ≡ 256 }
    ensures { result ≡ cond (is_node node) (Ok (slice_index_or nodes.now (unsigned_abs node) blank_entry)) (Err OutOfRange) }
{
    let place = u8::try_from(node).or(Err(TraceRefusal::OutOfRange))?;
    Ok(nodes[place as usize])
}

// Writes the arcs of the path that is shown for the node, from start to end, and answers how many they are, or nothing
// where the node has no slack. The rest of the list is 1,024, all of it where the trace is refused.
pub fn trace<M: Measure>(
    node: i32,
    tables: &TablesRef<'_, M>,
    list: &mut [u16],
) -> Result<Option<usize>, TraceRefusal>
    ensures answer { result_map_both (λ n. n) refusal_number result ≡ (trace_outcome (tables_seen M.Measure.row tables.now) node (length list.old)).answer }
    ensures list { list.new ≡ (trace_outcome (tables_seen M.Measure.row tables.now) node (length list.old)).list }
{
    list.fill(NO_ARC);
    if !tables.are_well_sized() {
        return Err(TraceRefusal::WrongLength);
    }
    let entry = entry_at(tables.nodes, node)?;
    if !entry.timed {
        return Ok(None);
    }
    trace_line(tables.lines, entry.line as usize, list)
}
