// Timing and tracing in early ticks and stages.
ghost use Rattle.sheet.specs.Tables.{tables_of};
ghost use Rattle.held.specs.Held.{held_in};
ghost use Rattle.held.specs.Measures.{early_staged_ticks, early_staged_row};
ghost use Rattle.held.specs.Timings.{delays_of, delays_with_margin, Times, Traces};

use delay::AnnotatedRow;
use held::{Answer, EarlyStagedTicks, HeldGraph, time, time_with_margin, trace};
use sheet::{Line, NodeEntry};

#[unsafe(no_mangle)]
pub extern "C" fn ripotyngue_time_early_staged_ticks(
    held: &HeldGraph,
    rows: &[AnnotatedRow],
    lines: &mut [Line],
    arrivals: &mut [EarlyStagedTicks],
    required: &mut [EarlyStagedTicks],
    nodes: &mut [NodeEntry],
    slacks: &mut [EarlyStagedTicks],
) -> Answer
    ensures { Times early_staged_ticks (held_in held.now) (delays_of rows.entry.now) (tables_of early_staged_row lines.old arrivals.old required.old nodes.old slacks.old) result (tables_of early_staged_row lines.new arrivals.new required.new nodes.new slacks.new) }
{
    time(held, rows, lines, arrivals, required, nodes, slacks)
}

#[unsafe(no_mangle)]
pub extern "C" fn ripotyngue_time_margin_early_staged_ticks(
    held: &HeldGraph,
    rows: &[AnnotatedRow],
    permille: u32,
    lines: &mut [Line],
    arrivals: &mut [EarlyStagedTicks],
    required: &mut [EarlyStagedTicks],
    nodes: &mut [NodeEntry],
    slacks: &mut [EarlyStagedTicks],
) -> Answer
    ensures { Times early_staged_ticks (held_in held.now) (delays_with_margin permille rows.entry.now) (tables_of early_staged_row lines.old arrivals.old required.old nodes.old slacks.old) result (tables_of early_staged_row lines.new arrivals.new required.new nodes.new slacks.new) }
{
    time_with_margin(
        held, rows, permille, lines, arrivals, required, nodes, slacks,
    )
}

#[unsafe(no_mangle)]
pub extern "C" fn ripotyngue_trace_early_staged_ticks(
    node: i32,
    lines: &[Line],
    arrivals: &[EarlyStagedTicks],
    required: &[EarlyStagedTicks],
    nodes: &[NodeEntry],
    slacks: &[EarlyStagedTicks],
    list: &mut [u16],
) -> Answer
    ensures { Traces (tables_of early_staged_row lines.entry.now arrivals.entry.now required.entry.now nodes.entry.now slacks.entry.now) node list.old result list.new }
{
    trace(node, lines, arrivals, required, nodes, slacks, list)
}
