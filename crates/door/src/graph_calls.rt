// The calls of a held graph.
ghost use Rattle.std.specs.Prelude.{◌≡◌, Some};
ghost use Rattle.graph.specs.Block.{blank};
ghost use Rattle.graph.specs.declared.parts.GraphFile.TheVariants.{Arcs, Bounds, FalseSets};
ghost use Rattle.ledger.specs.declared.words.Act.TheVariants.{Make, Open};
ghost use Rattle.ledger.specs.declared.words.Call.TheVariants.{AddArc, DropArc, SetStart, SetEnd, SetTrim, Pair, Clear, Load};
ghost use Rattle.ledger.specs.Ledger.{closed};
ghost use Rattle.held.specs.Held.{held_in, Serves, Ends};
ghost use Rattle.held.specs.Readings.{taken_shown, arc_shown, start_shown, end_shown};

use graph::{GraphFile, LiveArc};
use held::{Answer, HeldGraph, end_trial, make_graph, open_trial, serve};
use ledger::Call;

#[unsafe(no_mangle)]
pub extern "C" fn ripotyngue_new(held: &mut HeldGraph)
    ensures { held_in held.new ≡ Some (closed blank) }
{
    make_graph(held);
}

#[unsafe(no_mangle)]
pub extern "C" fn ripotyngue_add_arc(held: &mut HeldGraph, from: i32, to: i32) -> Answer
    ensures { Serves (held_in held.old) (Make (AddArc from to)) result (held_in held.new) }
{
    serve(held, Call::AddArc { from, to })
}

#[unsafe(no_mangle)]
pub extern "C" fn ripotyngue_drop_arc(held: &mut HeldGraph, arc: i32) -> Answer
    ensures { Serves (held_in held.old) (Make (DropArc arc)) result (held_in held.new) }
{
    serve(held, Call::DropArc { arc })
}

#[unsafe(no_mangle)]
pub extern "C" fn ripotyngue_set_start(held: &mut HeldGraph, node: i32, ticks: i32) -> Answer
    ensures { Serves (held_in held.old) (Make (SetStart node ticks)) result (held_in held.new) }
{
    serve(held, Call::SetStart { node, ticks })
}

#[unsafe(no_mangle)]
pub extern "C" fn ripotyngue_set_end(held: &mut HeldGraph, node: i32, ticks: i32) -> Answer
    ensures { Serves (held_in held.old) (Make (SetEnd node ticks)) result (held_in held.new) }
{
    serve(held, Call::SetEnd { node, ticks })
}

#[unsafe(no_mangle)]
pub extern "C" fn ripotyngue_set_trim(held: &mut HeldGraph, arc: i32, ticks: i32) -> Answer
    ensures { Serves (held_in held.old) (Make (SetTrim arc ticks)) result (held_in held.new) }
{
    serve(held, Call::SetTrim { arc, ticks })
}

#[unsafe(no_mangle)]
pub extern "C" fn ripotyngue_pair(held: &mut HeldGraph, set: i32, from: i32, to: i32) -> Answer
    ensures { Serves (held_in held.old) (Make (Pair set from to)) result (held_in held.new) }
{
    serve(held, Call::Pair { set, from, to })
}

#[unsafe(no_mangle)]
pub extern "C" fn ripotyngue_clear(held: &mut HeldGraph, set: i32) -> Answer
    ensures { Serves (held_in held.old) (Make (Clear set)) result (held_in held.new) }
{
    serve(held, Call::Clear { set })
}

#[unsafe(no_mangle)]
pub extern "C" fn ripotyngue_load_arcs(held: &mut HeldGraph, bytes: &[u8]) -> Answer
    ensures { Serves (held_in held.old) (Make (Load Arcs bytes.entry)) result (held_in held.new) }
{
    serve(
        held,
        Call::Load {
            file: GraphFile::Arcs,
            bytes,
        },
    )
}

#[unsafe(no_mangle)]
pub extern "C" fn ripotyngue_load_bounds(held: &mut HeldGraph, bytes: &[u8]) -> Answer
    ensures { Serves (held_in held.old) (Make (Load Bounds bytes.entry)) result (held_in held.new) }
{
    serve(
        held,
        Call::Load {
            file: GraphFile::Bounds,
            bytes,
        },
    )
}

#[unsafe(no_mangle)]
pub extern "C" fn ripotyngue_load_false_sets(held: &mut HeldGraph, bytes: &[u8]) -> Answer
    ensures { Serves (held_in held.old) (Make (Load FalseSets bytes.entry)) result (held_in held.new) }
{
    serve(
        held,
        Call::Load {
            file: GraphFile::FalseSets,
            bytes,
        },
    )
}

#[unsafe(no_mangle)]
pub extern "C" fn ripotyngue_open_trial(held: &mut HeldGraph, arc: i32, ticks: i32) -> Answer
    ensures { Serves (held_in held.old) (Open arc ticks) result (held_in held.new) }
{
    open_trial(held, arc, ticks)
}

#[unsafe(no_mangle)]
pub extern "C" fn ripotyngue_end_trial(held: &mut HeldGraph) -> Answer
    ensures { Ends (held_in held.old) result (held_in held.new) }
{
    end_trial(held)
}

#[unsafe(no_mangle)]
pub extern "C" fn ripotyngue_taken(held: &HeldGraph) -> Answer
    ensures { result ≡ taken_shown (held_in held.now) }
{
    held::taken(held)
}

#[unsafe(no_mangle)]
pub extern "C" fn ripotyngue_arc(held: &HeldGraph, arc: i32, found: &mut LiveArc) -> Answer
    ensures { arc_shown (held_in held.now) arc found.old ≡ (result, found.new) }
{
    held::arc(held, arc, found)
}

#[unsafe(no_mangle)]
pub extern "C" fn ripotyngue_start(held: &HeldGraph, node: i32) -> Answer
    ensures { result ≡ start_shown (held_in held.now) node }
{
    held::start(held, node)
}

#[unsafe(no_mangle)]
pub extern "C" fn ripotyngue_end(held: &HeldGraph, node: i32) -> Answer
    ensures { result ≡ end_shown (held_in held.now) node }
{
    held::end(held, node)
}
