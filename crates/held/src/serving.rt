// The calls that change a held graph.
ghost use Rattle.std.specs.Prelude.{◌≡◌, Some};
ghost use Rattle.std.specs.Option.{ForSome};
ghost use Rattle.graph.specs.Block.{block_of, blank};
ghost use Rattle.graph.specs.Trials.{earlier_of};
ghost use Rattle.ledger.specs.Ledger.{closed};
ghost use Rattle.ledger.specs.declared.words.Act.TheVariants.{Make, Open};
ghost use Rattle.held.specs.Held.{held_in, Serves, Ends};

use crate::answer::Answer;
use crate::memory::{HeldGraph, SEAL};
use graph::TimingGraph;
use ledger::{Call, make};

// The numbers of the refusals that a held graph has beside those of the graph itself.
pub(crate) const NOT_MADE: u8 = 30;

const TRIAL_OPEN: u8 = 31;

const NO_TRIAL: u8 = 32;

// Makes a new graph, whatever was there before.
pub fn make_graph(held: &mut HeldGraph)
    ensures { held_in held.new ≡ Some (closed blank) }
{
    *held = HeldGraph {
        seal: SEAL,
        on_trial: false,
        arc: 0,
        earlier: 0,
        graph: TimingGraph::new(),
    };
}

// Makes a call on the graph, unless none was made or a trial is open.
pub fn serve(held: &mut HeldGraph, call: Call<'_>) -> Answer
    ensures { Serves (held_in held.old) (Make call.entry) result (held_in held.new) }
{
    if !held.is_made() {
        return Answer::refused(NOT_MADE);
    }
    if held.on_trial {
        return Answer::refused(TRIAL_OPEN);
    }
    make(&mut held.graph, call).into()
}

// The trim of an arc, or 0 where it is not live.
fn trim_of(graph: &TimingGraph, arc: i32) -> i32
    ensures { result ≡ earlier_of (block_of graph.now) arc }
{
    match u16::try_from(arc) {
        Ok(number) if number < 1024 => graph.arc(number).map_or(0, |live| live.trim),
        _ => 0,
    }
}

// Sets an arc's trim until the trial ends. A refused opening opens no trial.
pub fn open_trial(held: &mut HeldGraph, arc: i32, ticks: i32) -> Answer
    ensures { Serves (held_in held.old) (Open arc ticks) result (held_in held.new) }
{
    if !held.is_made() {
        return Answer::refused(NOT_MADE);
    }
    if held.on_trial {
        return Answer::refused(TRIAL_OPEN);
    }
    let earlier = trim_of(&held.graph, arc);
    if let Err(refusal) = held.graph.set_trim(arc, ticks) {
        return Answer::refused(refusal.number());
    }
    held.on_trial = true;
    held.arc = arc;
    held.earlier = earlier;
    Answer::ACCEPTED
}

// Ends the trial, and puts the arc's earlier trim back.
pub fn end_trial(held: &mut HeldGraph) -> Answer
    ensures { Ends (held_in held.old) result (held_in held.new) }
{
    if !held.is_made() {
        return Answer::refused(NOT_MADE);
    }
    if !held.on_trial {
        return Answer::refused(NO_TRIAL);
    }
    // the trim was there before, so that it is accepted now
    let _ = held.graph.set_trim(held.arc, held.earlier);
    held.on_trial = false;
    Answer::ACCEPTED
}
