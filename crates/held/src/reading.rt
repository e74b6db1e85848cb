// What can be asked of a held graph, under a trial too.
ghost use Rattle.std.specs.Prelude.{◌≡◌};
ghost use Rattle.held.specs.Held.{held_in};
ghost use Rattle.held.specs.Answers.{optional};
ghost use Rattle.held.specs.Readings.{taken_shown, arc_shown, start_shown, end_shown};

use crate::answer::Answer;
use crate::memory::HeldGraph;
use crate::serving::NOT_MADE;
use graph::{LiveArc, Refusal};

// Ticks, if there are any.
fn optional(ticks: Option<i32>) -> Answer
    ensures { result ≡ optional ticks }
{
    ticks.map_or(Answer::ACCEPTED, Answer::with_ticks)
}

// How many arc numbers are used up.
pub fn taken(held: &HeldGraph) -> Answer
    ensures { result ≡ taken_shown (held_in held.now) }
{
    if !held.is_made() {
        return Answer::refused(NOT_MADE);
    }
    Answer::with_value(u64::from(held.graph.taken()))
}

// Writes the arc of a number, if it is live.
pub fn arc(held: &HeldGraph, number: i32, found: &mut LiveArc) -> Answer
    ensures { arc_shown (held_in held.now) number found.old ≡ (result, found.new) }
{
    if !held.is_made() {
        return Answer::refused(NOT_MADE);
    }
    match u16::try_from(number) {
        Ok(number) if number < 1024 => {
            let Some(live) = held.graph.arc(number) else {
                return Answer::refused(Refusal::NotLive.number());
            };
            *found = live;
            Answer::ACCEPTED
        }
        _ => Answer::refused(Refusal::OutOfRange.number()),
    }
}

// The ticks of a node's start, if it has one.
pub fn start(held: &HeldGraph, node: i32) -> Answer
    ensures { result ≡ start_shown (held_in held.now) node }
{
    if !held.is_made() {
        return Answer::refused(NOT_MADE);
    }
    match u8::try_from(node) {
        Ok(node) => optional(held.graph.start(node)),
        Err(_) => Answer::refused(Refusal::OutOfRange.number()),
    }
}

// The ticks of a node's end, if it has one.
pub fn end(held: &HeldGraph, node: i32) -> Answer
    ensures { result ≡ end_shown (held_in held.now) node }
{
    if !held.is_made() {
        return Answer::refused(NOT_MADE);
    }
    match u8::try_from(node) {
        Ok(node) => optional(held.graph.end(node)),
        Err(_) => Answer::refused(Refusal::OutOfRange.number()),
    }
}
