// What a timing graph is made of, in a form that C can share, and why a call is refused.
ghost use Rattle.std.specs.Prelude.{◌≡◌, ◌<◌, Some};

use std::fmt;

// A live arc: its two nodes, the ticks added to its delay, and the false sets that hold it, bit s for set s.
#[repr(C)]
#[derive(Clone, Copy, PartialEq, Eq, Debug)]
pub struct LiveArc {
    pub from: u8,
    pub to: u8,
    pub trim: i32,
    pub sets: u16,
}

impl LiveArc {
    ghost use Rattle.graph.specs.Index.{node_at};

    // The node at one of its ends.
    pub fn node_at(&self, end: ArcEnd) -> u8
        ensures { result ≡ node_at end self.now }
    {
        match end {
            ArcEnd::Tail => self.from,
            ArcEnd::Head => self.to,
        }
    }
}

// The place of an arc number. Where `live` is false, `arc` means nothing: an `Option` has no layout that C could be told.
#[repr(C)]
#[derive(Clone, Copy)]
pub struct ArcSlot {
    pub(crate) live: bool,
    pub(crate) arc: LiveArc,
}

// The place of a node's start or end. Where `set` is false, `ticks` means nothing, for the same reason.
#[repr(C)]
#[derive(Clone, Copy)]
pub struct TimeSlot {
    pub(crate) set: bool,
    pub(crate) ticks: i32,
}

// The number of a false set, 0 to 15.
#[derive(Clone, Copy)]
pub(crate) struct FalseSet {
    pub(crate) number: u8,
    ghost below: { number < 16 },
}

#[derive(Clone, Copy)]
pub enum ArcEnd {
    Tail,
    Head,
}

// The files that a graph loads.
#[derive(Clone, Copy)]
pub enum GraphFile {
    Arcs,
    Bounds,
    FalseSets,
}

#[derive(Clone, Copy, PartialEq, Eq, Debug)]
pub enum Refusal {
    OutOfRange,
    NotRising,
    Full,
    NotLive,
    InSet,
    NoPath,
}

impl Refusal {
    ghost use Rattle.graph.specs.Refusals.{refusal_number};

    pub fn number(self) -> u8
        ensures { result ≡ refusal_number self }
    {
        match self {
            Refusal::OutOfRange => 6,
            Refusal::NotRising => 7,
            Refusal::Full => 8,
            Refusal::NotLive => 9,
            Refusal::InSet => 10,
            Refusal::NoPath => 11,
        }
    }
}

impl fmt::Display for Refusal {
    ghost use Rattle.reader.specs.Words.{turned_down};
    ghost use Rattle.graph.specs.Refusals.{refusal_number};

    // The words of its number in a file's refusal.
    ghost output = { λ refusal. Some (turned_down (refusal_number refusal)) };

    fn fmt<W: fmt::Write>(&self, f: &mut fmt::Formatter<W>) -> fmt::Result {
        let words = match *self {
            Refusal::OutOfRange => "a number is out of range",
            Refusal::NotRising => "the arc's from is not below its to",
            Refusal::Full => "all 1024 arc numbers are taken",
            Refusal::NotLive => "the arc is not live",
            Refusal::InSet => "the arc is in a false set",
            Refusal::NoPath =>
                "no path of one or more live arcs leads from the first node to the second",
        };
        f.write_str(words)
    }
}
