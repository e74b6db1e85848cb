// The false sets that hold an arc, as a number with bit s for set s.
ghost use Rattle.std.specs.Prelude.{◌≡◌, ℕ, ◌<◌, not, ◌&&◌, ◌||◌, map, ◌==◌};
ghost use Rattle.graph.specs.Slots.{slot_arc, arcs_of};
ghost use Rattle.graph.specs.Sets.{holds, with_set, without_set, cleared};
ghost use Rattle.graph.specs.Sweeps.{lies_on, marked};

use crate::parts::{ArcSlot, FalseSet, LiveArc};

fn joined(sets: u16, set: FalseSet) -> u16
    ensures value { result ≡ with_set sets set.number }
    ensures bits { (k : ℕ) → k < 16 → holds result k ≡ (k == set.number || holds sets k) }
{
    sets | 1 << set.number
}

fn parted(sets: u16, set: FalseSet) -> u16
    ensures value { result ≡ without_set sets set.number }
    ensures bits { (k : ℕ) → k < 16 → holds result k ≡ (not (k == set.number) && holds sets k) }
{
    sets & !(1 << set.number)
}

fn emptied(slot: ArcSlot, set: FalseSet) -> ArcSlot
    ensures { slot_arc result ≡ cleared set.number (slot_arc slot) }
{
    let arc = LiveArc {
        sets: parted(slot.arc.sets, set),
        ..slot.arc
    };
    ArcSlot { arc, ..slot }
}

// Takes every arc out of a set.
pub(crate) fn empty(arcs: &mut [ArcSlot], set: FalseSet)
    ensures { arcs_of arcs.new ≡ map (cleared set.number) (arcs_of arcs.old) }
{
    for slot in arcs.iter_mut() {
        *slot = emptied(*slot, set);
    }
}

// Which nodes lie ahead of one node, and which behind another.
#[derive(Clone, Copy)]
pub(crate) struct Sides {
    pub(crate) ahead: [bool; 256],
    pub(crate) behind: [bool; 256],
}

impl Sides {
    // Does the slot hold an arc from a node ahead to a node behind?
    fn hold(&self, slot: ArcSlot) -> bool
        ensures { result ≡ lies_on self.now.ahead self.now.behind (slot_arc slot) }
    {
        slot.live && self.ahead[slot.arc.from as usize] && self.behind[slot.arc.to as usize]
    }

    fn entered(&self, slot: ArcSlot, set: FalseSet) -> ArcSlot
        ensures { slot_arc result ≡ marked set.number self.now.ahead self.now.behind (slot_arc slot) }
    {
        if !self.hold(slot) {
            return slot;
        }
        let arc = LiveArc {
            sets: joined(slot.arc.sets, set),
            ..slot.arc
        };
        ArcSlot { arc, ..slot }
    }

    // Adds to a set every arc from a node ahead to a node behind.
    pub(crate) fn mark(&self, arcs: &mut [ArcSlot], set: FalseSet)
        ensures { arcs_of arcs.new ≡ map (marked set.number self.now.ahead self.now.behind) (arcs_of arcs.old) }
    {
        for slot in arcs.iter_mut() {
            *slot = self.entered(*slot, set);
        }
    }
}
