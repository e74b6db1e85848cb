// A delay source, by what it means for each arc number.
ghost use Rattle.std.specs.Prelude.{◌≡◌, ℕ, nat_le};
ghost use Rattle.delay.specs.Entries.{Entry, Sound, is_tick_count, ranged, one_up};

use crate::fault::{Cause, Fault};

pub const LAST_ARC: u16 = 1023;

const TICK_LIMIT: i32 = 1_000_000;

pub trait Source {
    // The tick count or the fault of each arc number.
    ghost means: { Self → ℕ → Entry };

    // The level: 0 at the bottom.
    ghost depth: { Self → ℕ };

    // What each source shows of its meaning.
    ghost sound: { (s : Self) → Sound (means s) };

    // What an asking of an arc makes of the source.
    ghost asked: { Self → ℕ → Self → Type 0 };

    // What the source means for the arc. It may keep what it found, and means the same afterwards.
    fn delay(&mut self, arc: u16) -> Result<i32, Fault>
        ensures value { result ≡ means self.old arc }
        ensures same { means self.new ≡ means self.old }
        ensures level { depth self.new ≡ depth self.old }
        ensures asked { asked self.old arc self.new };

    fn level(&self) -> u8
        ensures { result ≡ depth self.now };
}

pub(crate) fn is_arc(arc: u16) -> bool
    ensures { result ≡ nat_le arc 1023 }
{
    arc <= LAST_ARC
}

pub(crate) fn is_tick_count(z: i32) -> bool
    ensures { result ≡ is_tick_count z }
{
    (-TICK_LIMIT..=TICK_LIMIT).contains(&z)
}

// `ticks` where it is a tick count, else a fault.
pub(crate) fn ranged_ticks(ticks: i64, cause: Cause, arc: u16, level: u8) -> Result<i32, Fault>
    ensures { result ≡ ranged cause arc level ticks }
{
    match i32::try_from(ticks) {
        Ok(ticks) if is_tick_count(ticks) => Ok(ticks),
        _ => Err(Fault { cause, arc, level }),
    }
}

// The level of a layer over a source of the level `below`.
pub fn level_above(below: u8) -> u8
    ensures { result ≡ one_up below }
{
    below.saturating_add(1)
}
