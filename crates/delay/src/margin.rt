// A layer that makes each tick count later by a factor.
ghost use Rattle.std.specs.Prelude.{◌≡◌, ◌≤◌};
ghost use Rattle.delay.specs.Entries.{one_up};
ghost use Rattle.delay.specs.Margin.{IsCeiling, ceiling, raised, clamped, margin_means};
ghost use Rattle.delay.specs.Sounds.{margin_sound};

use crate::fault::{Cause, Fault};
use crate::product::product;
use crate::source::{Source, level_above, ranged_ticks};

const LEAST_PERMILLE: u16 = 1000;

const MOST_PERMILLE: u16 = 2000;

// `z` ÷ 1,000, rounded up. Division goes toward zero, which is up already where `z` is below zero.
pub fn ceil_thousandths(z: i64) -> i64
    ensures least { IsCeiling z 1000 result }
    ensures value { result ≡ ceiling z 1000 }
{
    let toward_zero = z / 1000;
    if z % 1000 > 0 {
        toward_zero + 1
    } else {
        toward_zero
    }
}

// `ticks` times a factor in thousandths, rounded up.
pub fn raise(ticks: i32, permille: u16) -> i64
    ensures { result ≡ raised permille ticks }
{
    ceil_thousandths(product(ticks, permille))
}

#[derive(Drop)]
pub struct Margin<S> {
    source: S,
    permille: u16,
    ghost low: { 1000 ≤ permille },
    ghost high: { permille ≤ 2000 },
}

impl<S> Margin<S> {
    pub fn new(source: S, permille: u16) -> Margin<S>
        ensures source { result.source ≡ source }
        ensures permille { result.permille ≡ clamped permille }
    {
        let permille = permille.clamp(LEAST_PERMILLE, MOST_PERMILLE);
        Margin { source, permille }
    }
}

impl<S: Source> Source for Margin<S> {
    ghost means = { λ s. margin_means s.permille (S.Source.depth s.source) (S.Source.means s.source) };

    ghost depth = { λ s. one_up (S.Source.depth s.source) };

    ghost sound = { λ s. margin_sound s.permille (S.Source.depth s.source) (S.Source.means s.source) (S.Source.sound s.source) };

    // The source below is asked for the same arc.
    ghost asked = { λ s arc t. (t.permille ≡ s.permille) × S.Source.asked s.source arc t.source };

    fn delay(&mut self, arc: u16) -> Result<i32, Fault> {
        let ticks = self.source.delay(arc)?;
        ranged_ticks(
            raise(ticks, self.permille),
            Cause::MarginOutOfRange,
            arc,
            self.level(),
        )
    }

    fn level(&self) -> u8 {
        level_above(self.source.level())
    }
}
