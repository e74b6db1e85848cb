// A layer that keeps the first tick count asked at each of 32 places.
ghost use Rattle.std.specs.Prelude.{◌≡◌, ℕ, true, None, MatchBool, slice_index_or};
ghost use Rattle.delay.specs.Memo.{memo_means, kept_after, keepable, keeps, no_counts, with_count};
ghost use Rattle.delay.specs.Sounds.{memo_sound};

use crate::fault::Fault;
use crate::kept::Kept;
use crate::source::Source;

const PLACES: usize = 32;

#[derive(Drop)]
pub struct Memo<S> {
    source: S,
    kept: [Option<Kept>; 32],
    ghost ok: { (k : ℕ) → keepable (slice_index_or kept k None) ≡ true },
}

fn empty_places() -> [Option<Kept>; 32]
    ensures { result ≡ no_counts }
{
    [None; PLACES]
}

fn keep(kept: &mut [Option<Kept>; 32], arc: u16, ticks: i32)
    ensures { kept.new ≡ with_count kept.old arc ticks }
{
    kept[arc as usize % PLACES] = Some(Kept { arc, ticks });
}

impl<S: Source> Memo<S> {
    pub fn new(source: S) -> Memo<S>
        ensures source { result.source ≡ source }
        ensures kept { result.kept ≡ no_counts }
        ensures means { memo_means result.kept (S.Source.means result.source) ≡ S.Source.means source }
    {
        Memo {
            source,
            kept: empty_places(),
        }
    }
}

impl<S: Source> Source for Memo<S> {
    ghost means = { λ s. memo_means s.kept (S.Source.means s.source) };

    ghost depth = { λ s. S.Source.depth s.source };

    ghost sound = { λ s. memo_sound s.kept (S.Source.means s.source) s.ok (S.Source.sound s.source) };

    // The source below is left alone where the arc's count is kept, and is asked for the same arc where it is not.
    ghost asked = { λ s arc t. (t.kept ≡ kept_after s.kept arc (memo_means s.kept (S.Source.means s.source) arc)) × MatchBool (keeps s.kept arc) (t.source ≡ s.source) (S.Source.asked s.source arc t.source) };

    fn delay(&mut self, arc: u16) -> Result<i32, Fault> {
        let kept = self.kept[arc as usize % PLACES];
        match kept {
            Some(first) if first.arc == arc => Ok(first.ticks),
            Some(_) => self.source.delay(arc),
            None => {
                let ticks = self.source.delay(arc)?;
                keep(&mut self.kept, arc, ticks);
                Ok(ticks)
            }
        }
    }

    fn level(&self) -> u8 {
        self.source.level()
    }
}
