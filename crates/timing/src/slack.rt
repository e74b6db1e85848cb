// The slack of a node: the least of its lines.
ghost use Rattle.std.specs.Prelude.{◌≡◌, ◌-◌, ◌<◌, ◌≤◌, length, option_to_list};
ghost use Rattle.paths.specs.Sheets.{first_least};
ghost use Rattle.graph.specs.Sorting.{segment};
ghost use Rattle.timing.specs.Measured.{measured};
ghost use Rattle.timing.specs.Requiring.{told, AsksWithin};
ghost use Rattle.timing.specs.Slacks.{timeds, slacks_of, TimesWithin};

use crate::require::earlier;
use crate::told::Told;
use measure::Measure;
use sheet::Line;

// Lines with their arrivals and their required times.
#[derive(Drop)]
pub(crate) struct TimedLines<'a, M: Measure> {
    pub lines: &'a [Line],
    pub times: &'a [M],
    pub required: &'a [M],
    ghost few: { length lines.now ≤ 4096 },
    ghost all_arrive: { length times.now ≡ length lines.now },
    ghost all_asked: { length required.now ≡ length lines.now },
    ghost asks_within: { AsksWithin M.width M.Measure.row lines.now required.now },
    ghost times_within: { TimesWithin M.width M.Measure.row times.now },
}

impl<M: Measure> TimedLines<'_, M> {
    // The slack of line i, if it has a required time.
    fn line_slack(&self, i: usize) -> Option<Told<M>>
        requires { i < length self.now.lines.now }
        ensures { option_to_list (told M.Measure.row result) ≡ slacks_of (measured M.Measure) i (segment i 1 (timeds M.Measure.row self.now.lines.now self.now.times.now self.now.required.now)) }
    {
        if !self.lines[i].required {
            return None;
        }
        let row = self.required[i].sum(self.times[i].opposite()).unwrap();
        Some(Told {
            row,
            arc: 1024,
            line: i as u16,
        })
    }

    // The least slack of the lines from `first` up to `last`, of equals the lowest line.
    pub(crate) fn least_slack(&self, first: usize, last: usize) -> Option<Told<M>>
        requires first_le_last { first ≤ last }
        requires last_in_bounds { last ≤ length self.now.lines.now }
        ensures { told M.Measure.row result ≡ first_least (measured M.Measure) (slacks_of (measured M.Measure) first (segment first (last - first) (timeds M.Measure.row self.now.lines.now self.now.times.now self.now.required.now))) }
    {
        let mut least = None;
        for i in first..last {
            least = earlier(least, self.line_slack(i));
        }
        least
    }
}
