// What the lines beyond its arcs, and its end, ask of a line.
ghost use Rattle.std.specs.Prelude.{◌≡◌, ◌-◌, ◌≤◌, ◌++◌, length, Some, None, slice_index_or, position, option_to_list};
ghost use Rattle.std.specs.List.{flat_map};
ghost use Rattle.measure.specs.Rows.{Bounded, on_some};
ghost use Rattle.graph.specs.declared.parts.LiveArc.{LiveArc};
ghost use Rattle.graph.specs.Sorting.{segment};
ghost use Rattle.paths.specs.Sheets.{ended, first_least};
ghost use Rattle.timing.specs.Measured.{measured};
ghost use Rattle.timing.specs.TimedBlock.{arcs_in, asks};
ghost use Rattle.timing.specs.Lines.{SortedByTag};
ghost use Rattle.timing.specs.Crossings.{meant};
ghost use Rattle.timing.specs.Requiring.{told, pick, marks, has_tag, asked_of, Beyond, AllBeyond, AsksBetween, AsksBeyond, AllAskBeyond};

use crate::block::TimedBlock;
use crate::crossing::Crossing;
use crate::search::{FEW, reach};
use crate::told::Told;
use measure::Measure;
use sheet::Line;

// Where the line with the tag stands among lines that are sorted by tag.
fn find(lines: &[Line], tag: u16) -> Option<usize>
    requires { SortedByTag lines.now }
    ensures { result ≡ position (has_tag tag) lines.now }
{
    if lines.len() <= FEW {
        return lines.iter().position(|line| line.tag == tag);
    }
    let p = reach(lines, tag);
    if p < lines.len() && lines[p].tag == tag {
        Some(p)
    } else {
        None
    }
}

// The earlier of two, of equals the first.
pub(crate) fn earlier<M: Measure>(a: Option<Told<M>>, c: Option<Told<M>>) -> Option<Told<M>>
    ensures { told M.Measure.row result ≡ pick (measured M.Measure) (told M.Measure.row a) (told M.Measure.row c) }
{
    match (a, c) {
        (Some(x), Some(y)) => Some(if x.row.not_after(y.row) { x } else { y }),
        _ => a.or(c),
    }
}

// What a node's end asks of its lines.
pub(crate) fn ask_end<M: Measure>(end: Option<M>) -> Option<Told<M>>
    ensures { option_to_list (told M.Measure.row result) ≡ ended (on_some M.Measure.row end) }
{
    end.map(|row| Told {
        row,
        arc: 1024,
        line: 4096,
    })
}

// Lines with their required times, of which each node's begin where `firsts` says.
#[derive(Drop)]
pub(crate) struct AskedLines<'a, M> {
    pub firsts: &'a [u16; 257],
    pub lines: &'a [Line],
    pub required: &'a [M],
    ghost few: { length lines.now ≤ 4096 },
    ghost all_asked: { length required.now ≡ length lines.now },
}

impl<M: Measure> AskedLines<'_, M> {
    // What is asked over an arc by the line with the tag, among the lines from `first` up to `last`.
    fn ask_line(
        &self,
        crossing: Crossing<M>,
        tag: u16,
        first: usize,
        last: usize,
    ) -> Option<Told<M>>
        requires first_le_last { first ≤ last }
        requires last_in_bounds { last ≤ length self.now.lines.now }
        requires sorted { SortedByTag (segment first (last - first) self.now.lines.now) }
        requires asks_between { AsksBetween M.width M.Measure.row first last self.now.lines.now self.now.required.now }
        requires bounded { Bounded M.width 1000000 (M.Measure.row crossing.row) }
        ensures { told M.Measure.row result ≡ asked_of (measured M.Measure) (meant M.Measure.row crossing) tag first (segment first (last - first) (marks M.Measure.row self.now.lines.now self.now.required.now)) }
    {
        let lines = self.lines;
        let required = self.required;
        let j = first + find(&lines[first..last], tag)?;
        if !lines[j].required {
            return None;
        }
        let row = required[j].sum(crossing.row.opposite()).unwrap();
        Some(Told {
            row,
            arc: crossing.arc,
            line: j as u16,
        })
    }

    // What is asked over an arc of a line with the tag.
    fn ask_over(&self, number: u16, tag: u16, block: &TimedBlock) -> Option<Told<M>>
        requires beyond { (e : LiveArc) → slice_index_or (arcs_in block.now) number None ≡ Some e → Beyond self.now.firsts.now self.now.lines.now e }
        requires within { (e : LiveArc) → slice_index_or (arcs_in block.now) number None ≡ Some e → AsksBeyond M.width M.Measure.row self.now.firsts.now self.now.lines.now self.now.required.now e }
        ensures { told M.Measure.row result ≡ asks M.Measure block.now self.now.firsts.now (marks M.Measure.row self.now.lines.now self.now.required.now) tag number }
    {
        let arc = block.graph.arc(number)?;
        let crossing = block.crossing(number, arc);
        let passed = crossing.pass(tag)?;
        let first = self.firsts[arc.to as usize] as usize;
        let last = self.firsts[arc.to as usize + 1] as usize;
        self.ask_line(crossing, passed, first, last)
    }

    // The required time of a line with the tag: the earliest of its node's end and of what is asked over the arcs.
    pub(crate) fn require(
        &self,
        end: Option<Told<M>>,
        numbers: &[u16],
        tag: u16,
        block: &TimedBlock,
    ) -> Option<Told<M>>
        requires beyond { AllBeyond (arcs_in block.now) self.now.firsts.now self.now.lines.now numbers.now }
        requires within { AllAskBeyond M.width M.Measure.row (arcs_in block.now) self.now.firsts.now self.now.lines.now self.now.required.now numbers.now }
        ensures { told M.Measure.row result ≡ first_least (measured M.Measure) (option_to_list (told M.Measure.row end) ++ flat_map (λ k. option_to_list (asks M.Measure block.now self.now.firsts.now (marks M.Measure.row self.now.lines.now self.now.required.now) tag k)) numbers.now) }
    {
        let mut best = end;
        for number in numbers {
            best = earlier(best, self.ask_over(*number, tag, block));
        }
        best
    }
}
