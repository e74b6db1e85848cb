// The links of a table's lines, followed on any content.
ghost use Rattle.std.specs.Prelude.{◌≡◌, length, Some};
ghost use Rattle.std.specs.Option.{ok_or};
ghost use Rattle.measure.specs.Rows.{on_some};
ghost use Rattle.sheet.specs.declared.refusals.TraceRefusal.TheVariants.{BrokenLink};
ghost use Rattle.sheet.specs.Trails.{link_of, link_at, walked};

use crate::line::Line;
use crate::link::{Link, Way};
use crate::refusals::TraceRefusal;

// The link over an arc to a line, if there is one, where `onward` says whether that is on the right side.
fn link_to(arc: u16, line: u16, onward: bool) -> Result<Option<Link>, TraceRefusal>
    ensures { result ≡ link_of arc line onward }
{
    if arc == 1024 && line == 4096 {
        return Ok(None);
    }
    if arc < 1024 && onward {
        return Ok(Some(Link { arc, line }));
    }
    Err(TraceRefusal::BrokenLink)
}

// The link of line i, if it has one. A back link leads to a lower line, a fore link to a higher one.
fn follow(lines: &[Line], way: Way, i: usize) -> Result<Option<Link>, TraceRefusal>
    ensures { result ≡ link_at way lines.now i }
{
    let line = lines.get(i).ok_or(TraceRefusal::BrokenLink)?;
    match way {
        Way::Back => link_to(line.back_arc, line.back_line, (line.back_line as usize) < i),
        Way::Fore => link_to(line.fore_arc, line.fore_line, i < line.fore_line as usize),
    }
}

// How many arcs the links from line i lead over.
pub(crate) fn count(lines: &[Line], way: Way, mut i: usize) -> Result<usize, TraceRefusal>
    ensures { result ≡ ok_or (on_some length (walked way lines.now i)) BrokenLink }
{
    let mut n = 0;
    // a link may be refused, so that the arcs are no iterator whose items could be counted
    while let Some(link) = follow(lines, way, i)? {
        n += 1;
        i = link.line as usize;
    }
    Ok(n)
}

// Writes the arcs that the links from line i lead over, as they come. The list has just as many places.
pub(crate) fn write(lines: &[Line], way: Way, mut i: usize, list: &mut [u16])
    requires { on_some length (walked way lines.now i) ≡ Some (length list.old) }
    ensures { walked way lines.now i ≡ Some list.new }
{
    for place in list.iter_mut() {
        let Ok(Some(link)) = follow(lines, way, i) else {
            unreachable()
        };
        *place = link.arc;
        i = link.line as usize;
    }
}
