// The order of the nodes: the lower first.
ghost use Rattle.std.specs.Prelude.{◌≡◌, ◌<◌};
ghost use Rattle.graph.specs.Order.{precedes};
ghost use Rattle.graph.specs.Sweeps.{nth_from};

use crate::parts::ArcEnd;

pub(crate) fn precedes(from: u8, to: u8) -> bool
    ensures { result ≡ precedes from to }
{
    from < to
}

// The node at a place of the order, counted from the first node for tails, from the last for heads.
pub(crate) fn nth_from(end: ArcEnd, place: u8) -> u8
    ensures { result ≡ nth_from end place }
{
    match end {
        ArcEnd::Tail => place,
        ArcEnd::Head => 255 - place,
    }
}
