// Which numbers may be given for a node, an arc, a set and a tick count.
ghost use Rattle.std.specs.Prelude.{◌≡◌, unsigned_abs};
ghost use Rattle.graph.specs.Ranges.{is_node, is_arc, is_set, is_ticks};
ghost use Rattle.graph.specs.Refusals.{Passes};

use crate::parts::{FalseSet, Refusal};

pub(crate) fn node_of(node: i32) -> Result<u8, Refusal>
    ensures { Passes (is_node node) result (λ n. n ≡ unsigned_abs node) }
{
    u8::try_from(node).map_err(|_| Refusal::OutOfRange)
}

pub(crate) fn arc_of(arc: i32) -> Result<u16, Refusal>
    ensures { Passes (is_arc arc) result (λ n. n ≡ unsigned_abs arc) }
{
    match u16::try_from(arc) {
        Ok(number) if number < 1024 => Ok(number),
        _ => Err(Refusal::OutOfRange),
    }
}

pub(crate) fn set_of(set: i32) -> Result<FalseSet, Refusal>
    ensures { Passes (is_set set) result (λ s. s.number ≡ unsigned_abs set) }
{
    match u8::try_from(set) {
        Ok(number) if number < 16 => Ok(FalseSet { number }),
        _ => Err(Refusal::OutOfRange),
    }
}

pub(crate) fn ticks_of(ticks: i32) -> Result<i32, Refusal>
    ensures { Passes (is_ticks ticks) result (λ t. t ≡ ticks) }
{
    if !(-1_000_000..=1_000_000).contains(&ticks) {
        return Err(Refusal::OutOfRange);
    }
    Ok(ticks)
}
