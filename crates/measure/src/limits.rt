// How far from zero a tick count and a place of a row may lie.
ghost use Rattle.std.specs.Prelude.{◌≡◌, ◌+ℤ◌, MatchBool, MatchOption};
ghost use Rattle.measure.specs.Rows.{Within};

pub const TICK_LIMIT: i32 = 1_000_000;

pub const PLACE_LIMIT: i32 = 1_000_000_000;

// Whether `t` is a tick count.
pub fn is_tick_count(t: i32) -> bool
    ensures { MatchBool result (Within 1000000 t) (Within 1000000 t → ⊥) }
{
    (-TICK_LIMIT..=TICK_LIMIT).contains(&t)
}

// `t` itself, if it is a tick count.
pub(crate) fn tick_count(t: i32) -> Option<i32>
    ensures { MatchOption result (Within 1000000 t → ⊥) (λ n. Within 1000000 n × (n ≡ t)) }
{
    is_tick_count(t).then_some(t)
}

// One place of a sum, or nothing where it leaves the range of a place.
pub(crate) fn add_places(a: i32, b: i32) -> Option<i32>
    requires { (Within 1000000000 a) × (Within 1000000000 b) }
    ensures { MatchOption result (Within 1000000000 (a +ℤ b) → ⊥) (λ s. Within 1000000000 s × (s ≡ a +ℤ b)) }
{
    let sum = a + b;
    (-PLACE_LIMIT..=PLACE_LIMIT).contains(&sum).then_some(sum)
}
