// Products that 64 bits always hold.
ghost use Rattle.std.specs.Prelude.{◌≡◌, ◌^◌, pos, ◌*ℤ◌};
ghost use Rattle.delay.specs.Entries.{Within};

pub(crate) fn product(a: i32, b: u16) -> i64
    ensures value { result ≡ a *ℤ pos b }
    ensures bound { Within (2 ^ 47) result }
{
    i64::from(a) * i64::from(b)
}
