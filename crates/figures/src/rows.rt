// The rows of the measures. A row of fewer than three places shows none at the others, and no value shows none at all.
use measure::{Early, Measure, StagedTicks, Ticks, is_tick_count};
use std::test::Fail;

type Shown = (Option<i32>, Option<i32>, Option<i32>);

const NOTHING: Shown = (None, None, None);

fn shown<M: Measure>(value: Option<M>) -> Shown {
    match value {
        Some(x) => (x.place(0), x.place(1), x.place(2)),
        None => NOTHING,
    }
}

fn one(ticks: i32) -> Shown {
    (Some(ticks), None, None)
}

fn two(ticks: i32, stages: i32) -> Shown {
    (Some(ticks), Some(stages), None)
}

fn present<M: Measure>(value: Option<M>) -> Result<M, Fail> {
    Ok(value.ok_or("in range")?)
}

// The limits are part of the range.
#[test]
fn tick_counts(rt: HostRuntime) {
    for (count, inside) in [
        (i32::MIN, false),
        (-1_000_001, false),
        (-1_000_000, true),
        (0, true),
        (1_000_000, true),
        (1_000_001, false),
        (i32::MAX, false),
    ] {
        assert_eq!(rt; is_tick_count(count), inside);
        assert_eq!(rt; Ticks::time(count).is_some(), inside);
        assert_eq!(rt; StagedTicks::arc(count).is_some(), inside);
        assert_eq!(rt; Early::<StagedTicks>::time(count).is_some(), inside);
    }
}

// A time of t is (t), a delay of d is (d).
#[test]
fn rows_of_ticks(rt: HostRuntime) {
    for (count, row) in [
        (-1_000_001, NOTHING),
        (-1_000_000, one(-1_000_000)),
        (0, one(0)),
        (7, one(7)),
        (1_000_000, one(1_000_000)),
    ] {
        assert_eq!(rt; shown(Ticks::time(count)), row);
        assert_eq!(rt; shown(Ticks::arc(count)), row);
    }
    assert_eq!(rt; Ticks::WIDTH, 1);
    assert_eq!(rt; Ticks::places(), 1);
}

// A time of t is (t, 0), a delay of d is (d, 1).
#[test]
fn rows_of_staged_ticks(rt: HostRuntime) {
    for (count, time, arc) in [
        (-1_000_001, NOTHING, NOTHING),
        (-1_000_000, two(-1_000_000, 0), two(-1_000_000, 1)),
        (0, two(0, 0), two(0, 1)),
        (7, two(7, 0), two(7, 1)),
    ] {
        assert_eq!(rt; shown(StagedTicks::time(count)), time);
        assert_eq!(rt; shown(StagedTicks::arc(count)), arc);
    }
    assert_eq!(rt; StagedTicks::WIDTH, 2);
    assert_eq!(rt; StagedTicks::places(), 2);
}

// Each sign is changed; over early once more, it is as it was.
#[test]
fn rows_of_early(rt: HostRuntime) {
    assert_eq!(rt; shown(Early::<Ticks>::time(7)), one(-7));
    assert_eq!(rt; shown(Early::<Ticks>::arc(-5)), one(5));
    assert_eq!(rt; shown(Early::<Ticks>::arc(1_000_001)), NOTHING);
    assert_eq!(rt; shown(Early::<StagedTicks>::time(7)), two(-7, 0));
    assert_eq!(rt; shown(Early::<StagedTicks>::arc(7)), two(-7, -1));
    assert_eq!(rt; shown(Early::<Early<StagedTicks>>::arc(7)), two(7, 1));
    assert_eq!(rt; shown(Some(Early::<StagedTicks>::zero())), two(0, 0));
    assert_eq!(rt; Early::<StagedTicks>::WIDTH, 2);
    assert_eq!(rt; Early::<Ticks>::places(), 1);
}

// A thousand times a million is the limit itself, and one more passes it on either side.
#[test]
fn sums_to_the_limit(rt: HostRuntime) -> Result<(), Fail> {
    let million = present(Ticks::time(1_000_000))?;
    let tick = present(Ticks::time(1))?;
    let mut top = Ticks::zero();
    for _ in 0..1000 {
        top = present(top.sum(million))?;
    }
    let bottom = top.opposite();
    assert_eq!(rt; shown(Some(top)), one(1_000_000_000));
    assert_eq!(rt; shown(top.sum(Ticks::zero())), one(1_000_000_000));
    assert_eq!(rt; shown(top.sum(tick)), NOTHING);
    assert_eq!(rt; shown(Some(bottom)), one(-1_000_000_000));
    assert_eq!(rt; shown(bottom.sum(tick)), one(-999_999_999));
    assert_eq!(rt; shown(bottom.sum(tick.opposite())), NOTHING);
    assert_eq!(rt; shown(top.sum(bottom)), one(0));
    Ok(())
}

// Each place has the limit: 2^29 stages are 536,870,912, and twice as many are 1,073,741,824.
#[test]
fn sums_of_stages(rt: HostRuntime) -> Result<(), Fail> {
    let mut stages = present(StagedTicks::arc(0))?;
    for _ in 0..29 {
        stages = present(stages.sum(stages))?;
    }
    assert_eq!(rt; shown(Some(stages)), two(0, 536_870_912));
    assert_eq!(rt; shown(stages.sum(stages)), NOTHING);
    assert_eq!(rt; shown(Some(stages.opposite())), two(0, -536_870_912));
    Ok(())
}

// The first place counts before the second.
#[test]
fn order_of_staged_ticks(rt: HostRuntime) -> Result<(), Fail> {
    let short = present(StagedTicks::arc(4))?;
    let plain = present(StagedTicks::time(5))?;
    let staged = present(StagedTicks::arc(5))?;
    assert!(rt; short.not_after(plain));
    assert!(rt; !plain.not_after(short));
    assert!(rt; plain.not_after(staged));
    assert!(rt; !staged.not_after(plain));
    assert!(rt; plain.not_after(plain));
    Ok(())
}

// An early time of 5 is (-5), which precedes (-3).
#[test]
fn order_of_early(rt: HostRuntime) -> Result<(), Fail> {
    let five = present(Early::<Ticks>::time(5))?;
    let three = present(Early::<Ticks>::time(3))?;
    assert!(rt; five.not_after(three));
    assert!(rt; !three.not_after(five));
    assert_eq!(rt; shown(five.sum(three)), one(-8));
    assert_eq!(rt; shown(Some(five.opposite())), one(5));
    Ok(())
}
