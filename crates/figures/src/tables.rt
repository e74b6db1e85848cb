// What tables answer, and the arithmetic below the layers.
use delay::{
    AnnotatedRow, Cause, Fault, LoadRow, Source, Table, ceil_thousandths, level_above, raise,
    under_load,
};

pub fn fault(cause: Cause, arc: u16, level: u8) -> Result<i32, Fault> {
    Err(Fault { cause, arc, level })
}

pub fn marked(ticks: i32) -> AnnotatedRow {
    AnnotatedRow {
        marked: true,
        ticks,
    }
}

pub fn unmarked(ticks: i32) -> AnnotatedRow {
    AnnotatedRow {
        marked: false,
        ticks,
    }
}

#[test]
fn causes(rt: HostRuntime) {
    assert_eq!(rt; Cause::Missing.number(), 1);
    assert_eq!(rt; Cause::OutOfRange.number(), 2);
    assert_eq!(rt; Cause::MarginOutOfRange.number(), 3);
}

#[test]
fn annotated(rt: HostRuntime) {
    let rows = [
        marked(250),
        unmarked(7),
        marked(1_000_000),
        marked(1_000_001),
        marked(-1_000_000),
        marked(-1_000_001),
        marked(i32::MIN),
    ];
    let mut source = Table { rows: &rows };
    for (arc, entry) in [
        (0, Ok(250)),
        (1, fault(Cause::Missing, 1, 0)),
        (2, Ok(1_000_000)),
        (3, fault(Cause::OutOfRange, 3, 0)),
        (4, Ok(-1_000_000)),
        (5, fault(Cause::OutOfRange, 5, 0)),
        (6, fault(Cause::OutOfRange, 6, 0)),
        (7, fault(Cause::Missing, 7, 0)),
        (1023, fault(Cause::Missing, 1023, 0)),
        (1024, fault(Cause::Missing, 1024, 0)),
        (65535, fault(Cause::Missing, 65535, 0)),
    ] {
        assert_eq!(rt; source.delay(arc), entry);
    }
    assert_eq!(rt; source.level(), 0);
}

// Arc 1,024 has none, though the table has a row there.
#[test]
fn rows_from_1024_on_are_not_read(rt: HostRuntime) {
    let rows = [marked(9); 1025];
    let mut source = Table { rows: &rows };
    assert_eq!(rt; source.delay(1023), Ok(9));
    assert_eq!(rt; source.delay(1024), fault(Cause::Missing, 1024, 0));
}

// -2^31 - 2^31 × 65,535 is -2^47, and at the other end it is 65,536 less than 2^47.
#[test]
fn loads(rt: HostRuntime) {
    for (intrinsic, slope, load, ticks) in [
        (10, 3, 5, 25),
        (-10, -3, 5, -25),
        (10, -3, 5, -5),
        (7, i32::MAX, 0, 7),
        (0, 15, 65535, 983_025),
        (i32::MIN, i32::MIN, 65535, -140_737_488_355_328),
        (i32::MAX, i32::MAX, 65535, 140_737_488_289_792),
    ] {
        assert_eq!(rt; under_load(intrinsic, slope, load), ticks);
    }
}

fn load_row(intrinsic: i32, slope: i32, load: u16) -> LoadRow {
    LoadRow {
        marked: true,
        intrinsic,
        slope,
        load,
    }
}

// 16 × 65,535 is 1,048,560; 1,000,000 is in range, one more is not.
#[test]
fn load_formula(rt: HostRuntime) {
    let bare = LoadRow {
        marked: false,
        intrinsic: 1,
        slope: 1,
        load: 1,
    };
    let rows = [
        load_row(10, 3, 5),
        bare,
        load_row(0, 16, 65535),
        load_row(999_999, 1, 1),
        load_row(1_000_000, 1, 1),
        load_row(i32::MIN, i32::MIN, 65535),
        load_row(-1_000_000, i32::MIN, 0),
    ];
    let mut source = Table { rows: &rows };
    for (arc, entry) in [
        (0, Ok(25)),
        (1, fault(Cause::Missing, 1, 0)),
        (2, fault(Cause::OutOfRange, 2, 0)),
        (3, Ok(1_000_000)),
        (4, fault(Cause::OutOfRange, 4, 0)),
        (5, fault(Cause::OutOfRange, 5, 0)),
        (6, Ok(-1_000_000)),
        (7, fault(Cause::Missing, 7, 0)),
    ] {
        assert_eq!(rt; source.delay(arc), entry);
    }
    assert_eq!(rt; source.level(), 0);
}

// The least whole number not below a thousandth of each.
#[test]
fn ceilings(rt: HostRuntime) {
    for (z, up) in [
        (0, 0),
        (1, 1),
        (999, 1),
        (1000, 1),
        (1001, 2),
        (-1, 0),
        (-999, 0),
        (-1000, -1),
        (-1001, -1),
        (-1999, -1),
        (-2000, -2),
        (i64::MAX, 9_223_372_036_854_776),
        (i64::MIN, -9_223_372_036_854_775),
    ] {
        assert_eq!(rt; ceil_thousandths(z), up);
    }
}

// 1.5 × 3 is 4.5, up to 5; 1.999 × -3 is -5.997, up to -5; 65.535 × -2^31 is -140,735,340,871.68.
#[test]
fn raised(rt: HostRuntime) {
    for (permille, ticks, up) in [
        (1500, -1, -1),
        (1500, 1, 2),
        (1500, 3, 5),
        (1500, -3, -4),
        (1000, 12345, 12345),
        (1001, 1, 2),
        (1001, -1, -1),
        (1999, -3, -5),
        (2000, 1_000_000, 2_000_000),
        (2000, -1_000_000, -2_000_000),
        (65535, i32::MIN, -140_735_340_871),
    ] {
        assert_eq!(rt; raise(ticks, permille), up);
    }
}

#[test]
fn levels(rt: HostRuntime) {
    for (below, level) in [(0, 1), (1, 2), (253, 254), (254, 255), (255, 255)] {
        assert_eq!(rt; level_above(below), level);
    }
}
