// What layers answer, the levels of their faults, and what a memo keeps.
ghost use Rattle.std.specs.Prelude.{◌≡◌, map};
ghost use Rattle.delay.specs.Annotated.{annotated_ticks};
ghost use Rattle.delay.specs.Tables.{tabled};
ghost use Rattle.delay.specs.Sounds.{tabled_sound};

use crate::tables::{fault, marked, unmarked};
use delay::{AnnotatedRow, Cause, Fault, Margin, Memo, Source, Table};
use std::cell::Cell;

// A thousand ticks show the factor that counts.
#[test]
fn factors(rt: HostRuntime) {
    let rows = [marked(1000)];
    for (permille, ticks) in [
        (0, 1000),
        (999, 1000),
        (1000, 1000),
        (1001, 1001),
        (1999, 1999),
        (2000, 2000),
        (2001, 2000),
        (65535, 2000),
    ] {
        assert_eq!(rt;
            Margin::new(Table { rows: &rows }, permille).delay(0),
            Ok(ticks)
        );
    }
}

// 1.5 × 666,667 is 1,000,000.5, which goes up and out of range; below zero it goes up and into it.
#[test]
fn margin(rt: HostRuntime) {
    let rows = [
        marked(-1),
        marked(1),
        marked(3),
        marked(666_666),
        marked(666_667),
        marked(-666_667),
        marked(-666_668),
        unmarked(5),
        marked(1_000_001),
    ];
    let mut source = Margin::new(Table { rows: &rows }, 1500);
    for (arc, entry) in [
        (0, Ok(-1)),
        (1, Ok(2)),
        (2, Ok(5)),
        (3, Ok(999_999)),
        (4, fault(Cause::MarginOutOfRange, 4, 1)),
        (5, Ok(-1_000_000)),
        (6, fault(Cause::MarginOutOfRange, 6, 1)),
        (7, fault(Cause::Missing, 7, 0)),
        (8, fault(Cause::OutOfRange, 8, 0)),
        (1024, fault(Cause::Missing, 1024, 0)),
    ] {
        assert_eq!(rt; source.delay(arc), entry);
    }
    assert_eq!(rt; source.level(), 1);
}

// 1.5 × 1.5 × 500,000 is 1,125,000: the second margin's fault. 1.5 × 700,000 is 1,050,000: the first one's.
#[test]
fn margin_over_margin(rt: HostRuntime) {
    let rows = [marked(100), marked(500_000), marked(700_000), unmarked(0)];
    let first = Margin::new(Table { rows: &rows }, 1500);
    let mut source = Margin::new(Memo::new(first), 1500);
    for (arc, entry) in [
        (0, Ok(225)),
        (1, fault(Cause::MarginOutOfRange, 1, 2)),
        (2, fault(Cause::MarginOutOfRange, 2, 1)),
        (3, fault(Cause::Missing, 3, 0)),
    ] {
        assert_eq!(rt; source.delay(arc), entry);
    }
    assert_eq!(rt; source.level(), 2);
}

// A table that counts how often it is asked.
#[derive(Drop)]
struct Counting<'a> {
    table: Table<'a, AnnotatedRow>,
    asked: &'a Cell<u8>,
}

impl<'a> Source for Counting<'a> {
    ghost means = { λ s. tabled (map annotated_ticks s.table.rows.now) };

    ghost depth = { λ _. 0 };

    ghost sound = { λ s. tabled_sound (map annotated_ticks s.table.rows.now) };

    ghost asked = { λ s _ t. t.table ≡ s.table };

    fn delay(&mut self, arc: u16) -> Result<i32, Fault> {
        self.asked.set(self.asked.get().wrapping_add(1));
        self.table.delay(arc)
    }

    fn level(&self) -> u8 {
        0
    }
}

// Arcs 5 and 37 share a place, and so do 6 and 38: the first count asked there is kept, and no fault.
#[test]
fn memo(rt: HostRuntime) {
    let mut rows = [marked(0); 40];
    rows[5] = marked(50);
    rows[37] = marked(370);
    rows[6] = unmarked(60);
    rows[38] = marked(380);
    let asked = Cell::new(0u8);
    let mut source = Memo::new(Counting {
        table: Table { rows: &rows },
        asked: &asked,
    });
    for (arc, entry, count) in [
        (5, Ok(50), 1),
        (5, Ok(50), 1),
        (37, Ok(370), 2),
        (37, Ok(370), 3),
        (5, Ok(50), 3),
        (6, fault(Cause::Missing, 6, 0), 4),
        (6, fault(Cause::Missing, 6, 0), 5),
        (38, Ok(380), 6),
        (38, Ok(380), 6),
        (6, fault(Cause::Missing, 6, 0), 7),
        (1024, fault(Cause::Missing, 1024, 0), 8),
    ] {
        assert_eq!(rt; source.delay(arc), entry);
        assert_eq!(rt; asked.get(), count);
    }
    assert_eq!(rt; source.level(), 0);
}
