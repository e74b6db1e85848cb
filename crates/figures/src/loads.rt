// Loads of the delay table.
use crate::tables::{marked, unmarked};
use delay::{AnnotatedRow, load_delays};
use reader::FileRefusal;
use std::process::Abort;

// A refusal by its number and line.
fn answer(done: Result<(), FileRefusal>) -> Result<(), (u8, usize)> {
    done.map_err(|refusal| (refusal.fault.number(), refusal.line))
}

// The later line for arc 5 stands, and rows that no line names keep mark and ticks.
#[test]
fn lines_stand(rt: HostRuntime) {
    let mut table = [unmarked(3); 1024];
    table[6] = marked(66);
    let file = b"arc,ticks\n5,10\n0,-1000000\n5,20\n1023,1000000\nend,4\n";
    assert_eq!(rt; answer(load_delays(file, &mut table)), Ok(()));
    assert_eq!(rt; table[0], marked(-1_000_000));
    assert_eq!(rt; table[5], marked(20));
    assert_eq!(rt; table[6], marked(66));
    assert_eq!(rt; table[7], unmarked(3));
    assert_eq!(rt; table[1023], marked(1_000_000));
    let columns = b"ticks,arc\n10,6\nend,1\n";
    assert_eq!(rt; answer(load_delays(columns, &mut table)), Ok(()));
    assert_eq!(rt; table[6], marked(10));
    assert_eq!(rt; table[10], unmarked(3));
}

// A refused file sets no row, not even that of its first, good line.
fn refuses(rt: &impl Abort, file: &[u8], number: u8, line: usize) {
    let mut table = [unmarked(3); 1024];
    assert_eq!(rt; answer(load_delays(file, &mut table)), Err((number, line)));
    assert_eq!(rt; table[5], unmarked(3));
}

#[test]
fn refusals(rt: HostRuntime) {
    refuses(&rt, b"", 1, 0);
    refuses(&rt, b"ticks\n5,1\nend,1\n", 3, 1);
    refuses(&rt, b"arc,ticks\n5,1\n6,x\nend,2\n", 4, 3);
    refuses(&rt, b"arc,ticks\n5,1\n", 5, 3);
    refuses(&rt, b"arc,ticks\n5,1\n1024,1\nend,2\n", 6, 3);
    refuses(&rt, b"arc,ticks\n5,1\n-1,1\nend,2\n", 6, 3);
    refuses(&rt, b"arc,ticks\n5,1\n6,1000001\nend,2\n", 6, 3);
    refuses(&rt, b"arc,ticks\n5,-1000001\nend,1\n", 6, 2);
}

// The length is looked at first, so that an empty file is not yet seen.
#[test]
fn lengths(rt: HostRuntime) {
    let file = b"arc,ticks\n5,1\nend,1\n";
    let mut short = [unmarked(3); 1023];
    let mut long = [unmarked(3); 1025];
    let mut none: [AnnotatedRow; 0] = [];
    assert_eq!(rt; answer(load_delays(file, &mut short)), Err((14, 0)));
    assert_eq!(rt; answer(load_delays(file, &mut long)), Err((14, 0)));
    assert_eq!(rt; answer(load_delays(b"", &mut none)), Err((14, 0)));
    assert_eq!(rt; short[5], unmarked(3));
    assert_eq!(rt; long[5], unmarked(3));
}
