// Loads: refused by form or by call, with the line, and all or none.
use crate::acts::*;
use graph::{GraphFile, TimingGraph};
use reader::{FileFault, FileRefusal};
use std::test::Fail;

#[test]
fn arcs_are_loaded(rt: HostRuntime) -> Result<(), Fail> {
    run(
        &rt,
        &[arcs(b"from,to\nend,0\n"), arc(0, 1)],
        &[DONE, taken(0)],
    )?;
    run(
        &rt,
        &[
            arcs(b"to,from\n1,0\n3,1\nend,2\n"),
            read(0),
            read(1),
            arc(4, 5),
        ],
        &[DONE, shown(0, 1, 0, 0), shown(1, 3, 0, 0), taken(2)],
    )
}

#[test]
fn a_file_is_refused_by_its_form(rt: HostRuntime) -> Result<(), Fail> {
    run(
        &rt,
        &[arcs(b""), bounds(b""), false_sets(b"")],
        &[
            at(0, FileFault::NoBytes),
            at(0, FileFault::NoBytes),
            at(0, FileFault::NoBytes),
        ],
    )?;
    run(
        &rt,
        &[
            arcs(b"from,from\nend,0\n"),
            arcs(b"from,to"),
            bounds(b"from,to\nend,0\n"),
        ],
        &[
            at(1, FileFault::NamesWrong),
            at(1, FileFault::NamesUnended),
            at(1, FileFault::NamesWrong),
        ],
    )?;
    run(
        &rt,
        &[
            arcs(b"from,to\n0,01\nend,1\n"),
            arcs(b"from,to\n0\nend,1\n"),
            arcs(b"from,to\n0,1\n1,2"),
            arc(0, 1),
        ],
        &[
            at(2, FileFault::ValueWrong),
            at(2, FileFault::ValueWrong),
            at(3, FileFault::ValueUnended),
            taken(0),
        ],
    )?;
    run(
        &rt,
        &[
            arcs(b"from,to\n0,1\n"),
            arcs(b"from,to\n0,1\nend,2\n"),
            arcs(b"from,to\n0,1\nend,1"),
            arcs(b"from,to\n0,1\nend,1\n\n"),
            arc(0, 1),
        ],
        &[
            at(3, FileFault::EndMissing),
            at(3, FileFault::EndWrong),
            at(3, FileFault::EndUnended),
            at(4, FileFault::EndFollowed),
            taken(0),
        ],
    )
}

#[test]
fn a_long_file_is_refused(rt: HostRuntime) {
    let mut graph = TimingGraph::new();
    assert_eq!(rt;
        graph.load(GraphFile::Arcs, &[b'0'; 60_001]),
        Err(FileRefusal {
            fault: FileFault::TooLong,
            line: 0,
        })
    );
}

#[test]
fn a_refused_line_undoes_the_load(rt: HostRuntime) -> Result<(), Fail> {
    run(
        &rt,
        &[arcs(b"from,to\n0,1\n5,5\nend,2\n"), read(0), arc(2, 3)],
        &[by_call(3, 7), NONE, taken(0)],
    )?;
    run(
        &rt,
        &[
            arcs(b"from,to\n-1,1\nend,1\n"),
            arcs(b"from,to\n0,256\nend,1\n"),
        ],
        &[by_call(2, 6), by_call(2, 6)],
    )?;
    run(
        &rt,
        &[
            arcs(b"from,to\n2,1\nx,y\nend,2\n"),
            arcs(b"from,to\nx,y\n2,1\nend,2\n"),
            arcs(b"from,to\n2,1\nend,2\n"),
        ],
        &[by_call(2, 7), at(2, FileFault::ValueWrong), by_call(2, 7)],
    )
}

#[test]
fn bounds_are_loaded(rt: HostRuntime) -> Result<(), Fail> {
    run(
        &rt,
        &[
            bounds(b"node,side,ticks\n0,s,5\n6,e,350\nend,2\n"),
            bounds(b"ticks,node,side\n-7,0,s\nend,1\n"),
            bounds(b"node,side,ticks\n0,x,5\nend,1\n"),
            bounds(b"node,side,ticks\n0,s,5\n256,s,5\nend,2\n"),
            bounds(b"node,side,ticks\n0,e,1000001\nend,1\n"),
        ],
        &[
            DONE,
            DONE,
            at(2, FileFault::ValueWrong),
            by_call(3, 6),
            by_call(2, 6),
        ],
    )?;
    let mut graph = TimingGraph::new();
    let done = graph.load(
        GraphFile::Bounds,
        b"node,side,ticks\n0,s,5\n6,e,350\n0,s,8\nend,3\n",
    );
    assert_eq!(rt; done, Ok(()));
    assert_eq!(rt; graph.start(0), Some(8));
    assert_eq!(rt; graph.end(6), Some(350));
    let refused = graph.load(
        GraphFile::Bounds,
        b"node,side,ticks\n0,s,1\n-1,e,0\nend,2\n",
    );
    assert!(rt; refused.is_err());
    assert_eq!(rt; graph.start(0), Some(8));
    Ok(())
}

#[test]
fn false_sets_are_loaded(rt: HostRuntime) -> Result<(), Fail> {
    run(
        &rt,
        &[
            arcs(SELECTORS),
            false_sets(b"set,from,to\n0,1,4\n1,2,4\nend,2\n"),
            read(2),
            read(3),
            read(4),
        ],
        &[
            DONE,
            DONE,
            shown(1, 3, 0, 1),
            shown(2, 3, 0, 2),
            shown(3, 4, 0, 3),
        ],
    )?;
    run(
        &rt,
        &[
            arcs(SELECTORS),
            false_sets(b"set,from,to\n0,1,4\n0,4,1\nend,2\n"),
            read(2),
            cut(2),
        ],
        &[DONE, by_call(3, 11), shown(1, 3, 0, 0), DONE],
    )?;
    run(
        &rt,
        &[
            false_sets(b"set,from,to\nend,0\n"),
            arcs(SELECTORS),
            false_sets(b"to,from,set\n4,1,16\nend,1\n"),
            false_sets(b"to,from,set\n4,1,15\nend,1\n"),
            read(4),
        ],
        &[DONE, DONE, by_call(2, 6), DONE, shown(3, 4, 0, 32768)],
    )
}
