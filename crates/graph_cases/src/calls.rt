// Arcs, starts, ends and trims.
use crate::acts::*;
use graph::{Refusal, TimingGraph};
use std::test::Fail;

#[test]
fn a_new_graph_is_empty(rt: HostRuntime) -> Result<(), Fail> {
    let readings = [read(0), read(1023), read(1024)];
    run(&rt, &readings[0..0], &[])?;
    run(&rt, &readings, &[NONE, NONE, NONE])?;
    let graph = TimingGraph::new();
    assert_eq!(rt; graph.taken(), 0);
    assert_eq!(rt; graph.start(0), None);
    assert_eq!(rt; graph.end(255), None);
    Ok(())
}

#[test]
fn arcs_take_the_next_number(rt: HostRuntime) -> Result<(), Fail> {
    run(
        &rt,
        &[arc(0, 1), arc(0, 1), arc(254, 255), read(2), read(3)],
        &[taken(0), taken(1), taken(2), shown(254, 255, 0, 0), NONE],
    )?;
    run(
        &rt,
        &[arc(-1, 1), arc(0, 256), arc(256, 0), arc(-1, -1)],
        &[R6, R6, R6, R6],
    )?;
    run(
        &rt,
        &[arc(1, 1), arc(2, 1), arc(255, 0), arc(0, 255)],
        &[R7, R7, R7, taken(0)],
    )
}

#[test]
fn a_full_graph_takes_no_arc(rt: HostRuntime) {
    let mut graph = TimingGraph::new();
    for _ in 0..1024 {
        assert!(rt; graph.add_arc(0, 1).is_ok());
    }
    assert_eq!(rt; graph.add_arc(0, 1), Err(Refusal::Full));
    assert_eq!(rt; graph.add_arc(1, 0), Err(Refusal::NotRising));
    assert_eq!(rt; graph.add_arc(0, 256), Err(Refusal::OutOfRange));
    assert_eq!(rt; graph.drop_arc(1023), Ok(()));
    assert_eq!(rt; graph.add_arc(0, 1), Err(Refusal::Full));
    assert_eq!(rt; graph.taken(), 1024);
}

#[test]
fn a_dropped_number_is_not_used_again(rt: HostRuntime) -> Result<(), Fail> {
    run(
        &rt,
        &[arc(0, 1), cut(0), cut(0), read(0), arc(0, 1)],
        &[taken(0), DONE, R9, NONE, taken(1)],
    )?;
    run(
        &rt,
        &[cut(-1), cut(1024), cut(0), cut(1023)],
        &[R6, R6, R9, R9],
    )
}

#[test]
fn an_arc_in_a_set_is_not_dropped(rt: HostRuntime) -> Result<(), Fail> {
    run(
        &rt,
        &[arc(0, 1), pair(3, 0, 1), cut(0), clear(3), cut(0)],
        &[taken(0), DONE, R10, DONE, DONE],
    )?;
    run(
        &rt,
        &[
            arc(0, 1),
            arc(1, 2),
            pair(15, 0, 2),
            clear(14),
            cut(1),
            clear(15),
            cut(1),
            cut(0),
        ],
        &[taken(0), taken(1), DONE, DONE, R10, DONE, DONE, DONE],
    )
}

#[test]
fn starts_and_ends_are_set_or_replaced(rt: HostRuntime) -> Result<(), Fail> {
    run(
        &rt,
        &[
            start(0, 0),
            start(0, 7),
            start(255, 1_000_000),
            start(255, -1_000_000),
        ],
        &[DONE, DONE, DONE, DONE],
    )?;
    run(
        &rt,
        &[
            start(-1, 0),
            start(256, 0),
            start(0, 1_000_001),
            start(0, -1_000_001),
        ],
        &[R6, R6, R6, R6],
    )?;
    run(
        &rt,
        &[
            end(0, 10),
            end(255, -1_000_000),
            end(256, 0),
            end(-1, 0),
            end(3, 1_000_001),
        ],
        &[DONE, DONE, R6, R6, R6],
    )?;
    let mut graph = TimingGraph::new();
    assert_eq!(rt; graph.set_start(4, 7), Ok(()));
    assert_eq!(rt; graph.set_start(4, -3), Ok(()));
    assert_eq!(rt; graph.set_start(4, 1_000_001), Err(Refusal::OutOfRange));
    assert_eq!(rt; graph.set_end(4, 10), Ok(()));
    assert_eq!(rt; graph.start(4), Some(-3));
    assert_eq!(rt; graph.end(4), Some(10));
    assert_eq!(rt; graph.start(5), None);
    Ok(())
}

#[test]
fn a_trim_stands_until_the_next(rt: HostRuntime) -> Result<(), Fail> {
    run(
        &rt,
        &[arc(0, 1), trim(0, 5), read(0), trim(0, -7), read(0)],
        &[taken(0), DONE, shown(0, 1, 5, 0), DONE, shown(0, 1, -7, 0)],
    )?;
    run(
        &rt,
        &[
            trim(0, 0),
            trim(1024, 0),
            trim(-1, 0),
            trim(0, 1_000_001),
            trim(1023, -1_000_001),
        ],
        &[R9, R6, R6, R6, R6],
    )?;
    run(&rt, &[arc(0, 1), cut(0), trim(0, 1)], &[taken(0), DONE, R9])?;
    run(
        &rt,
        &[
            arc(0, 1),
            arc(1, 2),
            trim(1, 1_000_000),
            trim(1, 1_000_001),
            read(0),
            read(1),
        ],
        &[
            taken(0),
            taken(1),
            DONE,
            R6,
            shown(0, 1, 0, 0),
            shown(1, 2, 1_000_000, 0),
        ],
    )
}
