// Pairs of nodes, and the emptying of a set.
use crate::acts::*;
use std::test::Fail;

#[test]
fn a_pair_takes_the_arcs_on_its_paths(rt: HostRuntime) -> Result<(), Fail> {
    run(
        &rt,
        &[
            arcs(SELECTORS),
            pair(0, 1, 4),
            read(0),
            read(1),
            read(2),
            read(3),
            read(4),
            read(5),
            read(6),
            read(7),
        ],
        &[
            DONE,
            DONE,
            shown(0, 1, 0, 0),
            shown(0, 2, 0, 0),
            shown(1, 3, 0, 1),
            shown(2, 3, 0, 0),
            shown(3, 4, 0, 1),
            shown(3, 5, 0, 0),
            shown(4, 6, 0, 0),
            shown(5, 6, 0, 0),
        ],
    )?;
    run(
        &rt,
        &[
            arcs(SELECTORS),
            pair(0, 0, 3),
            read(0),
            read(1),
            read(2),
            read(3),
            read(4),
        ],
        &[
            DONE,
            DONE,
            shown(0, 1, 0, 1),
            shown(0, 2, 0, 1),
            shown(1, 3, 0, 1),
            shown(2, 3, 0, 1),
            shown(3, 4, 0, 0),
        ],
    )
}

#[test]
fn sets_are_kept_apart(rt: HostRuntime) -> Result<(), Fail> {
    run(
        &rt,
        &[
            arcs(SELECTORS),
            pair(0, 1, 4),
            pair(1, 2, 4),
            read(2),
            read(3),
            read(4),
        ],
        &[
            DONE,
            DONE,
            DONE,
            shown(1, 3, 0, 1),
            shown(2, 3, 0, 2),
            shown(3, 4, 0, 3),
        ],
    )?;
    run(
        &rt,
        &[arc(0, 255), pair(15, 0, 255), pair(0, 0, 255), read(0)],
        &[taken(0), DONE, DONE, shown(0, 255, 0, 32769)],
    )
}

#[test]
fn a_pair_without_a_path_is_refused(rt: HostRuntime) -> Result<(), Fail> {
    run(
        &rt,
        &[
            arcs(SELECTORS),
            pair(0, 4, 1),
            pair(0, 1, 2),
            pair(0, 3, 3),
            pair(0, 6, 0),
            pair(0, 200, 201),
            cut(0),
        ],
        &[DONE, R11, R11, R11, R11, R11, DONE],
    )?;
    run(
        &rt,
        &[
            arcs(SELECTORS),
            pair(16, 0, 3),
            pair(-1, 0, 3),
            pair(0, -1, 3),
            pair(0, 0, 256),
            pair(16, 4, 1),
        ],
        &[DONE, R6, R6, R6, R6, R6],
    )
}

#[test]
fn only_live_arcs_make_paths(rt: HostRuntime) -> Result<(), Fail> {
    run(
        &rt,
        &[arcs(SELECTORS), cut(2), pair(0, 1, 4), pair(0, 1, 3)],
        &[DONE, DONE, R11, R11],
    )?;
    run(
        &rt,
        &[
            arcs(SELECTORS),
            cut(2),
            pair(0, 0, 4),
            read(0),
            read(1),
            read(3),
            read(4),
        ],
        &[
            DONE,
            DONE,
            DONE,
            shown(0, 1, 0, 0),
            shown(0, 2, 0, 1),
            shown(2, 3, 0, 1),
            shown(3, 4, 0, 1),
        ],
    )?;
    run(
        &rt,
        &[
            arc(0, 1),
            pair(0, 0, 1),
            arc(0, 1),
            read(1),
            pair(0, 0, 1),
            read(1),
        ],
        &[
            taken(0),
            DONE,
            taken(1),
            shown(0, 1, 0, 0),
            DONE,
            shown(0, 1, 0, 1),
        ],
    )
}

#[test]
fn clear_empties_one_set(rt: HostRuntime) -> Result<(), Fail> {
    run(
        &rt,
        &[clear(0), clear(15), clear(16), clear(-1)],
        &[DONE, DONE, R6, R6],
    )?;
    run(
        &rt,
        &[
            arcs(SELECTORS),
            pair(0, 1, 4),
            pair(1, 1, 4),
            clear(0),
            read(2),
            clear(1),
            read(2),
        ],
        &[
            DONE,
            DONE,
            DONE,
            DONE,
            shown(1, 3, 0, 2),
            DONE,
            shown(1, 3, 0, 0),
        ],
    )?;
    run(
        &rt,
        &[
            arcs(SELECTORS),
            pair(2, 0, 3),
            clear(2),
            pair(2, 3, 4),
            read(0),
            read(4),
        ],
        &[DONE, DONE, DONE, DONE, shown(0, 1, 0, 0), shown(3, 4, 0, 4)],
    )
}
