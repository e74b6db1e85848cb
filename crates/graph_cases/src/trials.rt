// Trials, and lists in which they do not fit.
use crate::acts::*;
use ledger::{Misuse, session};
use std::test::Fail;

#[test]
fn a_trial_is_undone(rt: HostRuntime) -> Result<(), Fail> {
    run(
        &rt,
        &[arc(0, 1), open(0, -100), read(0), close(), read(0)],
        &[
            taken(0),
            DONE,
            shown(0, 1, -100, 0),
            DONE,
            shown(0, 1, 0, 0),
        ],
    )?;
    run(
        &rt,
        &[arc(0, 1), trim(0, 3), open(0, 9), close(), read(0)],
        &[taken(0), DONE, DONE, DONE, shown(0, 1, 3, 0)],
    )?;
    run(
        &rt,
        &[
            arc(0, 1),
            arc(0, 2),
            open(0, 5),
            read(1),
            close(),
            open(1, 6),
            read(0),
            read(1),
            close(),
            trim(0, 2),
            read(0),
            read(1),
        ],
        &[
            taken(0),
            taken(1),
            DONE,
            shown(0, 2, 0, 0),
            DONE,
            DONE,
            shown(0, 1, 0, 0),
            shown(0, 2, 6, 0),
            DONE,
            DONE,
            shown(0, 1, 2, 0),
            shown(0, 2, 0, 0),
        ],
    )?;
    run(
        &rt,
        &[
            arc(0, 1),
            pair(4, 0, 1),
            open(0, 1),
            read(0),
            close(),
            read(0),
        ],
        &[
            taken(0),
            DONE,
            DONE,
            shown(0, 1, 1, 16),
            DONE,
            shown(0, 1, 0, 16),
        ],
    )
}

#[test]
fn a_refused_trial_changes_nothing(rt: HostRuntime) -> Result<(), Fail> {
    run(&rt, &[open(0, 1), read(0), close()], &[R9, NONE, DONE])?;
    run(
        &rt,
        &[arc(0, 1), open(0, 1_000_001), read(0), close(), read(0)],
        &[taken(0), R6, shown(0, 1, 0, 0), DONE, shown(0, 1, 0, 0)],
    )?;
    run(
        &rt,
        &[arc(0, 1), open(-1, 0), close(), open(1024, 0), close()],
        &[taken(0), R6, DONE, R6, DONE],
    )?;
    run(
        &rt,
        &[arc(0, 1), trim(0, 4), cut(0), open(0, 1), close(), read(0)],
        &[taken(0), DONE, DONE, R9, DONE, NONE],
    )
}

#[test]
fn acts_that_do_not_nest_are_not_run(rt: HostRuntime) {
    misnested(&rt, &[close()]);
    misnested(&rt, &[open(0, 0)]);
    misnested(&rt, &[arc(0, 1), open(0, 1), arc(1, 2), close()]);
    misnested(&rt, &[open(0, 0), open(0, 0), close(), close()]);
    misnested(&rt, &[open(0, 0), close(), close()]);
}

#[test]
fn each_act_has_one_reply(rt: HostRuntime) {
    let mut replies = [NONE; 4];
    let done = session(&[arc(0, 1)], &mut replies);
    assert_eq!(rt; done.err(), Some(Misuse::Lengths));
}
