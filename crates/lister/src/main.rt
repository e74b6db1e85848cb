// An independent reader of the timer's answers: it makes random blocks, lists every path of each, decides by the
// definition which are open, and compares the least slacks with those that the timer finds.
#![tactic(auto)]

mod blocks;
mod compare;
mod dice;
mod listing;
mod plain;

use blocks::random_block;
use compare::{Tally, compare_block};
use dice::Dice;
use measure::{Early, Measure, StagedTicks, Ticks};
use plain::Reading;
use std::io;
use tables::Tables;

const BLOCKS: u32 = 2000;

// More lines than any block of this size has.
const LINES: usize = 200;

// Compares blocks of one measure, and says what came of it.
fn compare_all<M: Measure>(
    rt: &HostRuntime,
    name: &str,
    reading: Reading,
    dice: &mut Dice,
) -> io::Result<()> {
    let mut tables = Tables::<M>::blank(rt.alloc(), LINES)?;
    let mut tally = Tally::default();
    for _ in 0..BLOCKS {
        let block = random_block(dice);
        compare_block(rt.alloc(), &mut tables, &block, reading, &mut tally)?;
    }
    let Tally {
        blocks,
        slacks,
        paths,
        closed,
        mismatches,
    } = tally;
    print!(rt; "{name}: {blocks} blocks, {slacks} nodes with slack, ")?;
    println!(rt; "{paths} paths, {closed} of them closed, {mismatches} mismatches")
}

fn main(rt: HostRuntime) -> io::Result<()> {
    let mut dice = Dice::new(2_024);
    compare_all::<Ticks>(&rt, "ticks", Reading::Ticks, &mut dice)?;
    compare_all::<StagedTicks>(&rt, "staged", Reading::Staged, &mut dice)?;
    compare_all::<Early<Ticks>>(&rt, "early", Reading::Early, &mut dice)?;
    compare_all::<Early<StagedTicks>>(&rt, "early staged", Reading::EarlyStaged, &mut dice)
}
