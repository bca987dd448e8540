// The windows A to J of document 01, "Windows to try", worked out by the share arithmetic. One line a
// window: its letter, then the fewest nodes, the earliest finish on them and the shares, or "none".
#![tactic(auto)]

use shares::{Costs, Shares};
use std::io;

// A to E: no setups.
const PLAIN: Costs = Costs {
    send: 1,
    compute: 2,
    linksetup: 0,
    nodesetup: 0,
};

// F and G: no setups, larger units.
const EVEN: Costs = Costs {
    send: 10,
    compute: 20,
    linksetup: 0,
    nodesetup: 0,
};

// H to J: with setups.
const SETUPS: Costs = Costs {
    send: 1,
    compute: 2,
    linksetup: 2,
    nodesetup: 1,
};

// The two cases in which the old planner went wrong, as what is proved of this program: C takes two nodes,
// though the shares come out even, and G three, though fractions of units would do with two.
fn check_counts() {
    let plain_count = shares::fewest_nodes(PLAIN, 3, 10, 18);
    prove!(plain_count == Some(2));
    let even_count = shares::fewest_nodes(EVEN, 3, 4, 75);
    prove!(even_count == Some(3));
}

fn put_shares(rt: &impl Print, shares: Shares) -> io::Result<()> {
    for units in shares.units.iter().take(shares.count) {
        print!(rt; "\t{units}")?;
    }
    Ok(())
}

fn try_window(
    rt: &impl Print,
    letter: char,
    costs: Costs,
    nodes: usize,
    size: u64,
    window: u64,
) -> io::Result<()> {
    print!(rt; "{letter}")?;
    match shares::fewest_nodes(costs, nodes, size, window) {
        Some(count) => {
            let finish = shares::earliest_finish(costs, count, size, window);
            print!(rt; "\t{count}\t{finish}")?;
            put_shares(rt, shares::greedy_shares(costs, count, finish))?;
        }
        None => print!(rt; "\tnone")?,
    }
    println!(rt)
}

fn main(rt: HostRuntime) -> io::Result<()> {
    check_counts();
    try_window(&rt, 'A', PLAIN, 64, 10, 30)?;
    try_window(&rt, 'B', PLAIN, 64, 10, 29)?;
    try_window(&rt, 'C', PLAIN, 64, 10, 18)?;
    try_window(&rt, 'D', PLAIN, 64, 10, 17)?;
    try_window(&rt, 'E', PLAIN, 3, 10, 14)?;
    try_window(&rt, 'F', EVEN, 64, 4, 80)?;
    try_window(&rt, 'G', EVEN, 64, 4, 75)?;
    try_window(&rt, 'H', SETUPS, 64, 3, 12)?;
    try_window(&rt, 'I', SETUPS, 64, 3, 10)?;
    try_window(&rt, 'J', SETUPS, 64, 3, 9)
}
