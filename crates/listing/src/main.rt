// The day of document 01's listing, by calls on the farm and with no line read: the opening, its two granted offers, a
// third that is quoted first and withdrawn again, the timetable shown, the clock move and both accounts. Prints an
// answer a line, its fields parted by tabs; the lines of a timetable come before its answer.
#![tactic(auto)]

use answers::{Answer, Granted, Offer};
use limits::FarmCosts;
use planner::{Farm, Reply, Timetable};
use std::io;
use walk::Chunk;

const UNUSED: Chunk = Chunk {
    job: 0,
    show: 0,
    node: 0,
    units: 0,
    start: 0,
    sent: 0,
    finish: 0,
    computed: 0,
};

// The question of a refusal is left out: no call of this day is refused. Its words are its own and not those of the crate
// lines, which has none for showing.
fn put_answer(rt: &impl Print, answer: Answer) -> io::Result<()> {
    let Ok(granted) = answer else {
        return println!(rt; "no");
    };
    match granted {
        Granted::Open { nodes, shows } => println!(rt; "open\t{nodes}\t{shows}"),
        Granted::Yes {
            job,
            start,
            finish,
            nodes,
        } => println!(rt; "yes\t{job}\t{start}\t{finish}\t{nodes}"),
        Granted::Clock { time, lines } => println!(rt; "clock\t{time}\t{lines}"),
        Granted::Shown { lines } => println!(rt; "shown\t{lines}"),
        Granted::Account {
            show,
            held,
            charged,
        } => println!(rt; "account\t{show}\t{held}\t{charged}"),
        Granted::Gone { job } => println!(rt; "gone\t{job}"),
        Granted::Quote {
            job,
            start,
            finish,
            nodes,
        } => println!(rt; "quote\t{job}\t{start}\t{finish}\t{nodes}"),
    }
}

// The records that were written; one that was not has job 0. Their count would have to be taken out of the answer.
fn put_chunks(rt: &impl Print, chunks: &[Chunk]) -> io::Result<()> {
    for c in chunks {
        if c.job > 0 {
            println!(rt;
                "chunk\t{}\t{}\t{}\t{}\t{}\t{}\t{}\t{}",
                c.job, c.show, c.node, c.units, c.start, c.sent, c.finish, c.computed
            )?;
        }
    }
    Ok(())
}

fn put_reply(rt: &impl Print, reply: Reply) -> io::Result<Farm> {
    put_answer(rt, reply.answer)?;
    Ok(reply.farm)
}

fn put_table(rt: &impl Print, table: Timetable) -> io::Result<Farm> {
    put_chunks(rt, &table.lines)?;
    put_reply(rt, table.reply)
}

// A job whose compute cost is the farm's.
fn offered(show: u64, size: u64, deadline: u64) -> Offer {
    Offer {
        show,
        size,
        deadline,
        compute: None,
    }
}

fn main(rt: HostRuntime) -> io::Result<()> {
    let costs = FarmCosts {
        send: 1,
        compute: 2,
        linksetup: 0,
        nodesetup: 0,
        returning: 0,
    };
    let opened = put_reply(&rt, Farm::open(3, costs, &[30, 0]))?;
    let one = put_reply(&rt, opened.offer(offered(1, 10, 18)))?;
    let two = put_reply(&rt, one.offer(offered(2, 3, 20)))?;
    let quoted = put_reply(&rt, two.quote(offered(2, 2, 24)))?;
    let three = put_reply(&rt, quoted.offer(offered(2, 2, 24)))?;
    let left = put_reply(&rt, three.withdraw(3))?;
    let shown = put_table(&rt, left.show_by_value([UNUSED; 1024]))?;
    let moved = put_table(&rt, shown.clock_by_value(10, [UNUSED; 1024]))?;
    let charged = put_reply(&rt, moved.account(1))?;
    put_reply(&rt, charged.account(2))?;
    Ok(())
}
