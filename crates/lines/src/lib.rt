// Text: a line as the call that it is, an answer as the line that it is, and what has come of a line that has not
// ended. It knows farms and bytes, and no block of input. What a line is answered is in specs/Model.antt.
#![tactic(auto)]

pub mod answer;
pub mod kept;
pub mod step;

use answers::Offer;

// A call that decides which jobs wait.
#[derive(Clone, Copy)]
pub enum Command {
    Offer(Offer),
    Withdraw(u64),
}

// A call that only tells: the farm stays as it is.
#[derive(Clone, Copy)]
pub enum Query {
    Quote(Offer),
    Account(u64),
}

// What a line asks for: to open a farm, a call that decides which jobs wait, one that only tells, or a clock move to a
// time.
#[derive(Clone, Copy)]
pub enum Order {
    Open,
    Command(Command),
    Query(Query),
    Clock(u64),
}

// What has come of a line that has not ended: its first `fill` bytes. A fill above 1,024 says that it is too long.
// What may not change: `pending_of` and `rest_long` (specs/) speak of a fill above 1,024; and a `Session` can be
// copied, which one with the kit's ArrayVec, which would count its bytes itself, cannot.
#[derive(Clone, Copy)]
pub struct Rest {
    pub fill: usize,
    pub bytes: [u8; 1024],
}
