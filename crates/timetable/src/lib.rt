// What a clock move begins: the jobs in order of start, their lines, and what they leave in free times and held ticks.
// It knows jobs and chunks, and no farm. What each function means is in specs/Model.antt.
#![tactic(auto)]

pub mod begin;
pub mod lines;

use keys::Key;

// What a move to a time begins: how many jobs, with how many lines, and the jobs' keys in order of start.
// `IsDue` (specs/DueSteps.antt) speaks of count and keys; and a `Move` can be copied, which one with an ArrayVec
// cannot.
#[derive(Clone, Copy)]
pub struct Due {
    pub count: usize,
    pub lines: usize,
    pub keys: [Key; 128],
}
