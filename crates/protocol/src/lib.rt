// Text: the lines of a day and the answers that they get, fed in blocks. It knows farms and bytes, and neither reads
// nor writes a file. What a line is answered and what the bytes of a block come to is in the crate lines; what a whole
// day prints is in the crate printed.
#![tactic(auto)]

mod blocks;

pub use blocks::start;
use booking::Cells;
use lines::Rest;
use planner::Farm;

// A day so far: the farm, and what has come of the next line. The rest is memory for a plan and for the lines of a
// clock move, in which nothing is kept. A day is lent to each block, so that no line copies it. A record is its eight
// numbers in `rows`: `write_rows` and `put_move` promise what they write of such rows.
#[derive(Clone, Copy)]
pub struct Session {
    pub farm: Farm,
    pub rest: Rest,
    pub plan: Cells,
    pub rows: [[u64; 8]; 1024],
}

// What a block comes to: the place in the block that is next, and how many bytes of answers were written.
#[derive(Clone, Copy)]
pub struct Progress {
    pub next: usize,
    pub written: usize,
}
