// The limits of document 01's table on numbers and costs, and the tests that they are made of.
// What each test means is in specs/Model.antt.
#![tactic(auto)]

ghost use Rattle.std.specs.Prelude.{◌&&◌, ◌≡◌, leb, ltb, take};
ghost use Rattle.limits.specs.Model.{greatest, all_at_most, costs_within};

// The greatest tick, allowance and count of job numbers.
pub const GREATEST: u64 = 1_000_000_000_000;

// The most ticks that a show may hold: 64 nodes over the whole time range.
pub const MOST_HELD: u64 = 64_000_000_000_000;

// What a farm costs, in ticks: to send a unit (document 01's m), to compute a unit (p), to set up a send on the link
// (ST), to set up a node (SC), and to bring an encoded unit back on the node's return line (r).
#[derive(Clone, Copy)]
pub struct FarmCosts {
    pub send: u64,
    pub compute: u64,
    pub linksetup: u64,
    pub nodesetup: u64,
    pub returning: u64,
}

// Whether the first `count` numbers are at most `limit`; a count above the length is taken for the length. The count
// and not a slice, since it answers for any count: question 11 asks it of counts not yet looked at.
pub fn all_at_most(xs: &[u64], count: usize, limit: u64) -> bool
    ensures { result ≡ all_at_most limit (take count xs.now) }
{
    xs.iter().take(count).all(|&x| x <= limit)
}

// Whether all five costs are within the table.
#[tactic(auto, unfolding(crate::specs::Model::costs_within))]
pub fn costs_within(costs: FarmCosts) -> bool
    ensures { result ≡ costs_within costs }
{
    (1..=10_000).contains(&costs.send)
        && (1..=1_000_000).contains(&costs.compute)
        && costs.linksetup <= 1_000_000
        && costs.nodesetup <= 1_000_000
        && costs.returning <= 10_000
}

// Whether a deadline is after the clock and within the time range.
pub fn deadline_within(clock: u64, deadline: u64) -> bool
    ensures { result ≡ (ltb clock deadline && leb deadline greatest) }
{
    clock < deadline && deadline <= GREATEST
}

// Whether fewer than 128 jobs wait and a job number is left.
pub fn place_left(waiting: usize, used: u64) -> bool
    ensures { result ≡ (ltb waiting 128 && ltb used greatest) }
{
    waiting < 128 && used < GREATEST
}
