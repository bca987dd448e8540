// Question 11 asked of the waiting jobs: each by itself against a few bounds, their numbers, and all of them behind one
// another. It knows no farm. Nothing is taken for granted of a job: what could make a sum wrap is tested before the sum
// is made. What each function means is in specs/Model.antt.
#![tactic(auto)]

ghost use Rattle.std.specs.Prelude.{◌≡◌, ◌≤◌, ◌&&◌, leb, length};
ghost use Rattle.limits.specs.Model.{between};
ghost use Rattle.booking.specs.Best.{chosen};
ghost use Rattle.lists.specs.Laws.{All};
ghost use Rattle.walk.specs.Model.{greatest, by_start, spans_of_all, in_order, fit_all};
ghost use Rattle.soundness.specs.Model.{all_differ, nodes_known, shares_kept, job_within, job_passes, waiting_pass};
ghost use Rattle.soundness.specs.Sound.{Usable};
ghost use Rattle.soundness.specs.Steps.{NoOverflow, Bounded, Inside, Surveys, FitResult};

use keys::Key;
use limits::{FarmCosts, GREATEST};
use walk::{FreeTimes, Job, WalkTerms, chunk_on, chunk_terms, keys_by};

// What each waiting job is held against: what a walk knows of the farm, its shows, and the job numbers used.
// `Usable` is a clause and not its invariant: `says_job_within` (specs/Sound.antt) speaks of bounds without it.
#[derive(Clone, Copy)]
pub struct JobBounds {
    pub terms: WalkTerms,
    pub shows: usize,
    pub used: u64,
}

// ---- A job by itself

// Whether the nodes are numbers from 1 to `limit`.
fn nodes_known(nodes: &[u8], limit: usize) -> bool
    ensures { result ≡ nodes_known limit nodes.now }
{
    nodes
        .iter()
        .all(|&node| (1..=limit).contains(&usize::from(node)))
}

// Two conjunctions, so that each proof stays short: a job's times and nodes ..
fn booking_within(job: &Job, nodes: usize) -> bool
    ensures { result ≡ (leb job.now.deadline greatest && leb job.now.booking.start greatest && between 1 job.now.booking.count 64 && nodes_known nodes (chosen job.now.booking)) }
{
    let booking = &job.booking;
    job.deadline <= GREATEST
        && booking.start <= GREATEST
        && (1..=64).contains(&booking.count)
        && nodes_known(&booking.nodes[..booking.count], nodes)
}

// .. and all its bounds. Its ranges are asked before they are joined: tried as one chain, and the proof didn't close.
#[tactic(auto, unfolding(crate::specs::Model::job_within))]
fn job_within(bounds: JobBounds, job: &Job) -> bool
    ensures { result ≡ job_within bounds job.now }
{
    let named = (1..=bounds.used).contains(&job.number);
    let shown = (1..=bounds.shows as u64).contains(&job.show);
    let sized = (1..=1_000_000).contains(&job.size);
    let priced = (1..=1_000_000).contains(&job.compute);
    named && shown && sized && priced && booking_within(job, bounds.terms.nodes)
}

// Whether the shares are at least 1 each and add up to the size, and each chunk finishes by the deadline.
fn shares_kept(costs: FarmCosts, job: &Job) -> bool
    requires { NoOverflow costs job.now }
    ensures { result ≡ shares_kept costs job.now }
{
    let booking = &job.booking;
    let terms = chunk_terms(costs, job);
    let nodes = &booking.nodes[..booking.count];
    let shares = &booking.shares[..booking.count];
    let mut total: u64 = 0;
    let mut last = booking.start;
    for (&node, &units) in nodes.iter().zip(shares) {
        if units < 1 {
            return false;
        }
        let chunk = chunk_on(terms, node, units, last);
        if job.deadline < chunk.finish {
            return false;
        }
        total += u64::from(units);
        last = chunk.sent;
    }
    total == u64::from(job.size) && last <= job.deadline
}

#[tactic(auto, using(crate::specs::Steps::no_overflow_of), unfolding(crate::specs::Model::job_kept, crate::specs::Model::job_passes))]
fn job_passes(bounds: JobBounds, job: &Job) -> bool
    requires { Usable bounds }
    ensures { result ≡ job_passes bounds job.now }
{
    job_within(bounds, job)
        && bounds.terms.clock <= job.booking.start
        && shares_kept(bounds.terms.costs, job)
}

// The jobs' numbers at the front, where each job passes by itself: the jobs are gone through once. Memory is fixed, so
// they are an array.
fn surveyed(bounds: JobBounds, jobs: &[Job]) -> Option<[u64; 128]>
    requires { Usable bounds × (length jobs.now ≤ 128) }
    ensures { Surveys bounds jobs.now result }
{
    let mut numbers = [0; 128];
    for (i, job) in jobs.iter().enumerate() {
        if !job_passes(bounds, job) {
            return None;
        }
        numbers[i] = job.number;
    }
    Some(numbers)
}

// ---- The jobs' numbers

fn all_differ(xs: &[u64]) -> bool
    ensures { result ≡ all_differ xs.now }
{
    let mut rest = xs;
    while let [x, after @ ..] = rest {
        if after.contains(x) {
            return false;
        }
        rest = after;
    }
    true
}

// ---- The jobs behind one another

// The free times after a job's chunks, where each is behind what those before it have left.
fn job_fits(costs: FarmCosts, times: FreeTimes, job: &Job) -> Option<FreeTimes>
    requires { Bounded costs job.now }
    ensures { FitResult costs times job.now result }
{
    let booking = &job.booking;
    let terms = chunk_terms(costs, job);
    let nodes = &booking.nodes[..booking.count];
    let shares = &booking.shares[..booking.count];
    let mut now = times;
    let mut last = booking.start;
    for (&node, &units) in nodes.iter().zip(shares) {
        let chunk = chunk_on(terms, node, units, last);
        let place = usize::from(node) - 1;
        if chunk.start < now.link || booking.start < now.free[place] {
            return None;
        }
        now.free[place] = chunk.finish;
        now.link = chunk.sent;
        last = chunk.sent;
    }
    Some(now)
}

// The jobs in the order of the keys, each behind those before it.
fn jobs_fit(costs: FarmCosts, times: FreeTimes, jobs: &[Job], keys: &[Key]) -> bool
    requires { All (Bounded costs) jobs.now × All (Inside (length jobs.now)) keys.now }
    ensures { result ≡ fit_all times (spans_of_all costs (in_order jobs.now keys.now)) }
{
    let mut left = times;
    for key in keys {
        let Some(after) = job_fits(costs, left, &jobs[key.place]) else {
            return false;
        };
        left = after;
    }
    true
}

// The jobs by their starts, one after the other. They mostly stand in that order already.
fn in_turn(costs: FarmCosts, times: FreeTimes, jobs: &[Job]) -> bool
    requires { (length jobs.now ≤ 128) × All (Bounded costs) jobs.now }
    ensures { result ≡ fit_all times (spans_of_all costs (by_start jobs.now)) }
{
    let keys = keys_by(jobs, |job| job.booking.start);
    let order = keys::sorted(keys, jobs.len());
    jobs_fit(costs, times, jobs, &order[..jobs.len()])
}

// ---- The answer

// Question 11 asked of the jobs: each by itself, their numbers, and all of them in order of start.
#[tactic(auto, using(crate::specs::Steps::all_bounded), unfolding(crate::specs::Model::waiting_pass))]
pub fn waiting_pass(bounds: JobBounds, times: FreeTimes, jobs: &[Job]) -> bool
    requires { Usable bounds × (length jobs.now ≤ 128) }
    ensures { result ≡ waiting_pass bounds times jobs.now }
{
    let Some(numbers) = surveyed(bounds, jobs) else {
        return false;
    };
    all_differ(&numbers[..jobs.len()]) && in_turn(bounds.terms.costs, times, jobs)
}
