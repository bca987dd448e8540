// What begins by a time, and the free times and held ticks that it leaves.
ghost use Rattle.std.specs.Prelude.{◌≡◌, List, ℕ, ◌≤◌, ◌<◌, length};
ghost use Rattle.lists.specs.Laws.{All};
ghost use Rattle.walk.specs.Model.{afters, lines_of, in_order};
ghost use Rattle.walk.specs.View.{job_at, jobs_of, Short, Few};
ghost use Rattle.timetable.specs.Model.{lines_of_all, raised};
ghost use Rattle.timetable.specs.BeginSteps.{chunks, Raises, RaisesAll};
ghost use Rattle.timetable.specs.DueSteps.{IsDue};

use crate::Due;
use booking::Cells;
use keys::Key;
use limits::FarmCosts;
use walk::{FreeTimes, Job, QueueEntry, chunk_on, chunk_terms, occupied, row};

// What jobs leave once they have begun: the free times, and the held ticks.
#[derive(Clone, Copy)]
pub struct Begun {
    pub times: FreeTimes,
    pub held: [u64; 32],
}

// Of some jobs those that start by `time`. One pass, so that a move that begins nothing sorts nothing. It reads no
// cell, so what it promises holds whatever the rows hold.
pub fn due(jobs: &[QueueEntry], time: u64) -> Due
    requires { (length jobs.now ≤ 128) × All Short jobs.now }
    ensures { (ks xs : List ℕ) → IsDue (jobs_of ks xs jobs.now) (length jobs.now) time result }
{
    let mut keys = [Key::default(); 128];
    let mut count = 0;
    let mut lines = 0;
    for (place, job) in jobs.iter().enumerate() {
        if job.start <= time {
            keys[count] = Key {
                time: job.start,
                number: job.number,
                place,
            };
            count += 1;
            lines += job.count;
        }
    }
    Due {
        count,
        lines,
        keys: keys::sorted(keys, count),
    }
}

// How many lines some jobs have.
pub fn line_count(jobs: &[Job]) -> usize
    requires { (length jobs.now ≤ 128) × All Few jobs.now }
    ensures { (result ≡ chunks jobs.now) × (result ≤ 8192) }
{
    jobs.iter().map(|job| job.booking.count).sum()
}

// Raises the held ticks of the show of the job at a place: each of its chunks adds its finish minus the start of its
// own send.
pub fn raise(costs: FarmCosts, job: QueueEntry, cells: &Cells, place: usize, held: &mut [u64; 32])
    requires { (place < 128) × Raises costs held.old (job_at cells.now.nodes cells.now.shares place job) }
    ensures { held.new ≡ raised held.old (lines_of costs (job_at cells.now.nodes cells.now.shares place job)) }
{
    let cell = (job.show - 1) as usize;
    let terms = chunk_terms(costs, &job);
    let (nodes, shares) = row(cells, place, job.count);
    let mut last = job.start;
    for (&node, &units) in nodes.iter().zip(shares) {
        let chunk = chunk_on(terms, node, units, last);
        held[cell] += chunk.finish.saturating_sub(chunk.start);
        last = chunk.sent;
    }
}

// The free times and the held ticks once the jobs that some keys name have begun, one after the other.
pub fn begun_by(
    costs: FarmCosts,
    times: FreeTimes,
    held: [u64; 32],
    jobs: &[QueueEntry; 128],
    cells: &Cells,
    keys: &[Key],
) -> Begun
    requires { (length keys.now ≤ 128) × All (λ (k : Key). k.place < 128) keys.now × RaisesAll costs held (in_order (jobs_of cells.now.nodes cells.now.shares jobs.now) keys.now) }
    ensures { (result.times ≡ afters times (lines_of_all costs (in_order (jobs_of cells.now.nodes cells.now.shares jobs.now) keys.now))) × (result.held ≡ raised held (lines_of_all costs (in_order (jobs_of cells.now.nodes cells.now.shares jobs.now) keys.now))) × (length result.held ≡ 32) }
{
    let mut begun = Begun { times, held };
    for key in keys {
        let job = jobs[key.place];
        occupied(costs, job, cells, key.place, &mut begun.times);
        raise(costs, job, cells, key.place, &mut begun.held);
    }
    begun
}
