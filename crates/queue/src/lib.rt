// Waiting jobs: the empty one and a new one, jobs put together with their cells, and the rows of cells taken over or
// moved with them. It knows jobs, and no farm. What is said of jobs by their numbers is in specs/Model.antt.
#![tactic(auto)]

ghost use Rattle.std.specs.Prelude.{◌≡◌, ◌≤◌, ◌<◌, ◌==◌, length, take, position};
ghost use Rattle.lists.specs.Laws.{All};
ghost use Rattle.lists.specs.Rows.{Alike};
ghost use Rattle.walk.specs.Model.{empty_job};
ghost use Rattle.walk.specs.View.{jobs_of, no_entry, Short, use_of};
ghost use Rattle.queue.specs.RowSteps.{MovedUp};

use booking::{Booking, Cells};
use walk::{Job, QueueEntry, job_at};

// The empty job, which the array of waiting jobs is filled with.
pub fn empty_job() -> QueueEntry
    ensures { result ≡ no_entry }
{
    new_job(0, 0, 0, 0, 0)
}

// The job that is offered, not booked yet.
pub fn new_job(number: u64, show: u64, size: u32, compute: u32, deadline: u64) -> QueueEntry
    ensures { result ≡ record { number = number; show = show; size = size; compute = compute; deadline = deadline; start = 0; count = 0 } }
{
    QueueEntry {
        number,
        show,
        size,
        compute,
        deadline,
        start: 0,
        count: 0,
    }
}

// The empty job with an empty booking.
fn unbooked() -> Job
    ensures { result ≡ empty_job }
{
    Job {
        number: 0,
        show: 0,
        size: 0,
        compute: 0,
        deadline: 0,
        booking: Booking {
            start: 0,
            count: 0,
            nodes: [0; 64],
            shares: [0; 64],
        },
    }
}

// The place of the first job that has the number.
pub fn place_of(jobs: &[QueueEntry], number: u64) -> Option<usize>
    ensures { result ≡ position (λ j. j.number == number) jobs.now }
{
    jobs.iter().position(|job| job.number == number)
}

// Some jobs, each with its cells.
pub fn jobs_of(jobs: &[QueueEntry], cells: &Cells) -> [Job; 128]
    requires { length jobs.now ≤ 128 }
    ensures { (length result ≡ 128) × (take (length jobs.now) result ≡ jobs_of cells.now.nodes cells.now.shares jobs.now) }
{
    let mut out = [unbooked(); 128];
    for (i, job) in jobs.iter().enumerate() {
        out[i] = job_at(*job, cells, i);
    }
    out
}

// Takes over the rows of some jobs from other cells, as far as they are in use.
pub fn rows_taken(cells: &mut Cells, other: &Cells, jobs: &[QueueEntry])
    requires { (length jobs.now ≤ 128) × All Short jobs.now }
    ensures { Alike 64 (use_of jobs.now) (length jobs.now) cells.old.nodes other.now.nodes cells.new.nodes × Alike 64 (use_of jobs.now) (length jobs.now) cells.old.shares other.now.shares cells.new.shares }
{
    for (i, job) in jobs.iter().enumerate() {
        let at = i * 64;
        let end = at + job.count;
        cells.nodes[at..end].copy_from_slice(&other.nodes[at..end]);
        cells.shares[at..end].copy_from_slice(&other.shares[at..end]);
    }
}

// Moves the first `count` cells of the row at `from` up to the row at `place`.
pub fn row_moved(cells: &mut Cells, place: usize, from: usize, count: usize)
    requires { (place < from) × (from < 128) × (count ≤ 64) }
    ensures { MovedUp place from count cells.old.nodes cells.old.shares cells.new.nodes cells.new.shares }
{
    let at = from * 64;
    cells.nodes.copy_within(at..at + count, place * 64);
    cells.shares.copy_within(at..at + count, place * 64);
}
