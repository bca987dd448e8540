// The lines of a timetable, written to lent memory.
ghost use Rattle.std.specs.Prelude.{◌≡◌, ◌++◌, map, ◌+◌, ◌≤◌, ◌<◌, length, drop};
ghost use Rattle.lists.specs.Laws.{All};
ghost use Rattle.limits.specs.Model.{CostsWithin};
ghost use Rattle.walk.specs.declared.Chunk.{Chunk};
ghost use Rattle.walk.specs.Model.{greatest, chunks_from, latest, in_order};
ghost use Rattle.walk.specs.View.{jobs_of};
ghost use Rattle.walk.specs.Chunks.{Sendable};
ghost use Rattle.timetable.specs.Model.{lines_of_all, chunk_row};
ghost use Rattle.timetable.specs.BeginSteps.{chunks};
ghost use Rattle.timetable.specs.LinesSteps.{Filled};

use booking::Cells;
use keys::Key;
use limits::FarmCosts;
use walk::{Chunk, ChunkTerms, Job, QueueEntry, chunk_on, chunk_terms, row};

// What a line is written as.
trait Line: Copy {
    ghost written: { Chunk → Self };

    fn written(line: Chunk) -> Self
        ensures { result ≡ written line };
}

// The record itself.
impl Line for Chunk {
    ghost written = { λ line. line };

    fn written(line: Chunk) -> Chunk {
        line
    }
}

// A row of the record's eight numbers.
impl Line for [u64; 8] {
    ghost written = { chunk_row };

    fn written(c: Chunk) -> [u64; 8] {
        [
            c.job, c.show, c.node, c.units, c.start, c.sent, c.finish, c.computed,
        ]
    }
}

// Writes a job's lines from place `at` on: those of its chunks' nodes and shares, sent from its start on.
fn write_job<L: Line>(
    out: &mut [L],
    at: usize,
    terms: ChunkTerms,
    start: u64,
    nodes: &[u8],
    shares: &[u32],
)
    requires { CostsWithin terms.costs × (terms.compute ≤ 1_000_000) × (length nodes.now ≡ length shares.now) × (at + length nodes.now ≤ length out.old) × (latest start (chunks_from terms start nodes.now shares.now) ≤ greatest) }
    ensures { out.new ≡ Filled out.old at (map L.written (chunks_from terms start nodes.now shares.now)) (at + length nodes.now) }
{
    let mut last = start;
    for (i, (&node, &units)) in nodes.iter().zip(shares).enumerate() {
        let line = chunk_on(terms, node, units, last);
        out[at + i] = L::written(line);
        last = line.sent;
    }
}

// Writes the lines of some jobs to the front.
pub fn write_lines(out: &mut [Chunk], costs: FarmCosts, jobs: &[Job])
    requires { All (Sendable costs) jobs.now × (chunks jobs.now ≤ length out.old) }
    ensures { out.new ≡ lines_of_all costs jobs.now ++ drop (chunks jobs.now) out.old }
{
    let mut at = 0;
    for job in jobs {
        let booking = &job.booking;
        let count = booking.count;
        write_job(
            out,
            at,
            chunk_terms(costs, job),
            booking.start,
            &booking.nodes[..count],
            &booking.shares[..count],
        );
        at += count;
    }
}

// Writes the lines of the jobs that some keys name to the front of 1,024 records, each a row of the record's eight
// numbers. Its loop is not that of `write_lines`: a job is named by a key, and its cells stand in a row.
pub fn write_rows(
    rows: &mut [[u64; 8]; 1024],
    costs: FarmCosts,
    jobs: &[QueueEntry; 128],
    cells: &Cells,
    keys: &[Key],
)
    requires { All (λ (k : Key). k.place < 128) keys.now × All (Sendable costs) (in_order (jobs_of cells.now.nodes cells.now.shares jobs.now) keys.now) × (chunks (in_order (jobs_of cells.now.nodes cells.now.shares jobs.now) keys.now) ≤ 1024) }
    ensures { rows.new ≡ map chunk_row (lines_of_all costs (in_order (jobs_of cells.now.nodes cells.now.shares jobs.now) keys.now)) ++ drop (chunks (in_order (jobs_of cells.now.nodes cells.now.shares jobs.now) keys.now)) rows.old }
{
    let mut at = 0;
    for key in keys {
        let job = jobs[key.place];
        let (nodes, shares) = row(cells, key.place, job.count);
        write_job(rows, at, chunk_terms(costs, &job), job.start, nodes, shares);
        at += job.count;
    }
}
