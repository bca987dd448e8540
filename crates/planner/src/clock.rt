// A clock move and showing the timetable.
ghost use Rattle.std.specs.Prelude.{true, ◌≡◌, length};
ghost use Rattle.planner.specs.Model.{meant};
ghost use Rattle.planner.specs.Passes.{passes_of};
ghost use Rattle.planner.specs.Calls.{Replies, Tells};
ghost use Rattle.planner.specs.Clock.{move_said, move_farm, move_memory, shown_said, shown_memory, moved_farm};
ghost use Rattle.planner.specs.ClockSteps.{Begins, MoveDecides};

use crate::calls::refused;
use crate::passing::passes;
use crate::{Farm, Move, Reply, Timetable};
use answers::{Granted, Question};
use limits::GREATEST;
use queue::{jobs_of, row_moved};
use timetable::Due;
use timetable::begin::{Begun, begun_by, due, line_count};
use timetable::lines::write_lines;
use walk::{Chunk, FreeTimes, by_start, gathered};

// A clock move on a farm that passes question 11: questions 9 and 10 in that order, and what begins by that time, also
// where the move is refused. The farm stays as it is: the caller may change one figure of it where nothing begins.
pub fn move_unchecked(farm: &Farm, time: u64, room: usize) -> Move
    requires { passes_of (meant farm.now) ≡ true }
    ensures { MoveDecides (meant farm.now) time room result }
{
    farm.whole();
    let figures = &farm.figures;
    let due = due(&figures.jobs[..figures.waiting], time);
    if !(figures.clock..=GREATEST).contains(&time) {
        return Move {
            answer: Err(Question::Time),
            due,
        };
    }
    if room < due.lines {
        return Move {
            answer: Err(Question::Lines),
            due,
        };
    }
    Move {
        answer: Ok(Granted::Clock {
            time,
            lines: due.lines as u64,
        }),
        due,
    }
}

// The farm moved to `time`: what is due begins, in order of start, and the others keep the order that they have, each
// with its cells.
pub fn moved(farm: &mut Farm, due: Due, time: u64)
    requires { Begins (meant farm.old) time due }
    ensures { meant farm.new ≡ moved_farm (meant farm.old) time }
{
    farm.whole();
    let Begun {
        times: FreeTimes { link, free },
        held,
    } = begun_by(
        farm.figures.costs,
        farm.figures.free_times(),
        farm.figures.held,
        &farm.figures.jobs,
        &farm.cells,
        &due.keys[..due.count],
    );
    let mut kept = 0;
    // By places: jobs move up within the array that the loop reads, each with its row.
    for i in 0..farm.figures.waiting {
        let job = farm.figures.jobs[i];
        if time < job.start {
            if kept < i {
                row_moved(&mut farm.cells, kept, i, job.count);
                farm.figures.jobs[kept] = job;
            }
            kept += 1;
        }
    }
    farm.figures.held = held;
    farm.figures.clock = time;
    farm.figures.link = link;
    farm.figures.free = free;
    farm.figures.waiting = kept;
}

impl Farm {
    // A clock move to `time`: the lines that it issues are written to the front of the timetable.
    pub fn clock(mut self, time: u64, out: &mut [Chunk]) -> Reply
        ensures { Replies self result (move_said (meant self) time (length out.old)) (move_farm (meant self) time (length out.old)) × (out.new ≡ move_memory (meant self) time out.old) }
    {
        if !passes(&self) {
            return refused(self, Question::Farm);
        }
        let step = move_unchecked(&self, time, out.len());
        if step.answer.is_err() {
            return Reply {
                answer: step.answer,
                farm: self,
            };
        }
        let due = step.due;
        let waiting = jobs_of(&self.figures.jobs[..self.figures.waiting], &self.cells);
        let jobs = gathered(&waiting, &due.keys[..due.count]);
        write_lines(out, self.figures.costs, &jobs[..due.count]);
        moved(&mut self, due, time);
        Reply {
            answer: step.answer,
            farm: self,
        }
    }

    // The lines of every waiting booking, and their count.
    pub fn show(self, out: &mut [Chunk]) -> Reply
        ensures { Tells self result (shown_said (meant self) (length out.old)) × (out.new ≡ shown_memory (meant self) out.old) }
    {
        if !passes(&self) {
            return refused(self, Question::Farm);
        }
        let waiting = self.figures.waiting;
        let jobs = jobs_of(&self.figures.jobs[..waiting], &self.cells);
        let ordered = by_start(&jobs, waiting);
        let total = line_count(&ordered[..waiting]);
        if out.len() < total {
            return refused(self, Question::Lines);
        }
        write_lines(out, self.figures.costs, &ordered[..waiting]);
        Reply {
            answer: Ok(Granted::Shown {
                lines: total as u64,
            }),
            farm: self,
        }
    }

    // A clock move that is lent 1,024 records by value, for a caller that lends no memory of its own.
    // What may not change: docs/THEOREMS.md names it and `show_by_value`, as it does the methods that only answer.
    pub fn clock_by_value(self, time: u64, mut lines: [Chunk; 1024]) -> Timetable
        ensures { Replies self result.reply (move_said (meant self) time 1024) (move_farm (meant self) time 1024) × (result.lines ≡ move_memory (meant self) time lines) }
    {
        let reply = self.clock(time, &mut lines);
        Timetable { reply, lines }
    }

    // Showing, lent 1,024 records by value.
    pub fn show_by_value(self, mut lines: [Chunk; 1024]) -> Timetable
        ensures { Tells self result.reply (shown_said (meant self) 1024) × (result.lines ≡ shown_memory (meant self) lines) }
    {
        let reply = self.show(&mut lines);
        Timetable { reply, lines }
    }
}
