// The farm: opening, offers, quotes, withdrawals, clock moves, showing and accounts. A call takes the farm as a value
// and hands the next one back, or is lent it behind question 11. What each call means is in specs/Calls.antt and
// specs/Clock.antt.
#![tactic(auto)]

ghost use Rattle.std.specs.Prelude.{◌≡◌};
ghost use Rattle.planner.specs.Parts.{FiguresSized, CellsSized};

mod calls;
mod clock;
mod offers;
mod passing;
mod quote;
mod withdraw;

use answers::{Answer, Granted};
use booking::Cells;
pub use calls::{account_unchecked, open_figures};
pub use clock::{move_unchecked, moved};
use limits::FarmCosts;
pub use offers::offer_unchecked;
pub use quote::quote_unchecked;
use timetable::Due;
use walk::{Chunk, FreeTimes, QueueEntry, WalkTerms};
pub use withdraw::withdraw_unchecked;

// The figures of a farm: all but the cells of its bookings. The first `shows` allowances and held ticks, the first
// `nodes` free times and the first `waiting` jobs count; what stands past them is not looked at.
// What may not change: document 01 has the jobs as an array by value, `farm_of`, `passes_of` and `meant` speak of the
// counts and of `opened`, and a farm can be copied, which one with the kit's ArrayVec cannot.
#[derive(Clone, Copy)]
pub struct Figures {
    pub opened: bool,
    pub nodes: usize,
    pub costs: FarmCosts,
    pub shows: usize,
    pub allowances: [u64; 32],
    pub held: [u64; 32],
    pub clock: u64,
    pub link: u64,
    pub free: [u64; 64],
    pub used: u64,
    pub waiting: usize,
    pub jobs: [QueueEntry; 128],
}

impl Figures {
    // What a walk knows of the farm besides its free times.
    fn walk_terms(&self) -> WalkTerms
        ensures { result ≡ record { costs = self.now.costs; nodes = self.now.nodes; clock = self.now.clock } }
    {
        WalkTerms {
            costs: self.costs,
            nodes: self.nodes,
            clock: self.clock,
        }
    }

    // When the link and each node come free.
    fn free_times(&self) -> FreeTimes
        ensures { result ≡ record { link = self.now.link; free = self.now.free } }
    {
        FreeTimes {
            link: self.link,
            free: self.free,
        }
    }
}

// The farm: its figures, and the cells of its waiting bookings. A method takes it as a value; a function behind question
// 11 is lent it, so that a caller who keeps it copies nothing.
#[derive(Clone, Copy)]
pub struct Farm {
    pub figures: Figures,
    pub cells: Cells,
}

impl Farm {
    // That a lent farm's arrays are whole. A proof knows the length of what is lent where it is read, and here it is.
    fn whole(&self)
        ensures { FiguresSized self.now.figures × CellsSized self.now.cells.nodes self.now.cells.shares }
    {
        let figures = &self.figures;
        let _times = (figures.allowances[0], figures.held[0], figures.free[0]);
        let _rows = (
            figures.jobs[0].start,
            self.cells.nodes[0],
            self.cells.shares[0],
        );
    }
}

// An answer, with the farm that is handed back.
#[derive(Clone, Copy)]
pub struct Reply {
    pub answer: Answer,
    pub farm: Farm,
}

// What an opening comes to: its answer, and the figures of the farm. It uses no cell. It is no Result: a refused
// opening hands back the unopened farm (`OpensFigures`, specs/Parts.antt).
#[derive(Clone, Copy)]
pub struct Opening {
    pub answer: Answer,
    pub figures: Figures,
}

// What an accepted offer comes to: its answer, the count of numbers used then and the first `waiting` of these jobs,
// which wait then; the cells of their bookings are in the plan.
#[derive(Clone, Copy)]
pub struct Decision {
    pub answer: Granted,
    pub used: u64,
    pub waiting: usize,
    pub jobs: [QueueEntry; 128],
}

// What a clock move comes to before its lines are written: its answer, and what begins by its time. It is no Result:
// what would have begun is said of a refused move too (`MoveDecides`, specs/ClockSteps.antt).
#[derive(Clone, Copy)]
pub struct Move {
    pub answer: Answer,
    pub due: Due,
}

// A reply, with the lent memory by value.
#[derive(Clone, Copy)]
pub struct Timetable {
    pub reply: Reply,
    pub lines: [Chunk; 1024],
}
