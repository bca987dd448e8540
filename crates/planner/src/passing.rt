// Question 11: whether a farm is opened, each of its figures is within its limits, and its waiting bookings are sound.
// Nothing is taken for granted of the figures.
ghost use Rattle.std.specs.Prelude.{◌≡◌, List, ℕ, true, false, MatchResult};
ghost use Rattle.planner.specs.Model.{farm_of, meant};
ghost use Rattle.planner.specs.Passes.{counts_within, times_within, passes_of};
ghost use Rattle.planner.specs.PassesSteps.{farm_within};

use crate::{Farm, Figures};
use answers::Question;
use limits::{GREATEST, MOST_HELD, all_at_most, costs_within};
use queue::jobs_of;
use soundness::{JobBounds, waiting_pass};

impl Figures {
    // Two conjunctions, so that each proof stays short: the figures that are no times ..
    #[tactic(auto, unfolding(crate::specs::Passes::counts_within))]
    fn counts_within(&self) -> bool
        ensures { (ks xs : List ℕ) → result ≡ counts_within (farm_of self.now ks xs) }
    {
        (1..=64).contains(&self.nodes)
            && costs_within(self.costs)
            && (1..=32).contains(&self.shows)
            && all_at_most(&self.allowances, self.shows, GREATEST)
            && all_at_most(&self.held, self.shows, MOST_HELD)
    }

    // .. and the times, with the counts of jobs.
    #[tactic(auto, unfolding(crate::specs::Passes::times_within))]
    fn times_within(&self) -> bool
        ensures { (ks xs : List ℕ) → result ≡ times_within (farm_of self.now ks xs) }
    {
        self.clock <= GREATEST
            && self.link <= GREATEST
            && all_at_most(&self.free, self.nodes, GREATEST)
            && self.used <= GREATEST
            && self.waiting <= 128
    }

    // Opened, and its figures within their limits.
    fn within(&self) -> bool
        ensures { (ks xs : List ℕ) → result ≡ farm_within (farm_of self.now ks xs) }
    {
        self.opened && self.counts_within() && self.times_within()
    }
}

// The answer to question 11.
pub fn passes(farm: &Farm) -> bool
    ensures { result ≡ passes_of (meant farm.now) }
{
    let figures = &farm.figures;
    if !figures.within() {
        return false;
    }
    let bounds = JobBounds {
        terms: figures.walk_terms(),
        shows: figures.shows,
        used: figures.used,
    };
    let waiting = figures.waiting;
    let jobs = jobs_of(&figures.jobs[..waiting], &farm.cells);
    waiting_pass(bounds, figures.free_times(), &jobs[..waiting])
}

// Question 11, in front of what is done past it.
pub fn passed(farm: &Farm) -> Result<(), Question>
    ensures { MatchResult result (λ _. passes_of (meant farm.now) ≡ true) (λ question. (question ≡ Question.Farm) × (passes_of (meant farm.now) ≡ false)) }
{
    if passes(farm) {
        Ok(())
    } else {
        Err(Question::Farm)
    }
}
