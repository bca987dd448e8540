// An offer: its questions, the walk of the waiting jobs and the new one, and what it is told.
ghost use Rattle.std.specs.Prelude.{true, ◌≡◌};
ghost use Rattle.walk.specs.View.{bare};
ghost use Rattle.planner.specs.Model.{meant};
ghost use Rattle.planner.specs.Passes.{passes_of};
ghost use Rattle.planner.specs.Calls.{Replies, offer_said, offer_farm};
ghost use Rattle.planner.specs.Parts.{Plans};
ghost use Rattle.planner.specs.CallsSteps.{Offered};
ghost use Rattle.planner.specs.OfferSteps.{walk_said, walk_farm};

use crate::calls::refused;
use crate::passing::passes;
use crate::{Decision, Farm, Reply};
use answers::{Answer, Offer, Question, ask, compute_or, yes};
use booking::Cells;
use queue::{new_job, place_of, rows_taken};
use walk::{QueueEntry, job_at, walked};

// Question 8: whether the walk books every waiting job and the new one, and the jobs with their bookings, whose cells
// are in the rows of the plan.
fn planned(farm: &Farm, job: QueueEntry, plan: &mut Cells) -> Result<Decision, Question>
    requires { Offered (meant farm.now) (bare job) }
    ensures { Plans farm.now.figures farm.now.cells.nodes farm.now.cells.shares (walk_said (meant farm.now) (bare job)) (walk_farm (meant farm.now) (bare job)) result plan.new.nodes plan.new.shares }
{
    farm.whole();
    let figures = &farm.figures;
    let mut queued = figures.jobs;
    queued[figures.waiting] = job;
    let waiting = figures.waiting + 1;
    let Some(jobs) = walked(
        figures.walk_terms(),
        figures.free_times(),
        &queued,
        waiting,
        plan,
    ) else {
        return Err(Question::Walk);
    };
    let place = place_of(&jobs[..waiting], job.number).unwrap();
    let told = job_at(jobs[place], plan, place);
    Ok(Decision {
        answer: yes(figures.costs, &told),
        used: figures.used + 1,
        waiting,
        jobs,
    })
}

// What an offer to a farm that passes question 11 is told and, where it is accepted, the jobs that wait then, the cells
// of their bookings in the rows of the plan: nothing of the farm is changed, so that it serves a quote too.
pub fn decide_offer(farm: &Farm, offer: Offer, plan: &mut Cells) -> Result<Decision, Question>
    requires { passes_of (meant farm.now) ≡ true }
    ensures { Plans farm.now.figures farm.now.cells.nodes farm.now.cells.shares (offer_said (meant farm.now) offer) (offer_farm (meant farm.now) offer) result plan.new.nodes plan.new.shares }
{
    let figures = &farm.figures;
    let compute = compute_or(figures.costs.compute, offer.compute);
    ask(
        figures.shows,
        figures.clock,
        figures.waiting,
        figures.used,
        offer,
        compute,
    )?;
    let job = new_job(
        figures.used + 1,
        offer.show,
        offer.size as u32,
        compute as u32,
        offer.deadline,
    );
    planned(farm, job, plan)
}

// An offer to a farm that passes question 11. Where it is accepted its jobs wait from now on, and the rows of the plan
// that are in use become the farm's.
pub fn offer_unchecked(farm: &mut Farm, offer: Offer, plan: &mut Cells) -> Answer
    requires { passes_of (meant farm.old) ≡ true }
    ensures { Replies farm.old (record { answer = result; farm = farm.new }) (offer_said (meant farm.old) offer) (offer_farm (meant farm.old) offer) }
{
    let decision = decide_offer(farm, offer, plan)?;
    rows_taken(&mut farm.cells, plan, &decision.jobs[..decision.waiting]);
    farm.figures.used = decision.used;
    farm.figures.waiting = decision.waiting;
    farm.figures.jobs = decision.jobs;
    Ok(decision.answer)
}

impl Farm {
    // An offer: questions 11, 4, 5, 2, 6, 7 and 8 in that order.
    pub fn offer(mut self, offer: Offer) -> Reply
        ensures { Replies self result (offer_said (meant self) offer) (offer_farm (meant self) offer) }
    {
        if !passes(&self) {
            return refused(self, Question::Farm);
        }
        let mut plan = Cells::empty();
        let answer = offer_unchecked(&mut self, offer, &mut plan);
        Reply { answer, farm: self }
    }
}
