// Withdrawing a waiting job. Nothing is walked: the others keep their bookings and their order.
ghost use Rattle.std.specs.Prelude.{true, ◌≡◌};
ghost use Rattle.planner.specs.Model.{meant};
ghost use Rattle.planner.specs.Passes.{passes_of};
ghost use Rattle.planner.specs.Calls.{Replies, withdraw_said, withdraw_farm};

use crate::calls::refused;
use crate::passing::passes;
use crate::{Farm, Reply};
use answers::{Answer, Granted, Question};
use queue::{place_of, row_moved};

// A waiting job leaves a farm that passes question 11, by its number: question 12. The jobs behind it move up by one,
// each with its row, so that all keep their order.
pub fn withdraw_unchecked(farm: &mut Farm, number: u64) -> Answer
    requires { passes_of (meant farm.old) ≡ true }
    ensures { Replies farm.old (record { answer = result; farm = farm.new }) (withdraw_said (meant farm.old) number) (withdraw_farm (meant farm.old) number) }
{
    farm.whole();
    let waiting = farm.figures.waiting;
    let Some(place) = place_of(&farm.figures.jobs[..waiting], number) else {
        return Err(Question::Waiting);
    };
    // By places: jobs move up within the array that the loop reads, each with its row.
    for i in place + 1..waiting {
        let job = farm.figures.jobs[i];
        row_moved(&mut farm.cells, i - 1, i, job.count);
        farm.figures.jobs[i - 1] = job;
    }
    farm.figures.waiting = waiting - 1;
    Ok(Granted::Gone { job: number })
}

impl Farm {
    // A waiting job leaves by its number: questions 11 and 12 in that order.
    pub fn withdraw(mut self, number: u64) -> Reply
        ensures { Replies self result (withdraw_said (meant self) number) (withdraw_farm (meant self) number) }
    {
        if !passes(&self) {
            return refused(self, Question::Farm);
        }
        let answer = withdraw_unchecked(&mut self, number);
        Reply { answer, farm: self }
    }
}
