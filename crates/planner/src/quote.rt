// A quote before the offer. What is offered is decided as an offer to a copy would be, and the farm stays as it is.
ghost use Rattle.std.specs.Prelude.{true, ◌≡◌};
ghost use Rattle.planner.specs.Model.{meant};
ghost use Rattle.planner.specs.Passes.{passes_of};
ghost use Rattle.planner.specs.Calls.{said, Tells, quote_said};

use crate::offers::decide_offer;
use crate::passing::passed;
use crate::{Farm, Reply};
use answers::{Answer, Offer, as_quote};
use booking::Cells;

// What an offer to a farm that passes question 11 would be told.
pub fn quote_unchecked(farm: &Farm, offer: Offer, plan: &mut Cells) -> Answer
    requires { passes_of (meant farm.now) ≡ true }
    ensures { said result ≡ quote_said (meant farm.now) offer }
{
    let decision = decide_offer(farm, offer, plan)?;
    as_quote(Ok(decision.answer))
}

impl Farm {
    // What an offer would be told: questions 11, 4, 5, 2, 6, 7 and 8 in that order.
    pub fn quote(self, offer: Offer) -> Reply
        ensures { Tells self result (quote_said (meant self) offer) }
    {
        Reply {
            answer: self.quote_answer(offer),
            farm: self,
        }
    }

    // The answer of a quote by itself, for a caller that keeps the farm.
    #[tactic(auto, using(crate::specs::CallsSteps::quote_unsound))]
    pub fn quote_answer(self, offer: Offer) -> Answer
        ensures { said result ≡ quote_said (meant self) offer }
    {
        passed(&self)?;
        let mut plan = Cells::empty();
        quote_unchecked(&self, offer, &mut plan)
    }
}
