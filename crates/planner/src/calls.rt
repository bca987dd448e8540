// Opening a farm, and a show's account.
ghost use Rattle.std.specs.Prelude.{true, ◌≡◌};
ghost use Rattle.planner.specs.Model.{meant};
ghost use Rattle.planner.specs.Passes.{passes_of};
ghost use Rattle.planner.specs.Calls.{said, Tells, Opens, open_said, open_farm, account_said};
ghost use Rattle.planner.specs.Parts.{unopened_figures, OpensFigures};

use crate::passing::passed;
use crate::{Farm, Figures, Opening, Reply};
use answers::{Answer, Granted, Question, columns};
use booking::Cells;
use limits::{FarmCosts, GREATEST, all_at_most, costs_within};
use queue::empty_job;

// The figures of the unopened farm, the same one each time.
fn unopened_figures() -> Figures
    ensures { result ≡ unopened_figures }
{
    Figures {
        opened: false,
        nodes: 0,
        costs: FarmCosts {
            send: 0,
            compute: 0,
            linksetup: 0,
            nodesetup: 0,
            returning: 0,
        },
        shows: 0,
        allowances: [0; 32],
        held: [0; 32],
        clock: 0,
        link: 0,
        free: [0; 64],
        used: 0,
        waiting: 0,
        jobs: [empty_job(); 128],
    }
}

// A refused opening comes to the unopened farm.
fn not_opened(question: Question) -> Opening
    ensures { result ≡ record { answer = Err question; figures = unopened_figures } }
{
    Opening {
        answer: Err(question),
        figures: unopened_figures(),
    }
}

// Opening: questions 1, 2 and 3 in that order.
pub fn open_figures(nodes: u64, costs: FarmCosts, allowances: &[u64]) -> Opening
    ensures { OpensFigures result (open_said nodes costs allowances.now) (open_farm nodes costs allowances.now) }
{
    if !(1..=64).contains(&nodes) {
        return not_opened(Question::Nodes);
    }
    if !costs_within(costs) {
        return not_opened(Question::Costs);
    }
    let shows = allowances.len();
    if !(1..=32).contains(&shows) {
        return not_opened(Question::Shows);
    }
    if !all_at_most(allowances, shows, GREATEST) {
        return not_opened(Question::Shows);
    }
    let mut row = [0; 32];
    row[..shows].copy_from_slice(allowances);
    Opening {
        answer: Ok(Granted::Open {
            nodes,
            shows: shows as u64,
        }),
        figures: Figures {
            opened: true,
            nodes: nodes as usize,
            costs,
            shows,
            allowances: row,
            ..unopened_figures()
        },
    }
}

// What a show has held, and what it is charged, on a farm that passes question 11: question 4.
#[tactic(auto, unfolding(crate::specs::Calls::account_said))]
pub fn account_unchecked(farm: &Farm, show: u64) -> Answer
    requires { passes_of (meant farm.now) ≡ true }
    ensures { said result ≡ account_said (meant farm.now) show }
{
    let figures = &farm.figures;
    if !(1..=figures.shows as u64).contains(&show) {
        return Err(Question::Show);
    }
    Ok(columns(&figures.held, &figures.allowances, show))
}

impl Farm {
    // Opening: questions 1, 2 and 3 in that order.
    pub fn open(nodes: u64, costs: FarmCosts, allowances: &[u64]) -> Reply
        ensures { Opens result (open_said nodes costs allowances.now) (open_farm nodes costs allowances.now) }
    {
        let opening = open_figures(nodes, costs, allowances);
        Reply {
            answer: opening.answer,
            farm: Farm {
                figures: opening.figures,
                cells: Cells::empty(),
            },
        }
    }

    // What a show has held, and what it is charged: the held ticks above its allowance. Questions 11 and 4 in that
    // order.
    pub fn account(self, show: u64) -> Reply
        ensures { Tells self result (account_said (meant self) show) }
    {
        Reply {
            answer: self.account_answer(show),
            farm: self,
        }
    }

    // The answer by itself, for a caller that keeps the farm.
    #[tactic(auto, unfolding(crate::specs::Calls::account_said))]
    pub fn account_answer(self, show: u64) -> Answer
        ensures { said result ≡ account_said (meant self) show }
    {
        passed(&self)?;
        account_unchecked(&self, show)
    }
}

// A refusal hands back the farm as it was.
pub fn refused(farm: Farm, question: Question) -> Reply
    ensures { result ≡ record { answer = Err question; farm = farm } }
{
    Reply {
        answer: Err(question),
        farm,
    }
}
