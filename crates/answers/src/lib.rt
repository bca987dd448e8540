// What a call is asked and what it says: offers, questions and answers, and the answers that are worked out of a job or
// of a show's figures. It knows no farm. What each answer means is in specs/Model.antt.
#![tactic(auto)]

ghost use Rattle.std.specs.Prelude.{[], ◌∷◌, ◌≡◌, ◌-◌, ◌≤◌, get_or};
ghost use Rattle.walk.specs.Chunks.{Sendable};
ghost use Rattle.answers.specs.Model.{Account, said, told, granted, number_of, compute_or, asks_offer, yes_of, as_quote};
ghost use Rattle.answers.specs.Steps.{asked_of};

use limits::{FarmCosts, deadline_within, place_left};
use walk::{Job, finish_of};

// What is offered: a show's job of a size by a deadline, with its compute cost, or without where the farm's serves.
#[derive(Clone, Copy)]
pub struct Offer {
    pub show: u64,
    pub size: u64,
    pub deadline: u64,
    pub compute: Option<u64>,
}

// The question that was answered no, with its number.
#[derive(Clone, Copy, PartialEq, Eq)]
pub enum Question {
    Nodes = 1,
    Costs = 2,
    Shows = 3,
    Show = 4,
    Size = 5,
    Deadline = 6,
    Queue = 7,
    Walk = 8,
    Time = 9,
    Lines = 10,
    Farm = 11,
    Waiting = 12,
}

impl From<Question> for u64 {
    ghost from_gives = { λ question number. number ≡ number_of question };

    fn from(question: Question) -> u64 {
        question as u64
    }
}

// What a call answers that is granted.
#[derive(Clone, Copy)]
pub enum Granted {
    Open {
        nodes: u64,
        shows: u64,
    },
    Yes {
        job: u64,
        start: u64,
        finish: u64,
        nodes: u64,
    },
    Clock {
        time: u64,
        lines: u64,
    },
    Shown {
        lines: u64,
    },
    Account {
        show: u64,
        held: u64,
        charged: u64,
    },
    Gone {
        job: u64,
    },
    // The four numbers of `Yes`, named where they are told: a struct in both would be no plainer.
    Quote {
        job: u64,
        start: u64,
        finish: u64,
        nodes: u64,
    },
}

// What a call answers.
pub type Answer = Result<Granted, Question>;

// The compute cost that is given, otherwise the farm's.
pub fn compute_or(farms: u64, cost: Option<u64>) -> u64
    ensures { result ≡ compute_or farms cost }
{
    cost.unwrap_or(farms)
}

// Questions 4, 5, 2, 6 and 7 in that order, by a farm's shows, clock, waiting jobs and used numbers; `compute` is the
// compute cost that the job would have.
pub fn ask(
    shows: usize,
    clock: u64,
    waiting: usize,
    used: u64,
    offer: Offer,
    compute: u64,
) -> Result<(), Question>
    ensures { asked_of result ≡ asks_offer shows clock waiting used offer compute }
{
    // All tests first, then the questions in their order as five plain `if`s (docs/DECISIONS.md).
    let known = (1..=shows as u64).contains(&offer.show);
    let sized = (1..=1_000_000).contains(&offer.size);
    let priced = (1..=1_000_000).contains(&compute);
    let timely = deadline_within(clock, offer.deadline);
    let placed = place_left(waiting, used);
    if !known {
        return Err(Question::Show);
    }
    if !sized {
        return Err(Question::Size);
    }
    if !priced {
        return Err(Question::Costs);
    }
    if !timely {
        return Err(Question::Deadline);
    }
    if !placed {
        return Err(Question::Queue);
    }
    Ok(())
}

// The answer to an accepted offer.
pub fn yes(costs: FarmCosts, job: &Job) -> Granted
    requires { Sendable costs job.now }
    ensures { told result ≡ yes_of costs job.now }
{
    Granted::Yes {
        job: job.number,
        start: job.booking.start,
        finish: finish_of(costs, job),
        nodes: job.booking.count as u64,
    }
}

// The answer to an offer as that to a quote: another word for `yes`.
pub fn as_quote(answer: Answer) -> Answer
    ensures { said result ≡ as_quote (said answer) }
{
    answer.map(|granted| match granted {
        Granted::Yes {
            job,
            start,
            finish,
            nodes,
        } => Granted::Quote {
            job,
            start,
            finish,
            nodes,
        },
        _ => granted,
    })
}

// A show's two columns: its held ticks, and those above its allowance.
pub fn columns(held: &[u64; 32], allowances: &[u64; 32], show: u64) -> Granted
    requires { (1 ≤ show) × (show ≤ 32) }
    ensures { told result ≡ granted Account (show ∷ get_or held.now (show - 1) 0 ∷ (get_or held.now (show - 1) 0 - get_or allowances.now (show - 1) 0) ∷ []) }
{
    let place = (show - 1) as usize;
    let ticks = held[place];
    Granted::Account {
        show,
        held: ticks,
        charged: ticks.saturating_sub(allowances[place]),
    }
}
