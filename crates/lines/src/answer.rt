// The lines of answers.
ghost use Rattle.std.specs.Prelude.{◌++◌, ◌≡◌, ◌+◌, ◌*◌, ◌≤◌, length};
ghost use Rattle.planner.specs.Calls.{said, told};
ghost use Rattle.text.specs.Writing.{WroteWithin};
ghost use Rattle.lines.specs.Model.{answer_text};
ghost use Rattle.lines.specs.AnswerLines.{largest, row_texts};

use answers::{Answer, Granted};
use printing::{Word, put};

// Writes what a call that is granted answers: its word with its values.
#[tactic(auto, unfolding(crate::specs::Model::answer_text))]
fn put_granted(out: &mut [u8], at: usize, granted: Granted) -> usize
    requires { at + 176 ≤ length out.old }
    ensures { WroteWithin 176 (answer_text (told granted)) at out.old out.new result }
{
    match granted {
        Granted::Open { nodes, shows } => put(out, at, Word::Open, &[nodes, shows]),
        Granted::Yes {
            job,
            start,
            finish,
            nodes,
        } => put(out, at, Word::Yes, &[job, start, finish, nodes]),
        Granted::Clock { time, lines } => put(out, at, Word::Clock, &[time, lines]),
        Granted::Shown { lines } => put(out, at, Word::Chunk, &[lines]),
        Granted::Account {
            show,
            held,
            charged,
        } => put(out, at, Word::Account, &[show, held, charged]),
        Granted::Gone { job } => put(out, at, Word::Gone, &[job]),
        Granted::Quote {
            job,
            start,
            finish,
            nodes,
        } => put(out, at, Word::Quote, &[job, start, finish, nodes]),
    }
}

// Writes the answer to a call at place `at`, and answers the place behind it: its word with its values where it was
// granted, `no` with its number where it was refused.
#[tactic(auto, unfolding(crate::specs::Model::answer_text))]
pub fn put_answer(out: &mut [u8], at: usize, answer: Answer) -> usize
    requires { at + 176 ≤ length out.old }
    ensures { WroteWithin 176 (answer_text (said answer)) at out.old out.new result }
{
    match answer {
        Ok(granted) => put_granted(out, at, granted),
        Err(question) => put(out, at, Word::No, &[question.into()]),
    }
}

// Writes the lines of the records that are these rows at place `at`, and answers the place behind them.
fn put_rows(out: &mut [u8], at: usize, rows: &[[u64; 8]]) -> usize
    requires { (length rows.now ≤ 1024) × (at + length rows.now * 176 ≤ length out.old) }
    ensures { WroteWithin (length rows.now * 176) (row_texts rows.now) at out.old out.new result }
{
    let mut place = at;
    for row in rows {
        place = put(out, place, Word::Chunk, row);
    }
    place
}

// Writes what a clock move that issued lines answers: its lines first, then its answer.
pub fn put_move(out: &mut [u8], at: usize, rows: &[[u64; 8]], answer: Answer) -> usize
    requires { (length rows.now ≤ 1024) × (at + largest ≤ length out.old) }
    ensures { WroteWithin largest (row_texts rows.now ++ answer_text (said answer)) at out.old out.new result }
{
    let place = put_rows(out, at, rows);
    put_answer(out, place, answer)
}
