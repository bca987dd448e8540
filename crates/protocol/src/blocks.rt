// A day fed in blocks.
ghost use Rattle.std.specs.Prelude.{◌≡◌, List, [], ℕ, ◌+◌, ◌≤◌, true, length};
ghost use Rattle.planner.specs.Model.{farm_of};
ghost use Rattle.planner.specs.Passes.{passes_of};
ghost use Rattle.planner.specs.Call.{reply, handed};
ghost use Rattle.planner.specs.Calls.{said, unopened};
ghost use Rattle.text.specs.Writing.{WroteWithin};
ghost use Rattle.lines.specs.Model.{part, opening_with};
ghost use Rattle.lines.specs.Orders.{command_call, query_call, order_of};
ghost use Rattle.lines.specs.Rows.{pending_of, allowances_in, FarmRow, by_row};
ghost use Rattle.lines.specs.AnswerLines.{largest};
ghost use Rattle.protocol.specs.Promises.{day_farm, order_kept, moving, Puts, Took, Ended, end_text};
ghost use Rattle.protocol.specs.Reachable.{Reachable};

use crate::{Progress, Session};
use answers::{Answer, Question};
use booking::Cells;
use limits::FarmCosts;
use lines::answer::{put_answer, put_move};
use lines::step::{in_turn, opening, order_of};
use lines::{Command, Order, Query, Rest};
use planner::{
    Farm, account_unchecked, move_unchecked, moved, offer_unchecked, open_figures, quote_unchecked,
    withdraw_unchecked,
};
use reading::Row;
use search::find;
use timetable::lines::write_rows;

// The start of a day: an unopened farm, whatever stands in the cells, and nothing of a line. The figures are those of a
// refused opening.
pub fn start() -> Session
    ensures { ((ks xs : List ℕ) → farm_of result.farm.figures ks xs ≡ unopened) × (pending_of result.rest ≡ part []) }
{
    let costs = FarmCosts {
        send: 0,
        compute: 0,
        linksetup: 0,
        nodesetup: 0,
        returning: 0,
    };
    Session {
        farm: Farm {
            figures: open_figures(0, costs, &[]).figures,
            cells: Cells::empty(),
        },
        rest: Rest::empty(),
        plan: Cells::empty(),
        rows: [[0; 8]; 1024],
    }
}

// What a row asks for, where that is in its turn.
fn order_in_turn(row: Row, opened: bool) -> Option<Order>
    ensures { result ≡ order_kept (order_of row.kind row.count row.numbers) opened }
{
    order_of(row).filter(|&order| in_turn(Some(order), opened))
}

// The farm of a day was reached by an opening and calls, so question 11 is not asked again.
impl Session {
    // What a query is told. The farm stays as it is.
    fn told(&mut self, query: Query) -> Answer
        requires { passes_of (day_farm self.old) ≡ true }
        ensures says { said result ≡ reply (day_farm self.old) (query_call query) }
        ensures farm { day_farm self.new ≡ day_farm self.old }
        ensures rest { self.new.rest ≡ self.old.rest }
    {
        match query {
            Query::Account(show) => account_unchecked(&self.farm, show),
            Query::Quote(offer) => quote_unchecked(&self.farm, offer, &mut self.plan),
        }
    }

    // What a command is told, with the farm as it leaves it.
    fn decided(&mut self, command: Command) -> Answer
        requires { passes_of (day_farm self.old) ≡ true }
        ensures says { said result ≡ reply (day_farm self.old) (command_call command) }
        ensures farm { day_farm self.new ≡ handed (day_farm self.old) (command_call command) }
        ensures rest { self.new.rest ≡ self.old.rest }
    {
        match command {
            Command::Offer(offer) => offer_unchecked(&mut self.farm, offer, &mut self.plan),
            Command::Withdraw(number) => withdraw_unchecked(&mut self.farm, number),
        }
    }

    // Opens the farm of a row. A method of its own: in `put_line` every line would set the memory of an opening to 0.
    fn opened(&mut self, row: Row) -> Answer
        requires { (6 ≤ row.count) × (row.count ≤ 39) }
        ensures says { said result ≡ (opening_with row.numbers (allowances_in row)).said }
        ensures farm { day_farm self.new ≡ (opening_with row.numbers (allowances_in row)).farm }
        ensures rest { self.new.rest ≡ self.old.rest }
    {
        let opening = opening(row);
        self.farm.figures = opening.figures;
        opening.answer
    }

    // Moves the clock. It writes the lines that begin and the answer at place `at`, and answers the place behind them.
    fn put_clock(&mut self, time: u64, out: &mut [u8], at: usize) -> usize
        requires reached { Reachable (day_farm self.old) }
        requires opened { self.old.farm.figures.opened ≡ true }
        requires room { at + largest ≤ length out.old }
        ensures { Puts (moving (day_farm self.old) time) at out.old out.new result self.old self.new }
    {
        let farm = &mut self.farm;
        let step = move_unchecked(farm, time, 1024);
        if step.answer.is_err() {
            return put_answer(out, at, step.answer);
        }
        let due = step.due;
        if due.count == 0 {
            farm.figures.clock = time;
            return put_answer(out, at, step.answer);
        }
        write_rows(
            &mut self.rows,
            farm.figures.costs,
            &farm.figures.jobs,
            &farm.cells,
            &due.keys[..due.count],
        );
        moved(farm, due, time);
        put_move(out, at, &self.rows[..due.lines], step.answer)
    }

    // Answers the line of a row at place `at`, and answers the place behind the answer. A line that cannot be read, or
    // not in its turn, is refused with 11.
    fn put_line(&mut self, row: Row, out: &mut [u8], at: usize) -> usize
        requires reached { Reachable (day_farm self.old) }
        requires farm { FarmRow row }
        requires room { at + largest ≤ length out.old }
        ensures { Puts (by_row (day_farm self.old) row) at out.old out.new result self.old self.new }
    {
        let Some(order) = order_in_turn(row, self.farm.figures.opened) else {
            return put_answer(out, at, Err(Question::Farm));
        };
        let answer = match order {
            Order::Query(query) => self.told(query),
            Order::Command(command) => self.decided(command),
            Order::Clock(time) => return self.put_clock(time, out, at),
            Order::Open => self.opened(row),
        };
        put_answer(out, at, answer)
    }

    // Answers the lines of a block from place `from` on, at the front of `out`. It stops at the block's end, where the
    // rest of an unfinished line is kept, or where `out` may not hold the next answer.
    pub fn answer_block(&mut self, block: &[u8], from: usize, out: &mut [u8]) -> Progress
        requires { Reachable (day_farm self.old) }
        ensures { Took (day_farm self.old) (pending_of self.old.rest) block.now from out.old out.new result self.new }
    {
        let mut next = from;
        let mut at = 0;
        // From newline to newline by `find`, a word at a time, and only as far as `out` has room.
        while next < block.len() && out.len() - at >= 180400 {
            let end = find(block, next, b'\n');
            if end == block.len() {
                self.rest.push(&block[next..end]);
                next = end;
            } else {
                let row = self.rest.ended(&block[next..end]);
                at = self.put_line(row, out, at);
                next = end + 1;
            }
        }
        Progress { next, written: at }
    }

    // The end of the input: what is pending is a line if it is not empty. Where it is empty, or where `out` may not hold
    // the answer, nothing is written and the day stays as it is.
    pub fn end_of_input(&mut self, out: &mut [u8]) -> usize
        requires { Reachable (day_farm self.old) }
        ensures day { Ended (length out.old) self.old self.new }
        ensures wrote { WroteWithin (length out.old) (end_text (day_farm self.old) (pending_of self.old.rest) (length out.old)) 0 out.old out.new result }
    {
        if out.len() < 180400 || self.rest.is_empty() {
            return 0;
        }
        self.answer_block(b"\n", 0, out).written
    }
}
